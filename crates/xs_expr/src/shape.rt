ghost use Rattle.std.specs.Prelude.{◌≡◌, ◌&&◌, true, false, All, length};
ghost use Rattle.xs_model.specs.Shape.{is_set, is_set_operator, IsShaped};
ghost use Rattle.xs_expr.specs.Shaped.{is_count, is_exponent, is_membership, is_power, are_no_sets, are_placed};

use xs_model::{Expr, Op};

/// Whether every node of `e` is well formed: as many operands as its operator takes, a set as the second operand of
/// `in` and `notin` and nowhere else, and a literal from 1 to 64 as the second operand of `pow`.
#[cycle(shape)]
pub fn is_shaped(e: &Expr) -> bool
    ensures shaped { result ≡ true → IsShaped e.now }
    ensures every { IsShaped e.now → result ≡ true }
{
    match e {
        Expr::Int(_) => true,
        Expr::Var(_) => true,
        Expr::Node(op, operands) => {
            has_shape(*op, operands.as_slice()) && are_shaped(operands.as_slice())
        }
    }
}

#[cycle(shape)]
fn are_shaped(items: &[Expr]) -> bool
    ensures shaped { result ≡ true → All IsShaped items.now }
    ensures every { All IsShaped items.now → result ≡ true }
{
    for item in items {
        if !is_shaped(item) {
            return false;
        }
    }
    true
}

/// Whether one node is well formed.
fn has_shape(op: Op, operands: &[Expr]) -> bool
    ensures { result ≡ (is_count op (length operands.now) && are_placed op operands.now) }
{
    is_count(op, operands.len()) && are_placed(op, operands)
}

/// Whether the operator takes so many operands.
fn is_count(op: Op, count: usize) -> bool
    ensures { result ≡ is_count op count }
{
    match op {
        Op::Neg | Op::Abs | Op::Sqr | Op::Not => count == 1,
        Op::Add | Op::Mul | Op::Min | Op::Max => count >= 2,
        Op::Eq | Op::And | Op::Or | Op::Xor => count >= 2,
        Op::Set => true,
        Op::If => count == 3,
        Op::Sub | Op::Dist | Op::Div | Op::Mod | Op::Pow => count == 2,
        Op::Lt | Op::Le | Op::Gt | Op::Ge | Op::Ne => count == 2,
        Op::In | Op::NotIn | Op::Iff | Op::Imp => count == 2,
    }
}

/// Whether what stands where among the operands is what the operator takes.
fn are_placed(op: Op, operands: &[Expr]) -> bool
    ensures { result ≡ are_placed op operands.now }
{
    match op {
        Op::In | Op::NotIn => is_membership(operands),
        Op::Pow => is_power(operands),
        _ => are_no_sets(operands),
    }
}

fn is_membership(operands: &[Expr]) -> bool
    ensures { result ≡ is_membership operands.now }
{
    match operands {
        [member, set] => !is_set(member) && is_set(set),
        _ => false,
    }
}

fn is_power(operands: &[Expr]) -> bool
    ensures { result ≡ is_power operands.now }
{
    match operands {
        [base, exponent] => !is_set(base) && is_exponent(exponent),
        _ => false,
    }
}

fn are_no_sets(operands: &[Expr]) -> bool
    ensures { result ≡ are_no_sets operands.now }
{
    for operand in operands {
        if is_set(operand) {
            return false;
        }
    }
    true
}

/// Whether it is a set.
pub(crate) fn is_set(e: &Expr) -> bool
    ensures { result ≡ is_set e.now }
{
    match e {
        Expr::Int(_) => false,
        Expr::Var(_) => false,
        Expr::Node(op, _) => is_set_operator(*op),
    }
}

fn is_set_operator(op: Op) -> bool
    ensures { result ≡ is_set_operator op }
{
    match op {
        Op::Set => true,
        _ => false,
    }
}

/// Whether it is a literal from 1 to 64.
fn is_exponent(e: &Expr) -> bool
    ensures { result ≡ is_exponent e.now }
{
    match e {
        Expr::Int(value) => *value >= 1 && *value <= 64,
        Expr::Var(_) => false,
        Expr::Node(_, _) => false,
    }
}
