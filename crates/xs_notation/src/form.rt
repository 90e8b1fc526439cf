ghost use Rattle.std.specs.Prelude.{◌≡◌, map};
ghost use Rattle.xs_model.specs.Shape.{is_set_operator};
ghost use Rattle.xs_expr.specs.Shaped.{is_count};
ghost use Rattle.xs_fields.specs.Conditions.{first_missed};
ghost use Rattle.xs_notation.specs.Forms.{are_formed, are_no_sets, are_placed, form, form_meets, is_expression, is_membership, is_power};

use crate::raw::Raw;
use xs_expr::is_exponent_word;
use xs_fields::Condition;
use xs_model::Op;

/// Whether an expression misses `Spelling` by its operators and their operands.
pub fn judge_form(raw: &Raw) -> Option<Condition>
    ensures { result ≡ first_missed (form_meets raw.now) }
{
    if is_formed(raw) && !is_set(raw) {
        None
    } else {
        Some(Condition::Spelling)
    }
}

/// Whether each operator has the operands that it takes.
#[cycle(form)]
fn is_formed(raw: &Raw) -> bool
    ensures { result ≡ (form raw.now).is_formed }
{
    match raw {
        Raw::Word(_) => true,
        Raw::Call(op, operands) => {
            is_count(*op, operands.len())
                && (are_placed(*op, operands.as_slice()) && are_formed(operands.as_slice()))
        }
    }
}

#[cycle(form)]
fn are_formed(items: &[Raw]) -> bool
    ensures { result ≡ are_formed (map form items.now) }
{
    for item in items {
        if !is_formed(item) {
            return false;
        }
    }
    true
}

/// Whether the operator takes so many operands.
fn is_count(op: Op, count: usize) -> bool
    ensures { result ≡ is_count op count }
{
    match op {
        Op::Neg | Op::Abs | Op::Sqr | Op::Not => count == 1,
        Op::Add | Op::Mul | Op::Min | Op::Max => count >= 2,
        Op::Eq | Op::And | Op::Or | Op::Xor => count >= 2,
        Op::Set => true,
        Op::If => count == 3,
        Op::Sub | Op::Dist | Op::Div | Op::Mod | Op::Pow => count == 2,
        Op::Lt | Op::Le | Op::Gt | Op::Ge | Op::Ne => count == 2,
        Op::In | Op::NotIn | Op::Iff | Op::Imp => count == 2,
    }
}

/// Whether what stands where among the operands is what the operator takes.
fn are_placed(op: Op, operands: &[Raw]) -> bool
    ensures { result ≡ are_placed op (map form operands.now) }
{
    match op {
        Op::In | Op::NotIn => is_membership(operands),
        Op::Pow => is_power(operands),
        _ => are_no_sets(operands),
    }
}

fn is_membership(operands: &[Raw]) -> bool
    ensures { result ≡ is_membership (map form operands.now) }
{
    match operands {
        [member, set] => !is_set(member) && is_set(set),
        _ => false,
    }
}

fn is_power(operands: &[Raw]) -> bool
    ensures { result ≡ is_power (map form operands.now) }
{
    match operands {
        [base, exponent] => !is_set(base) && is_exponent(exponent),
        _ => false,
    }
}

fn are_no_sets(operands: &[Raw]) -> bool
    ensures { result ≡ are_no_sets (map form operands.now) }
{
    for operand in operands {
        if is_set(operand) {
            return false;
        }
    }
    true
}

fn is_set(raw: &Raw) -> bool
    ensures { result ≡ (form raw.now).is_set }
{
    match raw {
        Raw::Word(_) => false,
        Raw::Call(op, _) => is_set_operator(*op),
    }
}

fn is_set_operator(op: Op) -> bool
    ensures { result ≡ is_set_operator op }
{
    match op {
        Op::Set => true,
        _ => false,
    }
}

/// Whether it is a word for an integer from 1 to 64.
fn is_exponent(raw: &Raw) -> bool
    ensures { result ≡ (form raw.now).is_exponent }
{
    match raw {
        Raw::Word(word) => is_exponent_word(word.as_slice()),
        Raw::Call(_, _) => false,
    }
}
