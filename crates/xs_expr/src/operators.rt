ghost use Rattle.std.specs.Prelude.{◌≡◌, IfSome};
ghost use Rattle.xs_expr.specs.Operators.{look_up};
ghost use Rattle.xs_expr.specs.Text.{name_of};
ghost use Rattle.xs_model.specs.declared.expr.Op.{Op};

use crate::text::name_of;
use xs_model::Op;

const ALL: [Op; 28] = [
    Op::Neg,
    Op::Abs,
    Op::Sqr,
    Op::Add,
    Op::Mul,
    Op::Sub,
    Op::Dist,
    Op::Div,
    Op::Mod,
    Op::Pow,
    Op::Min,
    Op::Max,
    Op::Lt,
    Op::Le,
    Op::Gt,
    Op::Ge,
    Op::Ne,
    Op::Eq,
    Op::Set,
    Op::In,
    Op::NotIn,
    Op::Not,
    Op::And,
    Op::Or,
    Op::Xor,
    Op::Iff,
    Op::Imp,
    Op::If,
];

/// The operator with that name; None exactly where no operator has it.
pub fn operator(name: &[u8]) -> Option<Op>
    ensures named { IfSome result (λ op. name_of op ≡ name.now) }
    ensures every { (op : Op) → name_of op ≡ name.now → result ≡ Some op }
{
    find(&ALL, name)
}

/// The first of these with that name.
fn find(operators: &[Op], name: &[u8]) -> Option<Op>
    ensures { result ≡ look_up operators.now name.now }
{
    for operator in operators {
        if name_of(*operator) == name {
            return Some(*operator);
        }
    }
    None
}
