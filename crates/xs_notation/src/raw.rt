use xf_num::{Row, Text};
use xs_model::Op;

/// An expression as its tokens spell it (XCSP3-core, "Intensional constraints"): words are not read yet.
#[derive(Debug, Drop)]
pub enum Raw {
    /// An operand without operands of its own: an integer or a variable, where it is spelt right.
    Word(Text),
    /// An operator and its operands.
    Call(Op, Row<Raw>),
}
