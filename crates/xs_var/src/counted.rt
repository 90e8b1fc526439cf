//! A declaration, and the counts with it.

use xs_model::Decl;

/// A declaration, and what is counted with it.
#[derive(Drop)]
pub struct Counted {
    pub decl: Decl,
    /// Cells of all declarations up to this one, undefined ones too.
    pub cells: u64,
    /// Values of all domains of more than one range up to here.
    pub values: u64,
}
