ghost use Rattle.std.specs.Prelude.{◌≡◌};
ghost use Rattle.xs_model.specs.Sound.{name_of};

use xf_num::{Domain, Ints, Row, Text};

/// The cells of an array in row-major order. A cell without a domain is no variable.
pub type Cells = Row<Option<Domain>>;

/// A declaration of one variable, or of an array of variables.
#[derive(Drop)]
pub enum Decl {
    /// A variable.
    One {
        name: Text,
        domain: Domain,
    },
    /// An array: one size per dimension, and one cell for each place.
    Array {
        name: Text,
        sizes: Ints,
        cells: Cells,
    },
}

impl Decl {
    /// The identifier of the variable or of the array.
    pub fn name(&self) -> &[u8]
        ensures { result.now ≡ name_of self.now }
    {
        match self {
            Decl::One { name, .. } => name.as_slice(),
            Decl::Array { name, .. } => name.as_slice(),
        }
    }
}

/// Declarations in order. Variables are numbered from 0 over them, the defined cells of an array in row-major
/// order.
pub type Decls = Row<Decl>;
