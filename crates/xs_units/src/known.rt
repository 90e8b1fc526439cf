//! What is known so far, and who takes the constraints.

ghost use Rattle.std.specs.Prelude.{Result};
ghost use Rattle.xf_text.specs.declared.fault.Kind.{Kind as TheKind};
ghost use Rattle.xs_units.specs.Units.{IsTaken, gathered};
ghost use Rattle.xs_model.specs.declared.concrete.Concrete.{Concrete as TheConcrete};

use xf_num::{NoMemory, Row};
use xf_text::{Fault, Kind};
use xs_model::{Concrete, Concretes};

/// What takes constraints one after the other.
pub trait Take {
    /// What comes of a constraint: the next state, or the kind of the constraint's own fault.
    ghost taken: { Self → TheConcrete → Result Self TheKind };

    /// Takes a constraint; else the kind of its fault, and nothing is changed.
    fn take(&mut self, made: Concrete) -> Result<Option<Kind>, NoMemory>
        ensures { IsTaken taken self.old self.new made result };
}

/// The words counted so far, and the state of what takes the constraints.
#[derive(Drop)]
pub struct Known<T> {
    pub words: u64,
    pub state: T,
}

/// What an element stands for: constraints in order, up to the first unit that can not be expanded, and its fault.
#[derive(Drop)]
pub struct Expansion {
    pub made: Concretes,
    pub fault: Option<Fault>,
}

impl Take for Row<Concrete> {
    ghost taken = { gathered };

    fn take(&mut self, made: Concrete) -> Result<Option<Kind>, NoMemory> {
        self.push(made)?;
        Ok(None)
    }
}
