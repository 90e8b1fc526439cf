//! What a command was decided to come to.

use xf_course::Standing;
use xf_num::Text;
use xs_model::Instance;

/// A text that is due, as what it is made of.
#[derive(Drop)]
pub enum Due {
    /// These bytes.
    Text(Text),
    /// The FlatZinc model of this instance.
    Lowered(Instance),
}

/// A text that is due, and how the command stands with it.
#[derive(Drop)]
pub struct Decided {
    pub standing: Standing,
    pub due: Due,
}
