//! How a command stands: with a text that is due, or with nothing due.

use xf_num::Text;
use xf_text::Fault;
use xf_words::Which;

/// How a command stands that has a text due.
#[derive(Clone, Copy, Debug, PartialEq, Eq)]
pub enum Standing {
    /// It was done.
    Met,
    /// The verdict is another one, or there is no solution.
    Unmet,
    /// The search has more nodes than it may open.
    Limited,
}

/// Why nothing is due.
#[derive(Debug, Drop)]
pub enum Halt {
    /// The file is refused.
    Refused(Which, Fault),
    /// A call on the files failed while this one was read.
    NotRead(Which),
    /// The verdict is not yes: its line.
    Denied(Text),
    /// Memory was wanting.
    Memory,
}
