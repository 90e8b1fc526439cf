//! The texts of fields of XCSP3-core: words, integers, lists of integers, domains, sizes and identifiers, and the
//! order of the conditions on a unit.
//!
//! It stands on `xf_num`, `xf_text` and `xs_model`. A text is cut into words at whitespace (`specs/Words.antt`); each
//! kind of word has at most one value (`specs/Integers.antt`, `specs/Lists.antt`, `specs/Sizes.antt`). A unit of an
//! instance is refused by the first condition, in order, that it misses (`specs/Conditions.antt`). So each field is
//! read in one pass, which gives together its value and the first condition that the field alone misses over its whole
//! text (a `Reading`, by `scan_ints` and its like); a reader above it gives the value of a field that misses nothing, and
//! else the kind of fault of what it misses first. `earlier` joins what the fields of one unit miss. Counts are decided
//! before anything is expanded. A direct word is looked up at once; `one_denotation` says that it is the same variable.
#![tactic(auto)]

mod cells;
mod compare;
mod condition;
mod direct;
mod identifier;
mod integer;
mod law;
mod pieces;
mod reading;
mod runs;
mod scan;
mod sizes;
mod terms;
mod variable;
mod variables;
mod words;

pub use cells::{are_inside, covered};
pub use compare::at_most;
pub use condition::{Condition, earlier};
pub use direct::direct_variable;
pub use identifier::{is_identifier, judge_identifier, read_identifier};
pub use integer::{is_integer, judge_integer, read_integer, small_value};
pub use law::one_denotation;
pub use pieces::{judge_pieces, read_pieces, scan_pieces};
pub use reading::Reading;
pub use runs::{read_ints, scan_ints};
pub use sizes::{judge_sizes, read_sizes};
pub use terms::{read_terms, scan_terms};
pub use variable::{Bracket, Brackets, Word, judge_word, read_word};
pub use variables::{reach, read_vars, scan_vars};
pub use words::{cut, is_blank, next_word};

#[cfg(test)]
mod list_tests;
#[cfg(test)]
mod tests;
