//! What the code knows of all forms of constraints: the table of forms, the fields of a constraint, how many items it
//! has, and room for tests of constraints.
//!
//! It stands on `xf_num`, `xf_text`, `xf_problem` and `xs_model`, which says what a constraint of each form is, means
//! and consists of. `form_rows!` is the one table of forms: from it come the name of a form, the form with a name and
//! the form of a constraint, and a crate above expands it to hand a constraint to the crate of its form. `fields` gives
//! what a constraint consists of as one list, so that what is counted, measured or asked of all constraints alike is a
//! walk over fields and knows no form. `count_items` is such a walk. `Scratch` is made once for an instance, and then
//! no test of a constraint takes memory (`specs/Room.antt`).
#![tactic(auto)]

mod borrowed;
mod form;
mod items;
mod scratch;
mod sizes;
#[cfg(test)]
mod tests;

pub use borrowed::{FieldView, Fields, fields, goal_fields};
pub use form::Form;
pub use items::count_items;
pub use scratch::{Scratch, has_room};
