//! The forms by their names, and their constraints.

ghost use Rattle.std.specs.Prelude.{◌≡◌, ◌↔◌, ◌≤◌, true, length, IfOk};
ghost use Rattle.xs_fields.specs.Conditions.{IsOrMemory, answer};
ghost use Rattle.xs_forms.specs.Room.{IsAsLong, IsRoomFor};
ghost use Rattle.xs_language.specs.Language.{form_meets, form_of, is_form, is_language};
ghost use Rattle.xs_model.specs.Accepted.{IsFormed, items_of};
ghost use Rattle.xs_model.specs.Instance.{Holds};
ghost use Rattle.xs_model.specs.Outline.{variables_in};

use std::alloc::Global;
use xf_text::FieldStop;
use xs_automata::{holds_mdd, holds_regular, read_mdd, read_regular};
use xs_forms::Scratch;
use xs_model::{Concrete, Constraint, Names};
use xs_tables::{holds_ranges, holds_table, read_extension};

/// Whether a form of this crate has this name.
pub fn is_form(name: &[u8]) -> bool
    ensures { result ≡ is_form name.now }
{
    name == b"extension".as_slice() || name == b"regular".as_slice() || name == b"mdd".as_slice()
}

/// The constraint of a form that is read here, where at most `left` items may still come. Else the kind of fault of the
/// first condition that it misses, or want of memory.
///
/// Asks that its name is that of such a form. Which attributes and children its form knows is not asked here but of the
/// element before expansion, by `xs_units`: an attribute is passed over.
pub fn read_form(
    alloc: Global,
    c: &Concrete,
    names: &Names,
    left: u64,
) -> Result<Constraint, FieldStop>
    requires { is_form c.now.name ≡ true }
    ensures value { IsOrMemory result (answer (form_meets names.now left c.now) (form_of names.now c.now)) }
    ensures formed { IfOk result (λ x. IsFormed (variables_in names.now) x) }
    ensures few { IfOk result (λ x. items_of x ≤ left) }
{
    let name = c.name.as_slice();
    if name == b"extension".as_slice() {
        read_extension(alloc, c, names, left)
    } else if name == b"regular".as_slice() {
        read_regular(alloc, c, names, left)
    } else {
        read_mdd(alloc, c, names, left)
    }
}

/// Whether a constraint holds under an assignment. Takes no memory, and leaves the room as long as it is.
///
/// Asks that the constraint is of a form that is tested here, and of the shape of its form over the variables that have a
/// value, and that there is room for its test.
pub fn holds(c: &Constraint, a: &[i128], scratch: &mut Scratch) -> bool
    requires form { is_language c.now ≡ true }
    requires formed { IsFormed (length a.now) c.now }
    requires room { IsRoomFor c.now scratch.old }
    ensures value { (result ≡ true) ↔ Holds c.now a.now }
    ensures long { IsAsLong scratch.old scratch.new }
{
    match c {
        Constraint::Extension {
            list,
            tuples,
            positive,
        } => holds_table(list.as_slice(), tuples.as_slice(), *positive, a),
        Constraint::Unary {
            var,
            spans,
            positive,
        } => holds_ranges(*var, spans.as_slice(), *positive, a),
        Constraint::Regular {
            list,
            edges,
            start,
            finals,
        } => holds_regular(
            list.as_slice(),
            edges.as_slice(),
            *start,
            finals.as_slice(),
            a,
            scratch,
        ),
        Constraint::Mdd {
            list,
            edges,
            root,
            leaf,
        } => holds_mdd(list.as_slice(), edges.as_slice(), *root, *leaf, a, scratch),
        _ => false,
    }
}
