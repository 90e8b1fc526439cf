//! The children of a `cumulative`.

ghost use Rattle.std.specs.Prelude.{◌≡◌};
ghost use Rattle.xs_tasks.specs.Tasks.{are_children, child_count, child_text, has_child};

use xs_model::Part;
use xs_parts::or_else;
use xs_tables::text_in;

/// The text of a child, blank where it is not there.
pub(crate) fn child_text<'a>(parts: &'a [Part], name: &[u8]) -> &'a [u8]
    ensures { result.now ≡ child_text name.now parts.now }
{
    or_else(text_in(parts, name), b"")
}

fn has_child(parts: &[Part], name: &[u8]) -> bool
    ensures { result ≡ has_child name.now parts.now }
{
    text_in(parts, name).is_some()
}

// How many children there are, with ends or without.
fn child_count(has_ends: bool) -> usize
    ensures { result ≡ child_count has_ends }
{
    if has_ends { 5 } else { 4 }
}

/// Whether origins, lengths, heights and a condition are there, and perhaps ends: each once, and nothing beside them.
pub(crate) fn are_children(parts: &[Part]) -> bool
    ensures { result ≡ are_children parts.now }
{
    has_child(parts, b"origins")
        && has_child(parts, b"lengths")
        && (has_child(parts, b"heights") && has_child(parts, b"condition"))
        && parts.len() == child_count(has_child(parts, b"ends"))
}
