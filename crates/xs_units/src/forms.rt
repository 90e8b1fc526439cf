//! What the forms of constraints know: a table.

ghost use Rattle.std.specs.Prelude.{◌≡◌, ◌&&◌, map};
ghost use Rattle.std.specs.List.{list_all, list_any};
ghost use Rattle.xs_fields.specs.Words.{words_of};
ghost use Rattle.xs_units.specs.Forms.{are_parts_known, is_attribute_known, is_attribute_of, is_child_known, is_form, is_form_known, is_value};
ghost use Rattle.xs_units.specs.Rows.{row_of, rows_of};
ghost use Rattle.xs_var.specs.Elements.{children_of, is_one_of};

use xf_markup::{Attr, Node, Piece};
use xs_fields::{is_blank, next_word};
use xs_var::{has_no_child, is_one_of};

/// An attribute of a child of a form, or with the empty name of the form itself. Where words are given, its value is
/// one of them.
#[derive(Clone, Copy)]
pub struct Attribute<'a> {
    pub owner: &'a [u8],
    pub name: &'a [u8],
    pub words: &'a [u8],
}

/// The table: for each form that is known its name, its children, and the attributes of its children and its own.
/// `known_rows!(what value)` expands to `what!(value; rows)`.
macro_rules! known_rows {
    ($rows:ident $value:tt) => {
        $rows!(
            $value;
            b"intension" [b"function"] [],
            b"extension" [b"list" b"supports" b"conflicts"] [],
            b"regular" [b"list" b"transitions" b"start" b"final"] [],
            b"mdd" [b"list" b"transitions"] [],
            b"allDifferent" [b"list"] [],
        )
    };
}

macro_rules! is_named {
    ($value:expr; $($name:literal [$($child:literal)*] [$($attribute:expr),*],)*) => {
        is_one_of(&[$($name,)*], $value)
    };
}

fn is_word(words: &[u8], value: &[u8]) -> bool
    ensures { result ≡ is_one_of (words_of words.now) value.now }
{
    let mut rest = words;
    while let Some((word, more)) = next_word(rest) {
        if word == value {
            return true;
        }
        rest = more;
    }
    false
}

fn is_value(words: &[u8], value: &[u8]) -> bool
    ensures { result ≡ is_value words.now value.now }
{
    is_blank(words) || is_word(words, value)
}

fn is_attribute_of(owner: &[u8], attr: &Attr, row: &Attribute<'_>) -> bool
    ensures { result ≡ is_attribute_of owner.now attr.now (row_of row.now) }
{
    row.owner == owner
        && (row.name == attr.name.as_slice() && is_value(row.words, attr.value.as_slice()))
}

fn has_row(owner: &[u8], rows: &[Attribute<'_>], attr: &Attr) -> bool
    ensures { result ≡ list_any (is_attribute_of owner.now attr.now) (rows_of rows.now) }
{
    for row in rows {
        if is_attribute_of(owner, attr, row) {
            return true;
        }
    }
    false
}

fn are_attributes_known(
    dropped: &[&[u8]],
    owner: &[u8],
    rows: &[Attribute<'_>],
    attrs: &[Attr],
) -> bool
    ensures { result ≡ list_all (is_attribute_known (map (λ name. name.now) dropped.now) owner.now (rows_of rows.now)) attrs.now }
{
    for attr in attrs {
        if !is_one_of(dropped, attr.name.as_slice()) && !has_row(owner, rows, attr) {
            return false;
        }
    }
    true
}

fn is_child_known(names: &[&[u8]], rows: &[Attribute<'_>], child: &Node) -> bool
    ensures { result ≡ is_child_known (map (λ name. name.now) names.now) (rows_of rows.now) child.now }
{
    let name = child.name.as_slice();
    is_one_of(names, name)
        && (are_attributes_known(&[b"class", b"note"], name, rows, child.attrs.as_slice())
            && has_no_child(child.pieces.as_slice()))
}

fn are_children_known(names: &[&[u8]], rows: &[Attribute<'_>], pieces: &[Piece]) -> bool
    ensures { result ≡ list_all (is_child_known (map (λ name. name.now) names.now) (rows_of rows.now)) (children_of pieces.now) }
{
    for piece in pieces {
        if let Piece::Inner(child) = piece {
            if !is_child_known(names, rows, child) {
                return false;
            }
        }
    }
    true
}

fn are_parts_known(names: &[&[u8]], rows: &[Attribute<'_>], node: &Node) -> bool
    ensures { result ≡ are_parts_known (map (λ name. name.now) names.now) (rows_of rows.now) node.now }
{
    are_attributes_known(
        &[b"id", b"class", b"note"],
        b"",
        rows,
        node.attrs.as_slice(),
    ) && are_children_known(names, rows, node.pieces.as_slice())
}

/// Whether a form that is known has this name.
pub fn is_form(name: &[u8]) -> bool
    ensures { result ≡ is_form name.now }
{
    known_rows!(is_named name)
}

macro_rules! is_known {
    ($value:expr; $($form:literal [$($child:literal)*] [$($attribute:expr),*],)*) => {{
        $(
            if $value.name.as_slice() == $form.as_slice() {
                return are_parts_known(&[$($child,)*], &[$($attribute,)*], $value);
            }
        )*
        false
    }};
}

/// Whether a constraint's form, its attributes and its children are known.
pub fn is_form_known(node: &Node) -> bool
    ensures { result ≡ is_form_known node.now }
{
    known_rows!(is_known node)
}
