//! The conditions on a `var`.

ghost use Rattle.std.specs.Prelude.{◌≡◌};
ghost use Rattle.std.specs.Option.{option_map};
ghost use Rattle.xs_fields.specs.Conditions.{first_missed};
ghost use Rattle.xs_model.specs.Outline.{names_in};
ghost use Rattle.xs_var.specs.Elements.{is_one_of};
ghost use Rattle.xs_var.specs.Variable.{as_meets, has_no_child, id_meets, is_earlier, is_integer_type, is_new, is_var_known, known_meets, names_meet, naming_meets, spelling_meets};

use crate::element::{attribute, has_only};
use xf_markup::{Node, Piece};
use xs_fields::{Condition, judge_identifier};
use xs_model::Names;

/// Whether an element holds no child.
pub fn has_no_child(pieces: &[Piece]) -> bool
    ensures { result ≡ has_no_child pieces.now }
{
    for piece in pieces {
        if let Piece::Inner(_) = piece {
            return false;
        }
    }
    true
}

/// Whether the type is `integer`, or there is none.
pub fn is_integer_type(value: Option<&[u8]>) -> bool
    ensures { result ≡ is_integer_type (option_map (λ x. x.now) value.entry) }
{
    match value {
        Some(text) => text == b"integer".as_slice(),
        None => true,
    }
}

/// `Known` exactly where the test fails.
pub fn judge_known(test: bool) -> Option<Condition>
    ensures { result ≡ first_missed (known_meets test) }
{
    if test { None } else { Some(Condition::Known) }
}

/// `Spelling` exactly where the test fails.
pub fn judge_spelling(test: bool) -> Option<Condition>
    ensures { result ≡ first_missed (spelling_meets test) }
{
    if test {
        None
    } else {
        Some(Condition::Spelling)
    }
}

/// `Naming` exactly where the test fails.
pub fn judge_naming(test: bool) -> Option<Condition>
    ensures { result ≡ first_missed (naming_meets test) }
{
    if test { None } else { Some(Condition::Naming) }
}

/// What an identifier that has to be there misses first.
pub fn judge_id(value: Option<&[u8]>) -> Option<Condition>
    ensures { result ≡ first_missed (id_meets (option_map (λ x. x.now) value.entry)) }
{
    match value {
        Some(text) => judge_identifier(text),
        None => judge_spelling(false),
    }
}

/// What an identifier that may be there misses first.
pub fn judge_as(value: Option<&[u8]>) -> Option<Condition>
    ensures { result ≡ first_missed (as_meets (option_map (λ x. x.now) value.entry)) }
{
    match value {
        Some(text) => judge_identifier(text),
        None => None,
    }
}

/// Whether a name is declared.
pub fn is_declared(names: &Names, name: &[u8]) -> bool
    ensures { result ≡ is_one_of (names_in names.now) name.now }
{
    names.position(name).is_some()
}

/// Whether an identifier is new.
pub fn is_new(names: &Names, id: Option<&[u8]>) -> bool
    ensures { result ≡ is_new (names_in names.now) (option_map (λ x. x.now) id.entry) }
{
    match id {
        Some(id) => !is_declared(names, id),
        None => true,
    }
}

/// Whether an identifier is declared already, or there is none.
pub fn is_earlier(names: &Names, like: Option<&[u8]>) -> bool
    ensures { result ≡ is_earlier (names_in names.now) (option_map (λ x. x.now) like.entry) }
{
    match like {
        Some(name) => is_declared(names, name),
        None => true,
    }
}

/// Whether the attributes and the children of a `var` are known.
pub fn is_var_known(node: &Node) -> bool
    ensures { result ≡ is_var_known node.now }
{
    let attrs = node.attrs.as_slice();
    has_only(attrs, &[b"id", b"type", b"as", b"class", b"note"])
        && is_integer_type(attribute(attrs, b"type"))
        && has_no_child(node.pieces.as_slice())
}

/// What the names of a `var` miss first, beside those declared before it.
pub fn judge_names(node: &Node, names: &Names) -> Option<Condition>
    ensures { result ≡ first_missed (names_meet (names_in names.now) node.now) }
{
    let attrs = node.attrs.as_slice();
    judge_naming(
        is_new(names, attribute(attrs, b"id")) && is_earlier(names, attribute(attrs, b"as")),
    )
}
