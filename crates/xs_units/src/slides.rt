//! What slides miss by themselves.

ghost use Rattle.std.specs.Prelude.{◌≡◌, ◌≤◌, ◌+◌, ◌&&◌, length, nat_le, true, IfOk, SomeIff};
ghost use Rattle.std.specs.List.{list_all};
ghost use Rattle.std.specs.Option.{option_map};
ghost use Rattle.std.specs.Str.Parse.{signed_digits_value};
ghost use Rattle.xs_fields.specs.Conditions.{first_missed};
ghost use Rattle.xs_fields.specs.Integers.{is_integer, is_small};
ghost use Rattle.xs_template.specs.Template.{most_words};
ghost use Rattle.xs_units.specs.Units.{counts_meet, is_circular, is_list, is_long, is_pair_spelt, is_slide_child, is_slide_known, is_slide_spelt, is_truth, list_in, members_meet, offset_text, slide_meets, template_in, texts_meet};
ghost use Rattle.xs_var.specs.Elements.{children_of};
ghost use Rattle.xs_words.specs.Args.{are_few, args_of};

use crate::forms::is_form_known;
use crate::judge::judge_magnitude;
use std::alloc::Global;
use xf_markup::{Node, Piece};
use xf_num::{MAX_ITEMS, NoMemory};
use xs_fields::{Condition, earlier, is_blank, small_value};
use xs_model::Names;
use xs_var::{
    attribute, has_no_child, has_only, is_one_of, judge_fitting, judge_known, judge_naming,
    judge_spelling, text_of,
};
use xs_words::{are_few, are_named, are_spelt, count_args, is_count};

fn is_list(node: &Node) -> bool
    ensures { result ≡ is_list node.now }
{
    node.name.as_slice() == b"list".as_slice()
}

fn is_truth(value: Option<&[u8]>) -> bool
    ensures { result ≡ is_truth (option_map (λ x. x.now) value.entry) }
{
    match value {
        Some(text) => is_one_of(&[b"true", b"false"], text),
        None => true,
    }
}

/// Whether the windows go round the end, by the value of `circular`.
pub fn is_circular(value: Option<&[u8]>) -> bool
    ensures { result ≡ is_circular (option_map (λ x. x.now) value.entry) }
{
    match value {
        Some(text) => text == b"true".as_slice(),
        None => false,
    }
}

/// The text of the offset: 1, where there is none.
pub fn offset_text(value: Option<&[u8]>) -> &[u8]
    ensures { result.now ≡ offset_text (option_map (λ x. x.now) value.entry) }
{
    match value {
        Some(text) => text,
        None => b"1",
    }
}

/// The first `list` among the children.
pub fn list_in(pieces: &[Piece]) -> Option<&Node>
    ensures { option_map (λ x. x.now) result ≡ list_in (children_of pieces.now) }
{
    for piece in pieces {
        if let Piece::Inner(child) = piece {
            if is_list(child) {
                return Some(child);
            }
        }
    }
    None
}

/// The first other child.
pub fn template_in(pieces: &[Piece]) -> Option<&Node>
    ensures { option_map (λ x. x.now) result ≡ template_in (children_of pieces.now) }
{
    for piece in pieces {
        if let Piece::Inner(child) = piece {
            if !is_list(child) {
                return Some(child);
            }
        }
    }
    None
}

fn is_slide_child(node: &Node) -> bool
    ensures { result ≡ is_slide_child node.now }
{
    if is_list(node) {
        has_only(node.attrs.as_slice(), &[b"offset", b"class", b"note"])
            && has_no_child(node.pieces.as_slice())
    } else {
        is_form_known(node)
    }
}

fn are_slide_children(pieces: &[Piece]) -> bool
    ensures { result ≡ list_all is_slide_child (children_of pieces.now) }
{
    for piece in pieces {
        if let Piece::Inner(child) = piece {
            if !is_slide_child(child) {
                return false;
            }
        }
    }
    true
}

fn is_slide_known(node: &Node) -> bool
    ensures { result ≡ is_slide_known node.now }
{
    let attrs = node.attrs.as_slice();
    has_only(attrs, &[b"circular", b"id", b"class", b"note"])
        && (is_truth(attribute(attrs, b"circular")) && are_slide_children(node.pieces.as_slice()))
}

/// How many children there are.
fn child_count(pieces: &[Piece]) -> usize
    ensures value { result ≡ length (children_of pieces.now) }
    ensures within { result ≤ length pieces.now }
{
    let mut count = 0;
    for piece in pieces {
        if let Piece::Inner(_) = piece {
            count += 1;
        }
    }
    count
}

fn is_slide_spelt(alloc: Global, node: &Node) -> Result<bool, NoMemory>
    ensures { IfOk result (λ spelt. spelt ≡ is_slide_spelt node.now) }
{
    let text = text_of(alloc, node)?;
    Ok(is_blank(text.as_slice()) && child_count(node.pieces.as_slice()) == 2)
}

/// What a slide misses first by its own names and texts.
pub fn judge_slide(alloc: Global, node: &Node) -> Result<Option<Condition>, NoMemory>
    ensures { IfOk result (λ missed. missed ≡ first_missed (slide_meets node.now)) }
{
    let spelt = is_slide_spelt(alloc, node)?;
    Ok(earlier(judge_known(is_slide_known(node)), judge_spelling(spelt)))
}

fn is_pair_spelt(asked: u64, more: bool, offset: &[u8]) -> bool
    ensures { result ≡ is_pair_spelt asked more offset.now }
{
    0 < asked && (!more && is_count(offset))
}

fn is_long(circular: bool, asked: u64, count: u64) -> bool
    ensures { result ≡ is_long circular asked count }
{
    !circular || asked <= count
}

/// What the number of members of a list misses first; None where it is past the limit.
fn judge_count(
    names: &Names,
    count: Option<u64>,
    circular: bool,
    asked: u64,
    before: u64,
    list: &[u8],
) -> Option<Condition>
    requires { SomeIff count (before + length (args_of names.now list.now) ≤ most_words) (length (args_of names.now list.now)) }
    ensures { result ≡ first_missed (counts_meet (nat_le (before + length (args_of names.now list.now)) most_words) (is_long circular asked (length (args_of names.now list.now)))) }
{
    match count {
        Some(count) => judge_fitting(is_long(circular, asked, count)),
        None => Some(Condition::Counting),
    }
}

/// What the members of the list of a slide miss first.
fn judge_members(
    alloc: Global,
    names: &Names,
    circular: bool,
    asked: u64,
    list: &[u8],
    before: u64,
) -> Result<Option<Condition>, NoMemory>
    requires { before ≤ most_words }
    ensures { IfOk result (λ missed. missed ≡ first_missed (members_meet names.now circular asked list.now before)) }
{
    let named = are_named(alloc, names, list)?;
    let count = count_args(alloc, names, list, MAX_ITEMS - before)?;
    let counted = judge_count(names, count, circular, asked, before, list);
    Ok(earlier(judge_naming(named), counted))
}

/// Whether an integer is small.
fn is_small(word: &[u8]) -> bool
    requires { is_integer word.now ≡ true }
    ensures { result ≡ is_small (signed_digits_value 10 word.now) }
{
    small_value(word).is_some()
}

fn are_small(offset: &[u8], list: &[u8]) -> bool
    requires { is_integer offset.now ≡ true }
    ensures { result ≡ (is_small (signed_digits_value 10 offset.now) && are_few list.now) }
{
    is_small(offset) && are_few(list)
}

/// What the texts of the list and the template of a slide miss first.
fn judge_texts(
    alloc: Global,
    names: &Names,
    circular: bool,
    asked: u64,
    more: bool,
    offset: &[u8],
    list: &[u8],
    before: u64,
) -> Result<Option<Condition>, NoMemory>
    requires { before ≤ most_words }
    ensures { IfOk result (λ missed. missed ≡ first_missed (texts_meet names.now circular asked more offset.now list.now before)) }
{
    if !is_pair_spelt(asked, more, offset) {
        return Ok(Some(Condition::Spelling));
    }
    if !are_spelt(list) {
        return Ok(Some(Condition::Spelling));
    }
    let members = judge_members(alloc, names, circular, asked, list, before)?;
    Ok(earlier(judge_magnitude(are_small(offset, list)), members))
}

/// What a slide misses first by itself and by the texts of its list and its template.
pub fn judge_pair(
    alloc: Global,
    names: &Names,
    node: &Node,
    circular: bool,
    asked: u64,
    more: bool,
    offset: &[u8],
    list: &[u8],
    before: u64,
) -> Result<Option<Condition>, NoMemory>
    requires { before ≤ most_words }
    ensures { IfOk result (λ missed. missed ≡ first_missed (λ k. slide_meets node.now k && texts_meet names.now circular asked more offset.now list.now before k)) }
{
    let own = judge_slide(alloc, node)?;
    let texts = judge_texts(alloc, names, circular, asked, more, offset, list, before)?;
    Ok(earlier(own, texts))
}
