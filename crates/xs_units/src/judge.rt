//! What units miss by themselves.

ghost use Rattle.std.specs.Prelude.{◌≡◌, ◌≤◌, ◌+◌, length, nat_le, IfOk, SomeIff};
ghost use Rattle.std.specs.List.{list_all};
ghost use Rattle.xs_fields.specs.Conditions.{first_missed};
ghost use Rattle.xs_var.specs.Elements.{children_of, text_in};
ghost use Rattle.xs_words.specs.Args.{args_of, magnitude_meets};
ghost use Rattle.xs_template.specs.Concrete.{asked_of, is_open};
ghost use Rattle.xs_template.specs.Template.{most_words, within_words};
ghost use Rattle.xs_units.specs.Units.{args_meet, are_group_children, container_meets, counts_meet, expanded_meet, fits, group_meets, is_args_known, is_group_known, is_group_spelt, is_args, is_group_child, is_template_first, words_meet};

use crate::child::next_child;
use crate::forms::is_form;
use std::alloc::Global;
use xf_markup::{Node, Piece};
use xf_num::{MAX_ITEMS, NoMemory};
use xs_fields::{Condition, earlier, is_blank};
use xs_model::Names;
use xs_var::{
    has_no_child, has_only, judge_fitting, judge_known, judge_naming, judge_spelling, text_of,
};
use xs_words::{are_few, are_named, count_args};

/// `Magnitude` exactly where the test fails.
pub(crate) fn judge_magnitude(test: bool) -> Option<Condition>
    ensures { result ≡ first_missed (magnitude_meets test) }
{
    if test {
        None
    } else {
        Some(Condition::Magnitude)
    }
}

/// What a block or `constraints` misses first by itself.
pub fn judge_container(alloc: Global, node: &Node) -> Result<Option<Condition>, NoMemory>
    ensures { IfOk result (λ missed. missed ≡ first_missed (container_meets node.now)) }
{
    let text = text_of(alloc, node)?;
    let known = has_only(node.attrs.as_slice(), &[b"id", b"class", b"note"]);
    Ok(earlier(
        judge_known(known),
        judge_spelling(is_blank(text.as_slice())),
    ))
}

fn is_args(node: &Node) -> bool
    ensures { result ≡ is_args node.now }
{
    node.name.as_slice() == b"args".as_slice()
}

fn are_args(pieces: &[Piece]) -> bool
    ensures { result ≡ list_all is_args (children_of pieces.now) }
{
    for piece in pieces {
        if let Piece::Inner(child) = piece {
            if !is_args(child) {
                return false;
            }
        }
    }
    true
}

fn is_group_child(node: &Node) -> bool
    ensures { result ≡ is_group_child node.now }
{
    is_args(node) || is_form(node.name.as_slice())
}

fn are_behind_template(pieces: &[Piece]) -> bool
    ensures { result ≡ list_all is_group_child (children_of pieces.now) }
{
    for piece in pieces {
        if let Piece::Inner(child) = piece {
            if !is_group_child(child) {
                return false;
            }
        }
    }
    true
}

fn are_group_children(pieces: &[Piece]) -> bool
    ensures { result ≡ are_group_children (children_of pieces.now) }
{
    let mut rest = pieces;
    while let Some((child, more)) = next_child(rest) {
        if !is_args(child) {
            return are_behind_template(more);
        }
        rest = more;
    }
    true
}

fn is_template_first(pieces: &[Piece]) -> bool
    ensures { result ≡ is_template_first (children_of pieces.now) }
{
    match next_child(pieces) {
        Some((template, more)) => !is_args(template) && are_args(more),
        None => false,
    }
}

fn is_group_known(node: &Node) -> bool
    ensures { result ≡ is_group_known node.now }
{
    has_only(node.attrs.as_slice(), &[b"id", b"class", b"note"])
        && are_group_children(node.pieces.as_slice())
}

fn is_group_spelt(alloc: Global, node: &Node) -> Result<bool, NoMemory>
    ensures { IfOk result (λ spelt. spelt ≡ is_group_spelt node.now) }
{
    let text = text_of(alloc, node)?;
    Ok(is_blank(text.as_slice()) && is_template_first(node.pieces.as_slice()))
}

/// What a group misses first by itself.
pub fn judge_group(alloc: Global, node: &Node) -> Result<Option<Condition>, NoMemory>
    ensures { IfOk result (λ missed. missed ≡ first_missed (group_meets node.now)) }
{
    let spelt = is_group_spelt(alloc, node)?;
    Ok(earlier(judge_known(is_group_known(node)), judge_spelling(spelt)))
}

fn is_args_known(args: &Node) -> bool
    ensures { result ≡ is_args_known args.now }
{
    has_only(args.attrs.as_slice(), &[b"class", b"note"]) && has_no_child(args.pieces.as_slice())
}

fn fits(asked: u64, more: bool, count: u64) -> bool
    ensures { result ≡ fits asked more count }
{
    asked <= count && (more || count <= asked)
}

/// What the number of words of an `args` misses first; None where it is past the limit.
fn judge_count(
    names: &Names,
    count: Option<u64>,
    asked: u64,
    more: bool,
    before: u64,
    text: &[u8],
) -> Option<Condition>
    requires { SomeIff count (before + length (args_of names.now text.now) ≤ most_words) (length (args_of names.now text.now)) }
    ensures { result ≡ first_missed (counts_meet (nat_le (before + length (args_of names.now text.now)) most_words) (fits asked more (length (args_of names.now text.now)))) }
{
    match count {
        Some(count) => judge_fitting(fits(asked, more, count)),
        None => Some(Condition::Counting),
    }
}

/// What the expanded words of an `args` miss first, where so many words stand before them.
fn judge_expanded(
    alloc: Global,
    names: &Names,
    text: &[u8],
    asked: u64,
    more: bool,
    before: u64,
) -> Result<Option<Condition>, NoMemory>
    requires { before ≤ most_words }
    ensures { IfOk result (λ missed. missed ≡ first_missed (expanded_meet names.now asked more text.now before)) }
{
    let named = are_named(alloc, names, text)?;
    let count = count_args(alloc, names, text, MAX_ITEMS - before)?;
    let counted = judge_count(names, count, asked, more, before, text);
    Ok(earlier(judge_naming(named), counted))
}

/// What the words of an `args` miss first, where so many words stand before them.
fn judge_words(
    alloc: Global,
    names: &Names,
    text: &[u8],
    asked: u64,
    more: bool,
    before: u64,
) -> Result<Option<Condition>, NoMemory>
    requires { before ≤ most_words }
    ensures { IfOk result (λ missed. missed ≡ first_missed (words_meet names.now asked more text.now before)) }
{
    let expanded = judge_expanded(alloc, names, text, asked, more, before)?;
    Ok(earlier(judge_magnitude(are_few(text)), expanded))
}

/// What an `args` of a template misses first by itself, where so many words stand before it.
pub fn judge_args(
    alloc: Global,
    names: &Names,
    template: &Node,
    args: &Node,
    text: &[u8],
    asked: u64,
    more: bool,
    before: u64,
) -> Result<Option<Condition>, NoMemory>
    requires text { text.now ≡ text_in args.now.pieces }
    requires asked { asked ≡ asked_of within_words template.now }
    requires more { more ≡ is_open within_words template.now }
    requires before { before ≤ most_words }
    ensures { IfOk result (λ missed. missed ≡ first_missed (args_meet within_words names.now template.now args.now before)) }
{
    let words = judge_words(alloc, names, text, asked, more, before)?;
    Ok(earlier(judge_known(is_args_known(args)), words))
}
