//! The units of a tree, one after the other.

ghost use Rattle.std.specs.Prelude.{◌≡◌, ◌≤◌, ◌+◌, ◌++◌, ◌∷◌, [], length, map, None, IfOk, OnOk};
ghost use Rattle.std.specs.List.{flat_map};
ghost use Rattle.xf_text.specs.declared.fault.Fault.{Fault as TheFault};
ghost use Rattle.xs_fields.specs.Conditions.{first_missed, kind_of};
ghost use Rattle.xs_var.specs.Elements.{children_of, piece_nodes};
ghost use Rattle.xs_words.specs.Args.{args_of};
ghost use Rattle.xs_template.specs.Concrete.{asked_of, is_open, made_from, template_of};
ghost use Rattle.xs_template.specs.Template.{filled, most_words, within_words};
ghost use Rattle.xs_units.specs.Units.{IsRun, args_unit, counted, take_all, constraint_unit, expansion_of, group_rest, group_units, run, section_units, slide_unit, units};

use crate::slide::walk_slide;
use std::alloc::Global;
use xf_markup::{Node, Piece};
use xf_num::{NoMemory, Row};
use xf_text::Fault;
use xs_fields::Condition;
use xs_model::{Concrete, Names};
use xs_template::{
    ByWords, Template, concrete_of, made_from, template_asks, template_of, template_open,
};
use xs_units::{
    Expansion, Known, Take, is_form_known, judge_args, judge_container, judge_group, next_child,
};
use xs_var::text_of;
use xs_words::expand_args;

// A unit at this place misses the condition first.
pub(crate) fn refused(missed: Condition, place: u64) -> Fault
    ensures { result ≡ record { kind = kind_of missed; place = place } }
{
    Fault {
        kind: missed.kind(),
        place,
    }
}

/// Hands on a constraint.
pub(crate) fn take_one<T: Take>(
    made: Concrete,
    known: &mut Known<T>,
) -> Result<Option<Fault>, NoMemory>
    ensures run { IsRun known.new result (take_all T.taken (made ∷ []) known.old) }
    ensures words { known.new.words ≡ known.old.words }
{
    let place = made.place;
    let kind = known.state.take(made)?;
    match kind {
        Some(kind) => Ok(Some(Fault { kind, place })),
        None => Ok(None),
    }
}

/// A constraint that stands for itself.
fn walk_constraint<T: Take>(
    alloc: Global,
    node: &Node,
    known: &mut Known<T>,
) -> Result<Option<Fault>, NoMemory>
    requires { known.old.words ≤ most_words }
    ensures run { IsRun known.new result (run T.taken (constraint_unit node.now ∷ []) known.old) }
    ensures few { known.new.words ≤ most_words }
{
    if !is_form_known(node) {
        return Ok(Some(refused(Condition::Known, node.place)));
    }
    let made = concrete_of(alloc, node)?;
    take_one(made, known)
}

/// Makes the constraint of an `args` that misses nothing.
fn make_args<T: Take>(
    alloc: Global,
    names: &Names,
    template: &Template,
    asked: u64,
    place: u64,
    text: &[u8],
    known: &mut Known<T>,
) -> Result<Option<Fault>, NoMemory>
    requires { known.old.words + length (args_of names.now text.now) ≤ most_words }
    ensures run { IsRun known.new result (take_all T.taken (made_from (λ spots. filled (args_of names.now text.now) asked spots) place template.now ∷ []) (counted known.old (length (args_of names.now text.now)))) }
    ensures few { known.new.words ≤ most_words }
{
    let words = expand_args(alloc, names, text)?;
    let by = ByWords {
        words: words.as_slice(),
        asked: asked as usize,
    };
    let made = made_from(alloc, template, &by, place)?;
    known.words += words.len() as u64;
    take_one(made, known)
}

/// An `args` of a template.
fn walk_args<T: Take>(
    alloc: Global,
    names: &Names,
    node: &Node,
    template: &Template,
    asked: u64,
    more: bool,
    args: &Node,
    known: &mut Known<T>,
) -> Result<Option<Fault>, NoMemory>
    requires words { known.old.words ≤ most_words }
    requires template { template.now ≡ template_of within_words node.now }
    requires asked { asked ≡ asked_of within_words node.now }
    requires more { more ≡ is_open within_words node.now }
    ensures run { IsRun known.new result (run T.taken (args_unit within_words names.now node.now args.now ∷ []) known.old) }
    ensures few { known.new.words ≤ most_words }
{
    let text = text_of(alloc, args)?;
    let missed = judge_args(
        alloc,
        names,
        node,
        args,
        text.as_slice(),
        asked,
        more,
        known.words,
    )?;
    match missed {
        Some(missed) => Ok(Some(refused(missed, args.place))),
        None => {
            make_args(
                alloc,
                names,
                template,
                asked,
                args.place,
                text.as_slice(),
                known,
            )
        }
    }
}

/// Each `args` of a template.
fn walk_all_args<T: Take>(
    alloc: Global,
    names: &Names,
    node: &Node,
    template: &Template,
    asked: u64,
    more: bool,
    pieces: &[Piece],
    known: &mut Known<T>,
) -> Result<Option<Fault>, NoMemory>
    requires words { known.old.words ≤ most_words }
    requires template { template.now ≡ template_of within_words node.now }
    requires asked { asked ≡ asked_of within_words node.now }
    requires more { more ≡ is_open within_words node.now }
    ensures run { IsRun known.new result (run T.taken (map (args_unit within_words names.now node.now) (children_of pieces.now)) known.old) }
    ensures few { known.new.words ≤ most_words }
{
    let mut rest = pieces;
    while let Some((args, behind)) = next_child(rest) {
        let fault = walk_args(alloc, names, node, template, asked, more, args, known)?;
        match fault {
            Some(fault) => return Ok(Some(fault)),
            None => rest = behind,
        }
    }
    Ok(None)
}

/// The template of a group, and each `args` behind it.
fn walk_template<T: Take>(
    alloc: Global,
    names: &Names,
    node: &Node,
    pieces: &[Piece],
    known: &mut Known<T>,
) -> Result<Option<Fault>, NoMemory>
    requires { known.old.words ≤ most_words }
    ensures run { IsRun known.new result (run T.taken (group_rest within_words names.now (node.now ∷ children_of pieces.now)) known.old) }
    ensures few { known.new.words ≤ most_words }
{
    if !is_form_known(node) {
        return Ok(Some(refused(Condition::Known, node.place)));
    }
    let template = template_of(alloc, node)?;
    let asked = template_asks(&template);
    let more = template_open(&template);
    walk_all_args(alloc, names, node, &template, asked, more, pieces, known)
}

/// What stands in a group.
fn walk_group_rest<T: Take>(
    alloc: Global,
    names: &Names,
    pieces: &[Piece],
    known: &mut Known<T>,
) -> Result<Option<Fault>, NoMemory>
    requires { known.old.words ≤ most_words }
    ensures run { IsRun known.new result (run T.taken (group_rest within_words names.now (children_of pieces.now)) known.old) }
    ensures few { known.new.words ≤ most_words }
{
    match next_child(pieces) {
        Some((template, behind)) => walk_template(alloc, names, template, behind, known),
        None => Ok(None),
    }
}

/// A group.
fn walk_group<T: Take>(
    alloc: Global,
    names: &Names,
    node: &Node,
    known: &mut Known<T>,
) -> Result<Option<Fault>, NoMemory>
    requires { known.old.words ≤ most_words }
    ensures run { IsRun known.new result (run T.taken (group_units within_words names.now node.now) known.old) }
    ensures few { known.new.words ≤ most_words }
{
    let missed = judge_group(alloc, node)?;
    match missed {
        Some(missed) => Ok(Some(refused(missed, node.place))),
        None => walk_group_rest(alloc, names, node.pieces.as_slice(), known),
    }
}

/// What a block holds.
#[cycle(walk)]
fn walk_pieces<T: Take>(
    alloc: Global,
    names: &Names,
    pieces: &[Piece],
    known: &mut Known<T>,
) -> Result<Option<Fault>, NoMemory>
    requires { known.old.words ≤ most_words }
    ensures run { IsRun known.new result (run T.taken (flat_map (units within_words names.now) (children_of pieces.now)) known.old) }
    ensures few { known.new.words ≤ most_words }
{
    for piece in pieces {
        let fault = walk_piece(alloc, names, piece, known)?;
        match fault {
            Some(fault) => return Ok(Some(fault)),
            None => {}
        }
    }
    Ok(None)
}

/// An element, or a text, which stands for nothing.
#[cycle(walk)]
fn walk_piece<T: Take>(
    alloc: Global,
    names: &Names,
    piece: &Piece,
    known: &mut Known<T>,
) -> Result<Option<Fault>, NoMemory>
    requires { known.old.words ≤ most_words }
    ensures run { IsRun known.new result (run T.taken (flat_map (units within_words names.now) (piece_nodes piece.now)) known.old) }
    ensures few { known.new.words ≤ most_words }
{
    match piece {
        Piece::Inner(node) => walk_node(alloc, names, node, known),
        Piece::Words(_) => Ok(None),
    }
}

/// A block, and what it holds.
#[cycle(walk)]
fn walk_block<T: Take>(
    alloc: Global,
    names: &Names,
    node: &Node,
    known: &mut Known<T>,
) -> Result<Option<Fault>, NoMemory>
    requires { known.old.words ≤ most_words }
    ensures run { IsRun known.new result (run T.taken (section_units within_words names.now node.now) known.old) }
    ensures few { known.new.words ≤ most_words }
{
    let missed = judge_container(alloc, node)?;
    match missed {
        Some(missed) => Ok(Some(refused(missed, node.place))),
        None => walk_pieces(alloc, names, node.pieces.as_slice(), known),
    }
}

/// A block, a group, a slide or a constraint.
#[cycle(walk)]
fn walk_node<T: Take>(
    alloc: Global,
    names: &Names,
    node: &Node,
    known: &mut Known<T>,
) -> Result<Option<Fault>, NoMemory>
    requires { known.old.words ≤ most_words }
    ensures run { IsRun known.new result (run T.taken (units within_words names.now node.now) known.old) }
    ensures few { known.new.words ≤ most_words }
{
    let name = node.name.as_slice();
    if name == b"block".as_slice() {
        walk_block(alloc, names, node, known)
    } else if name == b"group".as_slice() {
        walk_group(alloc, names, node, known)
    } else if name == b"slide".as_slice() {
        walk_slide(alloc, names, node, known)
    } else {
        walk_constraint(alloc, node, known)
    }
}

/// Hands the constraints of `constraints` on, one after the other, up to the first unit or constraint that is at fault.
pub fn walk_section<T: Take>(
    alloc: Global,
    names: &Names,
    node: &Node,
    known: &mut Known<T>,
) -> Result<Option<Fault>, NoMemory>
    requires { known.old.words ≤ most_words }
    ensures { IsRun known.new result (run T.taken (section_units within_words names.now node.now) known.old) }
{
    walk_block(alloc, names, node, known)
}

/// What `constraints` stands for.
pub fn expand(alloc: Global, node: &Node, names: &Names) -> Result<Expansion, NoMemory>
    ensures { IfOk result (λ expansion. expansion ≡ expansion_of within_words names.now node.now) }
{
    let mut known = Known {
        words: 0,
        state: Row::new(alloc),
    };
    let fault = walk_section(alloc, names, node, &mut known)?;
    let Known { words: _, state } = known;
    Ok(Expansion { made: state, fault })
}
