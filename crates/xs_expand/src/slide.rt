//! Slides.

ghost use Rattle.std.specs.Prelude.{◌≡◌, ◌≤◌, ◌<◌, ◌+◌, ◌∷◌, ◌&&◌, [], length, map, nat_abs, true, false, codes, Some};
ghost use Rattle.std.specs.Str.Parse.{signed_digits_value};
ghost use Rattle.xs_fields.specs.Conditions.{earlier_of};
ghost use Rattle.xs_fields.specs.Integers.{is_small};
ghost use Rattle.xs_fields.specs.declared.condition.Condition.TheVariants.{Spelling};
ghost use Rattle.xs_template.specs.Concrete.{asked_of, is_open, made_from, template_of};
ghost use Rattle.xs_template.specs.Template.{filled, most_words, within_words};
ghost use Rattle.xs_template.specs.Windows.{made_at, windows};
ghost use Rattle.xs_units.specs.Units.{IsRun, Makes, counted, is_circular, offset_text, run, slide_meets, slide_unit, slide_unit_of, take_all};
ghost use Rattle.xs_var.specs.Elements.{text_in, value_in};
ghost use Rattle.xs_var.specs.Variable.{spelling_meets};
ghost use Rattle.xs_words.specs.Args.{args_of, is_count};

use crate::walk::{refused, take_one};
use std::alloc::Global;
use xf_markup::Node;
use xf_num::{NoMemory, Text};
use xf_text::Fault;
use xs_fields::{Condition, small_value};
use xs_model::Names;
use xs_template::{
    ByWindow, Template, made_from, next_start, room, template_asks, template_of, template_open,
};
use xs_units::{
    Known, Take, is_circular, judge_pair, judge_slide, list_in, offset_text, template_in,
};
use xs_var::{attribute, text_of};
use xs_words::expand_args;

/// The value of an offset.
fn offset_value(offset: &[u8]) -> u128
    requires spelt { is_count offset.now ≡ true }
    requires small { is_small (signed_digits_value 10 offset.now) ≡ true }
    ensures value { result ≡ nat_abs (signed_digits_value 10 offset.now) }
    ensures some { 0 < result }
{
    match small_value(offset) {
        Some(value) => value.unsigned_abs(),
        None => 1,
    }
}

/// Hands on the constraint of a template over one window.
fn take_window<T: Take>(
    alloc: Global,
    template: &Template,
    list: &[Text],
    start: u64,
    asked: u64,
    place: u64,
    known: &mut Known<T>,
) -> Result<Option<Fault>, NoMemory>
    ensures run { IsRun known.new result (take_all T.taken (made_at (λ w. made_from (λ spots. filled w asked spots) place template.now) asked list.now start ∷ []) known.old) }
    ensures words { known.new.words ≡ known.old.words }
{
    let by = ByWindow {
        list,
        start: start as usize,
        wide: asked as usize,
    };
    let made = made_from(alloc, template, &by, place)?;
    take_one(made, known)
}

/// Hands on the constraints of a template over each window of a list.
fn push_windows<T: Take>(
    alloc: Global,
    template: &Template,
    list: &[Text],
    circular: bool,
    offset: u128,
    asked: u64,
    place: u64,
    known: &mut Known<T>,
) -> Result<Option<Fault>, NoMemory>
    requires offset { 0 < offset }
    requires few { length list.now ≤ most_words }
    ensures run { IsRun known.new result (take_all T.taken (map (λ w. made_from (λ spots. filled w asked spots) place template.now) (windows circular offset asked list.now)) known.old) }
    ensures words { known.new.words ≡ known.old.words }
{
    let end = room(circular, asked, list.len() as u64);
    let mut start = 0;
    while start < end {
        let fault = take_window(alloc, template, list, start, asked, place, known)?;
        match fault {
            Some(fault) => return Ok(Some(fault)),
            None => start = next_start(start, offset, end),
        }
    }
    Ok(None)
}

/// Makes the constraints of a slide that misses nothing.
fn make_slide<T: Take>(
    alloc: Global,
    names: &Names,
    template: &Template,
    text: &[u8],
    circular: bool,
    offset: &[u8],
    asked: u64,
    place: u64,
    known: &mut Known<T>,
) -> Result<Option<Fault>, NoMemory>
    requires spelt { is_count offset.now ≡ true }
    requires small { is_small (signed_digits_value 10 offset.now) ≡ true }
    requires room { known.old.words + length (args_of names.now text.now) ≤ most_words }
    ensures run { IsRun known.new result (take_all T.taken (map (λ w. made_from (λ spots. filled w asked spots) place template.now) (windows circular (nat_abs (signed_digits_value 10 offset.now)) asked (args_of names.now text.now))) (counted known.old (length (args_of names.now text.now)))) }
    ensures few { known.new.words ≤ most_words }
{
    let list = expand_args(alloc, names, text)?;
    let offset = offset_value(offset);
    known.words += list.len() as u64;
    push_windows(
        alloc,
        template,
        list.as_slice(),
        circular,
        offset,
        asked,
        place,
        known,
    )
}

/// A slide with its texts.
fn walk_texts<T: Take>(
    alloc: Global,
    names: &Names,
    node: &Node,
    list: &Node,
    template: &Node,
    cut: &Template,
    circular: bool,
    asked: u64,
    more: bool,
    offset: &[u8],
    text: &[u8],
    known: &mut Known<T>,
) -> Result<Option<Fault>, NoMemory>
    requires words { known.old.words ≤ most_words }
    requires text { text.now ≡ text_in list.now.pieces }
    requires offset { offset.now ≡ offset_text (value_in (codes "offset") list.now.attrs) }
    requires cut { cut.now ≡ template_of within_words template.now }
    requires asked { asked ≡ asked_of within_words template.now }
    requires more { more ≡ is_open within_words template.now }
    ensures run { IsRun known.new result (run T.taken (slide_unit_of within_words names.now node.now circular (Some list.now) (Some template.now) ∷ []) known.old) }
    ensures few { known.new.words ≤ most_words }
{
    let missed = judge_pair(
        alloc,
        names,
        node,
        circular,
        asked,
        more,
        offset,
        text,
        known.words,
    )?;
    match missed {
        Some(missed) => Ok(Some(refused(missed, node.place))),
        None => {
            make_slide(
                alloc, names, cut, text, circular, offset, asked, node.place, known,
            )
        }
    }
}

/// A slide that has a list and a template.
fn walk_pair<T: Take>(
    alloc: Global,
    names: &Names,
    node: &Node,
    list: &Node,
    template: &Node,
    known: &mut Known<T>,
) -> Result<Option<Fault>, NoMemory>
    requires { known.old.words ≤ most_words }
    ensures run { IsRun known.new result (run T.taken (slide_unit_of within_words names.now node.now (is_circular (value_in (codes "circular") node.now.attrs)) (Some list.now) (Some template.now) ∷ []) known.old) }
    ensures few { known.new.words ≤ most_words }
{
    let text = text_of(alloc, list)?;
    let cut = template_of(alloc, template)?;
    let asked = template_asks(&cut);
    let more = template_open(&cut);
    let circular = is_circular(attribute(node.attrs.as_slice(), b"circular"));
    let offset = offset_text(attribute(list.attrs.as_slice(), b"offset"));
    walk_texts(
        alloc,
        names,
        node,
        list,
        template,
        &cut,
        circular,
        asked,
        more,
        offset,
        text.as_slice(),
        known,
    )
}

/// The condition that is asked first of a missed one and `Spelling`.
fn or_spelling(missed: Option<Condition>) -> Condition
    ensures { Some result ≡ earlier_of missed (Some Spelling) }
{
    match missed {
        Some(Condition::Known) => Condition::Known,
        Some(Condition::Nesting) => Condition::Nesting,
        _ => Condition::Spelling,
    }
}

/// A slide without a list or a template.
fn walk_alone<T: Take>(
    alloc: Global,
    node: &Node,
    known: &mut Known<T>,
) -> Result<Option<Fault>, NoMemory>
    ensures run { IsRun known.new result (run T.taken (Makes node.now.place (λ before k. slide_meets node.now k && spelling_meets false k) 0 [] ∷ []) known.old) }
    ensures same { known.new ≡ known.old }
{
    let own = judge_slide(alloc, node)?;
    Ok(Some(refused(or_spelling(own), node.place)))
}

/// A slide.
pub(crate) fn walk_slide<T: Take>(
    alloc: Global,
    names: &Names,
    node: &Node,
    known: &mut Known<T>,
) -> Result<Option<Fault>, NoMemory>
    requires { known.old.words ≤ most_words }
    ensures run { IsRun known.new result (run T.taken (slide_unit within_words names.now node.now ∷ []) known.old) }
    ensures few { known.new.words ≤ most_words }
{
    let pieces = node.pieces.as_slice();
    match (list_in(pieces), template_in(pieces)) {
        (Some(list), Some(template)) => walk_pair(alloc, names, node, list, template, known),
        _ => walk_alone(alloc, node, known),
    }
}
