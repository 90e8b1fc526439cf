//! Templates, with their texts cut once.

ghost use Rattle.std.specs.Prelude.{◌≡◌, ◌≤◌, ◌++◌, map, length, List, ℕ, IfOk, OnOk};
ghost use Rattle.std.specs.List.{list_any};
ghost use Rattle.xs_var.specs.Elements.{children_of};
ghost use Rattle.xs_template.specs.Concrete.{greatest, made_from, pair_of, part_from, pattern_of, template_asks, template_of, template_open};
ghost use Rattle.xs_template.specs.Template.{asked_by, filled, has_rest, is_rest, within_words};
ghost use Rattle.xs_template.specs.Windows.{window};
ghost use Rattle.xs_template.specs.declared.cutting.Spot.{Spot as TheSpot};

use crate::concrete::{own_part, pairs_of};
use crate::cutting::{Gap, Spot, Spots, asked_by, cut_text};
use crate::filling::fill;
use crate::windows::fill_window;
use std::alloc::Global;
use xf_markup::{Node, Piece};
use xf_num::{NoMemory, Row, Text};
use xs_model::{Concrete, Pair, Pairs, Part, Parts};
use xs_var::text_of;

/// A child of a template, its text cut.
#[derive(Debug, Drop)]
pub struct Pattern {
    pub name: Text,
    pub attrs: Pairs,
    pub spots: Spots,
}

pub type Patterns = Row<Pattern>;

/// A template, its texts cut.
#[derive(Debug, Drop)]
pub struct Template {
    pub name: Text,
    pub attrs: Pairs,
    pub own: Spots,
    pub parts: Patterns,
}

/// What fills the gaps of a text.
pub trait Fill {
    /// The text that some spots become.
    ghost text: { Self → List TheSpot → List ℕ };

    fn fill(&self, alloc: Global, spots: &[Spot]) -> Result<Text, NoMemory>
        ensures { IfOk result (λ made. made ≡ text self.now spots.now) };
}

/// Words, of which so many have a place.
#[derive(Clone, Copy)]
pub struct ByWords<'a> {
    pub words: &'a [Text],
    pub asked: usize,
}

/// A window of a list.
#[derive(Clone, Copy)]
pub struct ByWindow<'a> {
    pub list: &'a [Text],
    pub start: usize,
    pub wide: usize,
}

impl Fill for ByWords<'_> {
    ghost text = { λ by spots. filled by.words.now by.asked spots };

    fn fill(&self, alloc: Global, spots: &[Spot]) -> Result<Text, NoMemory> {
        fill(alloc, spots, self.words, self.asked)
    }
}

impl Fill for ByWindow<'_> {
    ghost text = { λ by spots. filled (window by.wide by.list.now by.start) by.wide spots };

    fn fill(&self, alloc: Global, spots: &[Spot]) -> Result<Text, NoMemory> {
        fill_window(alloc, spots, self.list, self.start, self.wide)
    }
}

fn pattern_of(alloc: Global, child: &Node) -> Result<Pattern, NoMemory>
    ensures { IfOk result (λ pattern. pattern ≡ pattern_of within_words child.now) }
{
    let name = child.name.copy(alloc)?;
    let attrs = pairs_of(alloc, child.attrs.as_slice())?;
    let text = text_of(alloc, child)?;
    let spots = cut_text(alloc, text.as_slice())?;
    Ok(Pattern { name, attrs, spots })
}

fn patterns_of(alloc: Global, pieces: &[Piece]) -> Result<Patterns, NoMemory>
    ensures { IfOk result (λ patterns. patterns ≡ map (pattern_of within_words) (children_of pieces.now)) }
{
    let mut patterns = Row::new(alloc);
    for piece in pieces {
        if let Piece::Inner(child) = piece {
            let pattern = pattern_of(alloc, child)?;
            patterns.push(pattern)?;
        }
    }
    Ok(patterns)
}

/// The template that an element is.
pub fn template_of(alloc: Global, node: &Node) -> Result<Template, NoMemory>
    ensures { IfOk result (λ template. template ≡ template_of within_words node.now) }
{
    let name = node.name.copy(alloc)?;
    let attrs = pairs_of(alloc, node.attrs.as_slice())?;
    let text = text_of(alloc, node)?;
    let own = cut_text(alloc, text.as_slice())?;
    let parts = patterns_of(alloc, node.pieces.as_slice())?;
    Ok(Template {
        name,
        attrs,
        own,
        parts,
    })
}

fn copied_pairs(alloc: Global, pairs: &[Pair]) -> Result<Pairs, NoMemory>
    ensures { IfOk result (λ copy. copy ≡ pairs.now) }
{
    let mut copy = Row::new(alloc);
    for pair in pairs {
        let name = pair.name.copy(alloc)?;
        let value = pair.value.copy(alloc)?;
        copy.push(Pair { name, value })?;
    }
    Ok(copy)
}

fn part_from<F: Fill>(alloc: Global, pattern: &Pattern, by: &F) -> Result<Part, NoMemory>
    ensures { IfOk result (λ part. part ≡ part_from (F.text by.now) pattern.now) }
{
    let name = pattern.name.copy(alloc)?;
    let attrs = copied_pairs(alloc, pattern.attrs.as_slice())?;
    let text = by.fill(alloc, pattern.spots.as_slice())?;
    Ok(Part { name, attrs, text })
}

fn push_parts<F: Fill>(
    alloc: Global,
    patterns: &[Pattern],
    by: &F,
    parts: &mut Parts,
) -> Result<(), NoMemory>
    ensures { OnOk result (parts.new ≡ parts.old ++ map (part_from (F.text by.now)) patterns.now) }
{
    for pattern in patterns {
        let part = part_from(alloc, pattern, by)?;
        parts.push(part)?;
    }
    Ok(())
}

/// The constraint at a place that a template stands for, its gaps filled.
pub fn made_from<F: Fill>(
    alloc: Global,
    template: &Template,
    by: &F,
    place: u64,
) -> Result<Concrete, NoMemory>
    ensures { IfOk result (λ made. made ≡ made_from (F.text by.now) place template.now) }
{
    let name = template.name.copy(alloc)?;
    let attrs = copied_pairs(alloc, template.attrs.as_slice())?;
    let text = by.fill(alloc, template.own.as_slice())?;
    let mut parts = own_part(alloc, text)?;
    push_parts(alloc, template.parts.as_slice(), by, &mut parts)?;
    Ok(Concrete {
        name,
        attrs,
        parts,
        place,
    })
}

/// How many words a template asks for by place.
pub fn template_asks(template: &Template) -> u64
    ensures value { result ≡ template_asks template.now }
    ensures most { result ≤ 4294967296 }
{
    let mut asked = asked_by(template.own.as_slice());
    for part in template.parts.as_slice() {
        asked = asked.max(asked_by(part.spots.as_slice()));
    }
    asked
}

fn is_rest(spot: &Spot) -> bool
    ensures { result ≡ is_rest spot.now }
{
    matches!(spot, Spot::Open(Gap::Rest))
}

fn has_rest(spots: &[Spot]) -> bool
    ensures { result ≡ has_rest spots.now }
{
    for spot in spots {
        if is_rest(spot) {
            return true;
        }
    }
    false
}

fn have_rest(patterns: &[Pattern]) -> bool
    ensures { result ≡ list_any has_rest (map (λ p. p.spots) patterns.now) }
{
    for pattern in patterns {
        if has_rest(pattern.spots.as_slice()) {
            return true;
        }
    }
    false
}

/// Whether a template has a gap for all words behind those that have a place.
pub fn template_open(template: &Template) -> bool
    ensures { result ≡ template_open template.now }
{
    has_rest(template.own.as_slice()) || have_rest(template.parts.as_slice())
}
