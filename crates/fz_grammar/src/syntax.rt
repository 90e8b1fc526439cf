//! Whole texts.

ghost use Rattle.std.specs.Prelude.{◌≡◌, ◌⊎◌, [], IfOk, ℕ, Ok, Err};
ghost use Rattle.fz_tokens.specs.Tokens.{tokens_of, tokens_from};
ghost use Rattle.fz_grammar.specs.Levels.{AreLow, words};
ghost use Rattle.fz_grammar.specs.Reading.{Gives, starts, whole_at};
ghost use Rattle.fz_grammar.specs.Items.{rank, IsModel};
ghost use Rattle.fz_grammar.specs.Placing.{AreAt, IsPlaced};
ghost use Rattle.fz_grammar.specs.ItemReaders.{is_no_solve, all_at, model_at};
ghost use Rattle.fz_grammar.specs.declared.tree.Syntax.{Syntax};
ghost use Rattle.fz_grammar.specs.declared.tree.Reading.{Reading as TheReading};
ghost use Rattle.fz_grammar.specs.declared.halt.Halt.TheVariants.{Memory};
ghost use Rattle.fz_grammar.specs.Answers.{Answers, IsTooDeepOr, IsMisfitOr, IsDeepOr};
ghost use Rattle.fz_grammar.specs.Fits.{IsMisfit, IsTooDeep};

use crate::halt::{Fault, Halt};
use crate::head::{left, starts};
use crate::item::{item, solving};
use crate::tree::{Item, Reading, Syntax};
use fz_tokens::{Lexeme, next};
use std::alloc::Global;
use xf_num::Row;

fn rank(item: &Item) -> u8
    ensures { result ≡ rank item.now }
{
    match item {
        Item::Predicate(..) => 0,
        Item::Param(..) => 1,
        Item::Var(..) => 2,
        Item::Array(..) => 2,
        Item::Constraint(..) => 3,
    }
}

fn starts_item(head: Option<Lexeme<'_>>) -> bool
    ensures { result ≡ starts is_no_solve (tokens_from head.entry) }
{
    match head {
        Some(_) => !starts(head, b"solve"),
        None => false,
    }
}

/// The items before the last, how many bytes the text has from the first token of each on, and the rank of the last.
fn placed<'a>(
    alloc: Global,
    head: Option<Lexeme<'a>>,
) -> Result<(Row<Item>, Row<usize>, u8, Option<Lexeme<'a>>), Halt>
    ensures value { Gives (λ x. (x.0, tokens_from x.3)) result (all_at 0 (tokens_from head.entry)) }
    ensures places { IfOk result (λ x. AreAt 0 x.0 x.1 (tokens_from head.entry) x.2 (tokens_from x.3)) }
{
    let mut list = Row::new(alloc);
    let mut places = Row::new(alloc);
    let mut rest = head;
    let mut before: u8 = 0;
    while starts_item(rest) {
        let here = left(rest);
        let (found, after) = item(alloc, before, rest)?;
        before = rank(&found);
        list.push(found)?;
        places.push(here)?;
        rest = after;
    }
    Ok((list, places, before, rest))
}

fn model<'a>(alloc: Global, head: Option<Lexeme<'a>>) -> Result<(Reading, Option<Lexeme<'a>>), Halt>
    ensures value { Gives (λ x. (x.0.syntax, tokens_from x.1)) result (model_at (tokens_from head.entry)) }
    ensures places { IfOk result (λ x. IsPlaced x.0 (tokens_from head.entry) (tokens_from x.1)) }
{
    let (items, places, _, rest) = placed(alloc, head)?;
    let last = left(rest);
    let (solve, rest) = solving(alloc, rest)?;
    let syntax = Syntax { items, solve };
    Ok((
        Reading {
            syntax,
            places,
            last,
        },
        rest,
    ))
}

fn whole(alloc: Global, text: &[u8]) -> Result<Reading, Halt>
    ensures value { Gives (λ x. x.syntax) result (whole_at model_at (tokens_of text.now)) }
    ensures places { IfOk result (λ x. IsPlaced x (tokens_of text.now) []) }
{
    let (found, rest) = model(alloc, next(text))?;
    match rest {
        None => Ok(found),
        Some(token) => Err(Halt::Fault(Fault::Misfit(token.left))),
    }
}

/// The items of a text, and where they stand.
///
/// Ok exactly where the text is in the grammar and opens no more than 200 levels of brackets. `Misfit` at the first
/// token that is none or does not fit, `Deep` at the bracket that opens level 201 where all tokens up to it fit.
pub fn read_syntax(alloc: Global, text: &[u8]) -> Result<Reading, Halt>
    ensures answers { Answers result (tokens_of text.now) }
    ensures only { (m : Syntax) → IsModel m (words (tokens_of text.now)) → IsTooDeepOr m result }
    ensures misfit { (place : ℕ) → IsMisfit IsModel (tokens_of text.now) place → IsMisfitOr place result }
    ensures deep { (place : ℕ) → IsTooDeep IsModel (tokens_of text.now) place → IsDeepOr place result }
    ensures places { IfOk result (λ x. IsPlaced x (tokens_of text.now) []) }
    ensures one { (r : TheReading) → IsModel r.syntax (words (tokens_of text.now)) → AreLow 0 (words (tokens_of text.now)) → IsPlaced r (tokens_of text.now) [] → (result ≡ Ok r) ⊎ (result ≡ Err Memory) }
{
    whole(alloc, text)
}
