ghost use Rattle.std.specs.Prelude.{◌≡◌, ◌≤◌, None, Some, IfOk};
ghost use Rattle.xs_model.specs.Formed.{IsFormedExpr, nodes};
ghost use Rattle.xs_fields.specs.Conditions.{answer, first_missed, IsOrMemory};
ghost use Rattle.xs_model.specs.Outline.{variables_in};
ghost use Rattle.xs_notation.specs.Reading.{counted_expr_meets, expr_at, expr_meets, expr_of, raw_meets, tree_meets};
ghost use Rattle.xs_notation.specs.Parse.{parse};
ghost use Rattle.xs_expr.specs.Tokens.{tokens_of};

use crate::build::build;
use crate::count::count_nodes;
use crate::form::judge_form;
use crate::nesting::judge_nesting;
use crate::raw::Raw;
use crate::reader::read_raw;
use std::alloc::Global;
use xf_num::NoMemory;
use xf_text::FieldStop;
use xs_fields::{Condition, Reading, earlier};
use xs_model::{Expr, Names};

/// The expression whose words are read, and the first condition that it misses.
fn scan_tree(alloc: Global, raw: &Raw, names: &Names) -> Result<Reading<Expr>, NoMemory>
    ensures missed { IfOk result (λ r. r.missed ≡ first_missed (tree_meets names.now raw.now)) }
    ensures value { IfOk result (λ r. r.value ≡ expr_of names.now raw.now) }
{
    let words = build(alloc, raw, names)?;
    Ok(Reading {
        value: words.value,
        missed: earlier(judge_form(raw), words.missed),
    })
}

/// A reading of no expression, for what is missed.
fn without(missed: Condition) -> Reading<Expr>
    ensures { result.missed ≡ Some missed }
{
    Reading {
        value: Expr::Int(0),
        missed: Some(missed),
    }
}

/// The expression of a text whose depth is within the limit, and the first condition that its tokens miss.
fn scan_tokens(alloc: Global, text: &[u8], names: &Names) -> Result<Reading<Expr>, NoMemory>
    ensures missed { IfOk result (λ r. r.missed ≡ first_missed (raw_meets names.now (parse (tokens_of text.now)))) }
    ensures value { IfOk result (λ r. r.missed ≡ None → r.value ≡ expr_at names.now text.now) }
    ensures formed { IfOk result (λ r. r.missed ≡ None → IsFormedExpr (variables_in names.now) r.value) }
{
    let raw = read_raw(alloc, text)?;
    match raw {
        Some(raw) => {
            let reading = scan_tree(alloc, &raw, names)?;
            Ok(reading)
        }
        None => Ok(without(Condition::Spelling)),
    }
}

/// The expression of a text, and the first condition that the text misses but the count of its nodes.
fn scan_text(alloc: Global, text: &[u8], names: &Names) -> Result<Reading<Expr>, NoMemory>
    ensures missed { IfOk result (λ r. r.missed ≡ first_missed (expr_meets names.now text.now)) }
    ensures value { IfOk result (λ r. r.missed ≡ None → r.value ≡ expr_at names.now text.now) }
    ensures formed { IfOk result (λ r. r.missed ≡ None → IsFormedExpr (variables_in names.now) r.value) }
{
    match judge_nesting(text) {
        Some(missed) => Ok(without(missed)),
        None => {
            let reading = scan_tokens(alloc, text, names)?;
            Ok(reading)
        }
    }
}

/// The expression that a text denotes, and the first condition that the text misses where at most `left` nodes are
/// allowed: `Nesting` where more than 200 `(` are open at once, `Spelling` where it is no integer, no direct variable
/// word and no operator with the operands that it takes, `Magnitude` where an integer is above 2^126 - 1, `Naming` where
/// a word denotes no variable, and `Counting` where there are more nodes.
///
/// Where none is missed, the expression is well formed and no set, its variables are declared, its integers are at most
/// 2^126 - 1, and it has at most `left` nodes.
pub fn scan_expr(
    alloc: Global,
    text: &[u8],
    names: &Names,
    left: u64,
) -> Result<Reading<Expr>, NoMemory>
    ensures missed { IfOk result (λ r. r.missed ≡ first_missed (counted_expr_meets names.now text.now left)) }
    ensures value { IfOk result (λ r. r.missed ≡ None → r.value ≡ expr_at names.now text.now) }
    ensures formed { IfOk result (λ r. r.missed ≡ None → IsFormedExpr (variables_in names.now) r.value) }
    ensures few { IfOk result (λ r. r.missed ≡ None → nodes r.value ≤ left) }
{
    let reading = scan_text(alloc, text, names)?;
    match reading.missed {
        Some(_) => Ok(reading),
        None => match count_nodes(text, left) {
            Some(_) => Ok(reading),
            None => Ok(without(Condition::Counting)),
        },
    }
}

/// The expression that a text denotes: an integer, a direct variable word, or an operator's name with its operands in
/// parentheses and commas between them. Whitespace is free between these.
///
/// More than 200 `(` open at once are F7; a text that is spelt otherwise, an operator with other operands than it takes,
/// and an exponent of `pow` that is no integer from 1 to 64 are F4; a magnitude above 2^126 - 1 is F10; a word that
/// denotes no variable is F5: the first of these over the whole text. The expression is well formed and no set, its
/// variables are declared, and its integers are at most 2^126 - 1.
pub fn read_expr(alloc: Global, text: &[u8], names: &Names) -> Result<Expr, FieldStop>
    ensures value { IsOrMemory result (answer (expr_meets names.now text.now) (expr_at names.now text.now)) }
    ensures formed { IfOk result (IsFormedExpr (variables_in names.now)) }
{
    let reading = scan_text(alloc, text, names)?;
    match reading.missed {
        Some(missed) => Err(FieldStop::Refused(missed.kind())),
        None => Ok(reading.value),
    }
}
