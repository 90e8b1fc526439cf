ghost use Rattle.std.specs.Prelude.{◌≡◌, IfOk, map};
ghost use Rattle.std.specs.List.{flat_map};
ghost use Rattle.xs_fields.specs.Conditions.{all_meet, first_missed};
ghost use Rattle.xs_notation.specs.Reading.{expr_of, words_in, words_meet};
ghost use Rattle.xs_notation.specs.Terms.{term_meets};

use crate::raw::Raw;
use crate::term::scan_term;
use std::alloc::Global;
use xf_num::{NoMemory, Row};
use xs_fields::{Reading, earlier};
use xs_model::{Expr, Exprs, Names};

/// The expression with each word read, and the first condition that its words miss.
#[cycle(build)]
pub fn build(alloc: Global, raw: &Raw, names: &Names) -> Result<Reading<Expr>, NoMemory>
    ensures missed { IfOk result (λ r. r.missed ≡ first_missed (words_meet names.now raw.now)) }
    ensures value { IfOk result (λ r. r.value ≡ expr_of names.now raw.now) }
{
    match raw {
        Raw::Word(word) => scan_term(alloc, names, word.as_slice()),
        Raw::Call(op, operands) => {
            let reading = build_operands(alloc, operands.as_slice(), names)?;
            Ok(Reading {
                value: Expr::Node(*op, reading.value),
                missed: reading.missed,
            })
        }
    }
}

#[cycle(build)]
fn build_operands(
    alloc: Global,
    operands: &[Raw],
    names: &Names,
) -> Result<Reading<Exprs>, NoMemory>
    ensures missed { IfOk result (λ r. r.missed ≡ first_missed (all_meet (term_meets names.now) (flat_map words_in operands.now))) }
    ensures value { IfOk result (λ r. r.value ≡ map (expr_of names.now) operands.now) }
{
    let mut built = Row::with_room(alloc, operands.len())?;
    let mut missed = None;
    for operand in operands {
        let reading = build(alloc, operand, names)?;
        missed = earlier(missed, reading.missed);
        built.push(reading.value)?;
    }
    Ok(Reading {
        value: built,
        missed,
    })
}
