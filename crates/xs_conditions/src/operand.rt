//! The operands of a condition.

ghost use Rattle.std.specs.Prelude.{◌≡◌, ◌++◌, None, Some, IfOk};
ghost use Rattle.std.specs.List.{flat_map};
ghost use Rattle.std.specs.Result.{result_err};
ghost use Rattle.xs_conditions.specs.Conditions.{among_meets, among_of, member_meets, member_of, members_in, operand_meets, operand_of, related, set_in};
ghost use Rattle.xs_conditions.specs.Ranges.{bounds_in, range_in, range_meets};
ghost use Rattle.xs_conditions.specs.Single.{single_meets, single_of};
ghost use Rattle.xs_fields.specs.Conditions.{all_meet, earlier_of, first_missed};
ghost use Rattle.xs_fields.specs.Sizes.{value_list};
ghost use Rattle.xs_fields.specs.Words.{is_byte, parts};

use crate::operator::{Relation, listed, related, spanned};
use crate::range::read_range;
use crate::single::scan_single;
use crate::spelling::between;
use std::alloc::Global;
use xf_num::{Ints, NoMemory, Row};
use xs_fields::{Condition, Reading, cut, earlier, read_integer};
use xs_model::{Cond, Names, Term};

/// What stands for a condition that is not spelt right, or not small.
pub(crate) fn none_for(condition: Condition) -> Reading<Cond>
    ensures { result.missed ≡ Some condition }
{
    Reading {
        value: Cond::Eq(Term::Int(0)),
        missed: Some(condition),
    }
}

/// Appends the integer that a word spells. What is missed with it.
fn take_member(
    set: &mut Ints,
    missed: Option<Condition>,
    member: Result<i128, Condition>,
) -> Result<Option<Condition>, NoMemory>
    ensures missed { IfOk result (λ m. m ≡ earlier_of missed (result_err member)) }
    ensures value { IfOk result (λ _. set.new ≡ set.old ++ value_list member) }
{
    match member {
        Ok(value) => {
            set.push(value)?;
            Ok(earlier(missed, None))
        }
        Err(condition) => Ok(earlier(missed, Some(condition))),
    }
}

/// The integers between commas, and the first condition that they miss.
fn scan_members(alloc: Global, inner: &[u8]) -> Result<Reading<Ints>, NoMemory>
    ensures missed { IfOk result (λ r. r.missed ≡ first_missed (all_meet member_meets (parts (is_byte 44) inner.now))) }
    ensures value { IfOk result (λ r. r.value ≡ flat_map member_of (parts (is_byte 44) inner.now)) }
{
    let mut set = Row::new(alloc);
    let mut missed = None;
    let mut rest = Some(inner);
    while let Some(bytes) = rest {
        let (word, more) = cut(bytes, b',');
        missed = take_member(&mut set, missed, read_integer(word))?;
        rest = more;
    }
    Ok(Reading { value: set, missed })
}

/// The members of a set, and the first condition that they miss.
fn scan_set(alloc: Global, inner: &[u8]) -> Result<Reading<Ints>, NoMemory>
    ensures missed { IfOk result (λ r. r.missed ≡ first_missed (all_meet member_meets (members_in inner.now))) }
    ensures value { IfOk result (λ r. r.value ≡ flat_map member_of (members_in inner.now)) }
{
    if inner.is_empty() {
        Ok(Reading {
            value: Row::new(alloc),
            missed: None,
        })
    } else {
        scan_members(alloc, inner)
    }
}

/// The condition on a member of a range, and the first condition of a unit that the range misses.
fn scan_range(inside: bool, operand: &[u8]) -> Reading<Cond>
    ensures missed { result.missed ≡ first_missed (range_meets operand.now) }
    ensures value { result.missed ≡ None → result.value ≡ among_of inside None operand.now }
{
    match read_range(operand) {
        Ok(span) => Reading {
            value: spanned(inside, span),
            missed: None,
        },
        Err(condition) => none_for(condition),
    }
}

/// The same of a set or a range.
fn scan_among(alloc: Global, inside: bool, operand: &[u8]) -> Result<Reading<Cond>, NoMemory>
    ensures missed { IfOk result (λ r. r.missed ≡ first_missed (among_meets (set_in operand.now) operand.now)) }
    ensures value { IfOk result (λ r. r.missed ≡ None → r.value ≡ among_of inside (set_in operand.now) operand.now) }
{
    match between(operand, b'{', b'}') {
        Some(inner) => {
            let set = scan_set(alloc, inner)?;
            Ok(Reading {
                value: listed(inside, set.value),
                missed: set.missed,
            })
        }
        None => Ok(scan_range(inside, operand)),
    }
}

/// The condition to stand so to a term, and the first condition of a unit that the term misses.
fn scan_related(
    alloc: Global,
    relation: Relation,
    operand: &[u8],
    names: &Names,
) -> Result<Reading<Cond>, NoMemory>
    ensures missed { IfOk result (λ r. r.missed ≡ first_missed (single_meets names.now operand.now)) }
    ensures value { IfOk result (λ r. r.missed ≡ None → r.value ≡ related relation (single_of names.now operand.now)) }
{
    let term = scan_single(alloc, names, operand)?;
    Ok(Reading {
        value: related(relation, term.value),
        missed: term.missed,
    })
}

/// The condition of an operand whose operator is told, and the first condition of a unit that they miss.
pub(crate) fn scan_operand(
    alloc: Global,
    relation: Option<Relation>,
    inside: Option<bool>,
    operand: &[u8],
    names: &Names,
) -> Result<Reading<Cond>, NoMemory>
    ensures missed { IfOk result (λ r. r.missed ≡ first_missed (operand_meets names.now relation inside operand.now)) }
    ensures value { IfOk result (λ r. r.missed ≡ None → r.value ≡ operand_of names.now relation inside operand.now) }
{
    match (relation, inside) {
        (Some(relation), _) => scan_related(alloc, relation, operand, names),
        (None, Some(inside)) => scan_among(alloc, inside, operand),
        (None, None) => Ok(none_for(Condition::Spelling)),
    }
}
