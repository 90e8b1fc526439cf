//! `mdd` as a whole.

ghost use Rattle.std.specs.Prelude.{◌≡◌, ◌+◌, ◌*◌, ◌<◌, ◌≤◌, ℕ, length, nat_le, IfOk};
ghost use Rattle.std.specs.List.{AllByRecursion};
ghost use Rattle.xs_automata.specs.Ends.{has_ends, leaf_of, root_of, told};
ghost use Rattle.xs_automata.specs.Mdd.{both_denote, both_in, both_meet, diagram_meets, diagram_of, mdd_meets, mdd_of};
ghost use Rattle.xs_fields.specs.Conditions.{IsOrMemory, answer, answer_on, first_missed};
ghost use Rattle.xs_model.specs.Accepted.{IsFormed, items_of};
ghost use Rattle.xs_model.specs.Outline.{variables_in};
ghost use Rattle.xs_model.specs.declared.instance.Constraint.TheVariants.{Mdd};
ghost use Rattle.xs_tables.specs.Tables.{sizes_meet};

use crate::ends::{leaf_of, root_of};
use crate::states::States;
use crate::transitions::scan_transitions;
use std::alloc::Global;
use xf_num::Vars;
use xf_text::{FieldStop, Kind};
use xs_fields::{earlier, scan_vars};
use xs_model::{Concrete, Constraint, Edges, Names, Part};
use xs_parts::answered;
use xs_tables::{judge_sizes, two_texts};

/// Whether a list and transitions have no more items than are left.
fn are_few(list: &Vars, edges: &Edges, left: u64) -> bool
    ensures { result ≡ nat_le (length list.now + 3 * length edges.now) left }
{
    list.len() as u128 + 3 * edges.len() as u128 <= u128::from(left)
}

fn told(state: Option<u32>) -> u32
    ensures { result ≡ told state }
{
    match state {
        Some(state) => state,
        None => 0,
    }
}

// The constraint of a list and transitions between so many states, where their items are few and there are a root and a
// leaf.
fn read_ends(
    alloc: Global,
    list: Vars,
    edges: Edges,
    count: usize,
    few: bool,
) -> Result<Constraint, FieldStop>
    requires from { AllByRecursion (λ e. e.from < count) edges }
    requires to { AllByRecursion (λ e. e.to < count) edges }
    ensures { (items left : ℕ) → few ≡ nat_le items left → IsOrMemory result (answer_on (first_missed (sizes_meet items left (has_ends edges))) (Mdd list edges (told (root_of edges)) (told (leaf_of edges)))) }
{
    if !few {
        return Err(FieldStop::Refused(Kind::Many));
    }
    let root = root_of(alloc, edges.as_slice(), count)?;
    let leaf = leaf_of(alloc, edges.as_slice(), count)?;
    let fits = root.is_some() && leaf.is_some();
    answered(
        judge_sizes(few, fits),
        Constraint::Mdd {
            list,
            edges,
            root: told(root),
            leaf: told(leaf),
        },
    )
}

// The constraint of the two texts, or the kind of fault of the first condition that they miss.
fn read_diagram(
    alloc: Global,
    list: &[u8],
    transitions: &[u8],
    names: &Names,
    left: u64,
) -> Result<Constraint, FieldStop>
    ensures { IsOrMemory result (answer (diagram_meets names.now left list.now transitions.now) (diagram_of names.now list.now transitions.now)) }
{
    let mut states = States::new(alloc);
    let list = scan_vars(alloc, list, names, left)?;
    let edges = scan_transitions(alloc, transitions, &mut states, left)?;
    match earlier(list.missed, edges.missed) {
        Some(missed) => Err(FieldStop::Refused(missed.kind())),
        None => {
            let few = are_few(&list.value, &edges.value, left);
            read_ends(alloc, list.value, edges.value, states.count(), few)
        }
    }
}

// The constraint, or the kind of fault of the first condition that is missed.
fn read_parts(
    alloc: Global,
    parts: &[Part],
    names: &Names,
    left: u64,
) -> Result<Constraint, FieldStop>
    ensures { IsOrMemory result (answer (both_meet names.now left (both_in parts.now)) (both_denote names.now (both_in parts.now))) }
{
    match two_texts(parts, b"list", b"transitions") {
        Some((list, transitions)) => read_diagram(alloc, list, transitions, names, left),
        None => Err(FieldStop::Refused(Kind::Shape)),
    }
}

/// The constraint of an `mdd`, a `list` and `transitions`, where at most `left` items may still come: one for each variable
/// and three for each transition. Else the kind of fault of the first condition that it misses, or want of memory.
pub fn read_mdd(
    alloc: Global,
    c: &Concrete,
    names: &Names,
    left: u64,
) -> Result<Constraint, FieldStop>
    ensures value { IsOrMemory result (answer (mdd_meets names.now left c.now) (mdd_of names.now c.now)) }
    ensures formed { IfOk result (λ x. IsFormed (variables_in names.now) x) }
    ensures few { IfOk result (λ x. items_of x ≤ left) }
{
    read_parts(alloc, c.parts.as_slice(), names, left)
}
