//! Whether automata accept: the states that are reached are flagged, value after value.

ghost use Rattle.std.specs.Prelude.{◌≡◌, ◌&&◌, ◌↔◌, ◌<◌, ◌≤◌, ◌∷◌, [], ◌++◌, ◌^◌, false, length, max, not, replicate, take, true};
ghost use Rattle.std.specs.List.{AllByRecursion, list_any};
ghost use Rattle.std.specs.Ordering.{int_eq};
ghost use Rattle.xs_forms.specs.Room.{IsAsLong, flags_in, past_states};
ghost use Rattle.xs_model.specs.Fitting.{ends_of};
ghost use Rattle.xs_model.specs.Instance.{values};
ghost use Rattle.xs_model.specs.Language.{IsAccepting, Spells};
ghost use Rattle.xs_model.specs.Value.{at};
ghost use Rattle.xs_paths.specs.Flags.{end_flags, flag, flags_after, marked, start_flags};

use xs_forms::Scratch;
use xs_model::Edge;
use xs_tables::value_of;

/// One more than the greatest of the states of transitions, a start and final states.
fn states_in(edges: &[Edge], start: u32, finals: &[u32]) -> u64
    ensures value { result ≡ past_states (ends_of edges.now ++ start ∷ finals.now) }
    ensures few { result ≤ 2 ^ 32 }
{
    past_finals(past_edges(edges).max(start as u64 + 1), finals)
}

fn past_edges(edges: &[Edge]) -> u64
    ensures value { result ≡ past_states (ends_of edges.now) }
    ensures few { result ≤ 2 ^ 32 }
{
    let mut past: u64 = 0;
    for edge in edges {
        past = past.max(edge.from as u64 + 1).max(edge.to as u64 + 1);
    }
    past
}

// One more than the greatest of states, at least so much.
fn past_finals(least: u64, states: &[u32]) -> u64
    requires { least ≤ 2 ^ 32 }
    ensures value { result ≡ max least (past_states states.now) }
    ensures few { result ≤ 2 ^ 32 }
{
    let mut past = least;
    for state in states {
        past = past.max(*state as u64 + 1);
    }
    past
}

/// Takes the flags of the first `count` states from the first or the second list.
fn clear(scratch: &mut Scratch, second: bool, count: u64)
    requires long { count ≤ length (flags_in second scratch.old) }
    requires few { count ≤ 2 ^ 32 }
    ensures value { take count (flags_in second scratch.new) ≡ replicate count false }
    ensures other { flags_in (not second) scratch.new ≡ flags_in (not second) scratch.old }
    ensures long { IsAsLong scratch.old scratch.new }
{
    for state in 0..count {
        scratch.mark(second, state as u32, false);
    }
}

/// Whether a transition reads the value of a variable from a state that is flagged in the `second` list or the first.
fn is_read(scratch: &Scratch, second: bool, edge: &Edge, a: &[i128], variable: u32) -> bool
    requires from { edge.now.from < length (flags_in second scratch.now) }
    requires valued { variable < length a.now }
    ensures { result ≡ (flag (flags_in second scratch.now) edge.now.from && int_eq (at a.now variable) edge.now.value) }
{
    scratch.marked(second, edge.from) && value_of(a, variable) == edge.value
}

/// Flags in the other list the target of a transition that is so read.
fn pass(scratch: &mut Scratch, second: bool, count: u64, edge: &Edge, a: &[i128], variable: u32)
    requires from { edge.now.from < count }
    requires to { edge.now.to < count }
    requires here { count ≤ length (flags_in second scratch.old) }
    requires there { count ≤ length (flags_in (not second) scratch.old) }
    requires valued { variable < length a.now }
    ensures value { take count (flags_in (not second) scratch.new) ≡ marked (take count (flags_in second scratch.old)) (at a.now variable) (take count (flags_in (not second) scratch.old)) edge.now }
    ensures other { flags_in second scratch.new ≡ flags_in second scratch.old }
    ensures long { IsAsLong scratch.old scratch.new }
{
    let read = is_read(scratch, second, edge, a, variable);
    if read {
        scratch.mark(!second, edge.to, true);
    }
}

/// Flags in the one list the states that the value of a variable leads to from those that are flagged in the other, the
/// `second` one or the first.
fn follow(
    scratch: &mut Scratch,
    second: bool,
    count: u64,
    edges: &[Edge],
    a: &[i128],
    variable: u32,
)
    requires valued { variable < length a.now }
    requires from { AllByRecursion (λ e. e.from < count) edges.now }
    requires to { AllByRecursion (λ e. e.to < count) edges.now }
    requires first { count ≤ length scratch.old.first }
    requires second { count ≤ length scratch.old.second }
    requires few { count ≤ 2 ^ 32 }
    ensures value { take count (flags_in (not second) scratch.new) ≡ flags_after count edges.now (take count (flags_in second scratch.old)) (at a.now variable) }
    ensures long { IsAsLong scratch.old scratch.new }
{
    clear(scratch, !second, count);
    for edge in edges {
        pass(scratch, second, count, edge, a, variable);
    }
}

/// Flags the start alone, in the first list.
fn begin(scratch: &mut Scratch, count: u64, start: u32)
    requires start { start < count }
    requires first { count ≤ length scratch.old.first }
    requires few { count ≤ 2 ^ 32 }
    ensures value { take count scratch.new.first ≡ start_flags count start }
    ensures long { IsAsLong scratch.old scratch.new }
{
    clear(scratch, false, count);
    scratch.mark(false, start, true);
}

/// Flags the states that the values of a list lead to from the start. Whether it is in the second list.
fn run(
    scratch: &mut Scratch,
    count: u64,
    edges: &[Edge],
    start: u32,
    list: &[u32],
    a: &[i128],
) -> bool
    requires from { AllByRecursion (λ e. e.from < count) edges.now }
    requires to { AllByRecursion (λ e. e.to < count) edges.now }
    requires start { start < count }
    requires valued { AllByRecursion (λ v. v < length a.now) list.now }
    requires first { count ≤ length scratch.old.first }
    requires second { count ≤ length scratch.old.second }
    requires few { count ≤ 2 ^ 32 }
    ensures value { take count (flags_in result scratch.new) ≡ end_flags count edges.now start (values a.now list.now) }
    ensures long { IsAsLong scratch.old scratch.new }
{
    begin(scratch, count, start);
    let mut second = false;
    for variable in list {
        follow(scratch, second, count, edges, a, *variable);
        second = !second;
    }
    second
}

/// Whether some of these states is flagged, in the second list or the first.
fn is_flagged(scratch: &Scratch, second: bool, states: &[u32]) -> bool
    requires { AllByRecursion (λ q. q < length (flags_in second scratch.now)) states.now }
    ensures { result ≡ list_any (flag (flags_in second scratch.now)) states.now }
{
    for state in states {
        if scratch.marked(second, *state) {
            return true;
        }
    }
    false
}

/// Whether a path of transitions spells the values of a list, from the start to a final state. Takes no memory.
///
/// Asks that each variable of the list has a value, and that there are flags for all states.
pub fn holds_regular(
    list: &[u32],
    edges: &[Edge],
    start: u32,
    finals: &[u32],
    a: &[i128],
    scratch: &mut Scratch,
) -> bool
    requires valued { AllByRecursion (λ v. v < length a.now) list.now }
    requires first { past_states (ends_of edges.now ++ start ∷ finals.now) ≤ length scratch.old.first }
    requires second { past_states (ends_of edges.now ++ start ∷ finals.now) ≤ length scratch.old.second }
    ensures value { (result ≡ true) ↔ IsAccepting edges.now start finals.now (values a.now list.now) }
    ensures long { IsAsLong scratch.old scratch.new }
{
    let count = states_in(edges, start, finals);
    let second = run(scratch, count, edges, start, list, a);
    is_flagged(scratch, second, finals)
}

/// Whether a path of transitions spells the values of a list, from the root to the leaf. Takes no memory.
///
/// Asks that each variable of the list has a value, and that there are flags for all states.
pub fn holds_mdd(
    list: &[u32],
    edges: &[Edge],
    root: u32,
    leaf: u32,
    a: &[i128],
    scratch: &mut Scratch,
) -> bool
    requires valued { AllByRecursion (λ v. v < length a.now) list.now }
    requires first { past_states (ends_of edges.now ++ root ∷ leaf ∷ []) ≤ length scratch.old.first }
    requires second { past_states (ends_of edges.now ++ root ∷ leaf ∷ []) ≤ length scratch.old.second }
    ensures value { (result ≡ true) ↔ Spells edges.now root (values a.now list.now) leaf }
    ensures long { IsAsLong scratch.old scratch.new }
{
    holds_regular(list, edges, root, &[leaf], a, scratch)
}
