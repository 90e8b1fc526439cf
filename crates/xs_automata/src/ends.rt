//! The root and the leaf of a diagram.

ghost use Rattle.std.specs.Prelude.{◌≡◌, ◌<◌, ℕ, filter, length, map, not, IfOk};
ghost use Rattle.std.specs.List.{AllByRecursion};
ghost use Rattle.xs_automata.specs.Ends.{is_source, is_target, leaf_of, only_of, root_of};
ghost use Rattle.xs_paths.specs.Flags.{flag};

use std::alloc::Global;
use xf_num::NoMemory;
use xs_model::Edge;

/// For each of so many states whether a transition leads to it.
fn targets(alloc: Global, edges: &[Edge], count: usize) -> Result<Vec<bool>, NoMemory>
    requires { AllByRecursion (λ e. e.to < count) edges.now }
    ensures value { IfOk result (λ flags. (q : ℕ) → flag flags.items q ≡ is_target edges.now q) }
    ensures len { IfOk result (λ flags. length flags.items ≡ count) }
{
    let mut flags = vec![in alloc; false; count]?;
    for edge in edges {
        flags[edge.to as usize] = true;
    }
    Ok(flags)
}

/// For each of so many states whether a transition leads from it.
fn sources(alloc: Global, edges: &[Edge], count: usize) -> Result<Vec<bool>, NoMemory>
    requires { AllByRecursion (λ e. e.from < count) edges.now }
    ensures value { IfOk result (λ flags. (q : ℕ) → flag flags.items q ≡ is_source edges.now q) }
    ensures len { IfOk result (λ flags. length flags.items ≡ count) }
{
    let mut flags = vec![in alloc; false; count]?;
    for edge in edges {
        flags[edge.from as usize] = true;
    }
    Ok(flags)
}

/// The one state from which transitions lead and which is not flagged.
fn only_from(edges: &[Edge], flags: &[bool]) -> Option<u32>
    requires { AllByRecursion (λ e. e.from < length flags.now) edges.now }
    ensures { result ≡ only_of (filter (λ q. not (flag flags.now q)) (map (λ e. e.from) edges.now)) }
{
    let mut only = None;
    for edge in edges {
        if !flags[edge.from as usize] {
            match only {
                None => only = Some(edge.from),
                Some(found) => {
                    if found != edge.from {
                        return None;
                    }
                }
            }
        }
    }
    only
}

/// The one state to which transitions lead and which is not flagged.
fn only_to(edges: &[Edge], flags: &[bool]) -> Option<u32>
    requires { AllByRecursion (λ e. e.to < length flags.now) edges.now }
    ensures { result ≡ only_of (filter (λ q. not (flag flags.now q)) (map (λ e. e.to) edges.now)) }
{
    let mut only = None;
    for edge in edges {
        if !flags[edge.to as usize] {
            match only {
                None => only = Some(edge.to),
                Some(found) => {
                    if found != edge.to {
                        return None;
                    }
                }
            }
        }
    }
    only
}

/// The one state of so many that is no target.
pub(crate) fn root_of(alloc: Global, edges: &[Edge], count: usize) -> Result<Option<u32>, NoMemory>
    requires from { AllByRecursion (λ e. e.from < count) edges.now }
    requires to { AllByRecursion (λ e. e.to < count) edges.now }
    ensures { IfOk result (λ root. root ≡ root_of edges.now) }
{
    let flags = targets(alloc, edges, count)?;
    Ok(only_from(edges, &flags))
}

/// The one state of so many that is no source.
pub(crate) fn leaf_of(alloc: Global, edges: &[Edge], count: usize) -> Result<Option<u32>, NoMemory>
    requires from { AllByRecursion (λ e. e.from < count) edges.now }
    requires to { AllByRecursion (λ e. e.to < count) edges.now }
    ensures { IfOk result (λ leaf. leaf ≡ leaf_of edges.now) }
{
    let flags = sources(alloc, edges, count)?;
    Ok(only_to(edges, &flags))
}
