//! How automata are written.

ghost use Rattle.std.specs.Prelude.{◌≡◌, ◌<◌, ◌++◌, ◌∷◌, [], codes, length, map, IfOk, OnOk};
ghost use Rattle.std.specs.List.{AllByRecursion};
ghost use Rattle.xs_language.specs.Written.{edge_text, element_text, list_text, mdd_element, regular_element, state_text, states_text, transitions_text};
ghost use Rattle.xs_model.specs.Names.{words};
ghost use Rattle.xs_model.specs.Sound.{IsSoundDecl};

use crate::write::{write_int, write_list};
use std::alloc::Global;
use xf_num::NoMemory;
use xs_model::{Decls, Edge};

fn write_state(state: u32, out: &mut Vec<u8>) -> Result<(), NoMemory>
    ensures { OnOk result (out.new.items ≡ out.old.items ++ state_text state) }
{
    out.extend_from_slice(b"s")?;
    write_int(i128::from(state), out)?;
    Ok(())
}

fn write_edge(edge: Edge, out: &mut Vec<u8>) -> Result<(), NoMemory>
    ensures { OnOk result (out.new.items ≡ out.old.items ++ edge_text edge) }
{
    out.extend_from_slice(b"(")?;
    write_state(edge.from, out)?;
    out.extend_from_slice(b",")?;
    write_int(edge.value, out)?;
    out.extend_from_slice(b",")?;
    write_state(edge.to, out)?;
    out.extend_from_slice(b")")?;
    Ok(())
}

fn write_edges(edges: &[Edge], out: &mut Vec<u8>) -> Result<(), NoMemory>
    ensures { OnOk result (out.new.items ≡ out.old.items ++ transitions_text edges.now) }
{
    out.extend_from_slice(b" ")?;
    for edge in edges {
        write_edge(*edge, out)?;
        out.extend_from_slice(b" ")?;
    }
    Ok(())
}

fn write_states(states: &[u32], out: &mut Vec<u8>) -> Result<(), NoMemory>
    ensures { OnOk result (out.new.items ≡ out.old.items ++ states_text states.now) }
{
    out.extend_from_slice(b" ")?;
    for state in states {
        write_state(*state, out)?;
        out.extend_from_slice(b" ")?;
    }
    Ok(())
}

// The list and the transitions.
fn write_steps(
    alloc: Global,
    list: &[u32],
    edges: &[Edge],
    decls: &Decls,
    out: &mut Vec<u8>,
) -> Result<(), NoMemory>
    requires sound { AllByRecursion IsSoundDecl decls.now }
    requires declared { AllByRecursion (λ v. v < length (words decls.now)) list.now }
    ensures { OnOk result (out.new.items ≡ out.old.items ++ (list_text (words decls.now) list.now ++ (codes "</list> <transitions>" ++ transitions_text edges.now))) }
{
    write_list(alloc, list, decls, out)?;
    out.extend_from_slice(b"</list> <transitions>")?;
    write_edges(edges, out)?;
    Ok(())
}

// The start and the final states.
fn write_ends(start: u32, finals: &[u32], out: &mut Vec<u8>) -> Result<(), NoMemory>
    ensures { OnOk result (out.new.items ≡ out.old.items ++ (codes "</transitions> <start>" ++ (states_text (start ∷ []) ++ (codes "</start> <final>" ++ (states_text finals.now ++ codes "</final> </regular>"))))) }
{
    out.extend_from_slice(b"</transitions> <start>")?;
    write_states(&[start], out)?;
    out.extend_from_slice(b"</start> <final>")?;
    write_states(finals, out)?;
    out.extend_from_slice(b"</final> </regular>")?;
    Ok(())
}

/// A `regular`.
pub(crate) fn write_automaton(
    alloc: Global,
    list: &[u32],
    edges: &[Edge],
    start: u32,
    finals: &[u32],
    decls: &Decls,
) -> Result<Vec<u8>, NoMemory>
    requires sound { AllByRecursion IsSoundDecl decls.now }
    requires declared { AllByRecursion (λ v. v < length (words decls.now)) list.now }
    ensures { IfOk result (λ text. text.items ≡ element_text (regular_element (list_text (words decls.now) list.now) (transitions_text edges.now) (states_text (start ∷ [])) (states_text finals.now))) }
{
    let mut out = Vec::new(alloc);
    out.extend_from_slice(b"<regular> <list>")?;
    write_steps(alloc, list, edges, decls, &mut out)?;
    write_ends(start, finals, &mut out)?;
    Ok(out)
}

/// An `mdd`.
pub(crate) fn write_diagram(
    alloc: Global,
    list: &[u32],
    edges: &[Edge],
    decls: &Decls,
) -> Result<Vec<u8>, NoMemory>
    requires sound { AllByRecursion IsSoundDecl decls.now }
    requires declared { AllByRecursion (λ v. v < length (words decls.now)) list.now }
    ensures { IfOk result (λ text. text.items ≡ element_text (mdd_element (list_text (words decls.now) list.now) (transitions_text edges.now))) }
{
    let mut out = Vec::new(alloc);
    out.extend_from_slice(b"<mdd> <list>")?;
    write_steps(alloc, list, edges, decls, &mut out)?;
    out.extend_from_slice(b"</transitions> </mdd>")?;
    Ok(out)
}
