//! Laws of circuits and automata, which tests and lowerings of constraints cite.
//!
//! It stands on `xf_num`, `xf_problem`, `xf_text`, `xs_model` and `xs_laws`. It holds no code: each function is a law, and
//! its clause is the statement. Each says that a circuit of `xs_model` is what a walk finds, and that what an automaton
//! accepts is what is reached from layer to layer.
#![tactic(auto)]

mod laws;

pub use laws::{
    accepted_in_layer, accepted_is_carried, accepted_is_carried_by, accepted_is_flagged,
    accepted_is_met, accepted_is_reached, circuit_goes_round, circuit_has_size, circuit_is_stepped,
    circuit_is_tested, circuit_is_walked, empty_leads_nowhere, layer_is_live, leaf_is_final,
    next_is_arrival, no_circuit, one_circuit, seen_is_carried, targets_are_arrivals, two_circuits,
    walk_is_inside,
};
