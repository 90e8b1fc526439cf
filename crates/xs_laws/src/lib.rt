//! Laws of values in lists, which tests and lowerings of constraints cite.
//!
//! It stands on `xf_num`, `xf_problem`, `xf_text` and `xs_model`. It holds no code: each function is a law, and its
//! clause is the statement. Each says that what a form of `xs_model` means is what is on the right side: a test place by
//! place, a sum, a comparison of neighbours, a linear equation. The laws know lists of integers alone, no lowering and no
//! new variable. The lemmas of `proofs/` say the same of any predicate. Circuits and automata are in `xs_paths`.
#![tactic(auto)]

mod laws;

pub use laws::{
    cardinality_is_sums, cell_is_flat, cell_is_place, channel_is_pairs, channel_is_places,
    channel_of_two_is_pairs, channel_of_two_is_places, channel_of_value_is_sum, closed_is_sum,
    count_sum, different_but_is_pairs, different_is_pairs, different_lines_is_pairs,
    different_lists_is_pairs, distinct_places, distinct_sum, distinct_values, element_is_from_one,
    element_is_place, equal_is_neighbours, flat_index_is_linear, flat_index_is_three,
    given_is_each, index_is_tested, lex_is_carried, lex_is_chain, lex_is_tested, limits_have_peaks,
    lists_are_carried, lists_are_chains, loads, meets_is, no_overlap_is_clauses, no_ranges,
    none_is_all, occurrences_sum, ordered_is_neighbours, ordered_is_spaced, peak_at_start,
    peak_by_ends, peaks_are_tested, places_among_sum, places_sum, ranges_are_held,
    separation_is_linear, some_element_is_found, sorted_among, sorted_different,
    sorted_different_but, sorted_distinct, sorted_run, step_is_linear, table_is_matched,
};
