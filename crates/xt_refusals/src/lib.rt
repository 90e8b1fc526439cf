//! Tests of expressions that are refused: their first fault, as `xs_file` answers it.
#![tactic(auto)]

#[cfg(test)]
mod tests;
