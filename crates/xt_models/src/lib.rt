//! Tests of FlatZinc models: read, written and read again. They stand on `fz_read` and `fz_file`, and hold no code.
#![tactic(auto)]

#[cfg(test)]
mod tests;
