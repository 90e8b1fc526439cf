//! Tests of instances without expressions that are converted: each is read by `xs_file`, and `xf_carry` writes the lines
//! of its model.
#![tactic(auto)]

#[cfg(test)]
mod tests;
