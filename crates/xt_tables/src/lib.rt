//! Tests of instances with tables and automata: each is read by `xs_file`, and `xf_carry` writes the lines of its model, or it is
//! refused with its fault.
#![tactic(auto)]

#[cfg(test)]
mod tests;
