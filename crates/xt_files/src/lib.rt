//! Tests of whole files: their markup, the units that hold others, declarations and lists, refused with their first
//! fault. `xs_file` shows all of them: its reader answers the instance of a text or its fault.
#![tactic(auto)]

#[cfg(test)]
mod tests;
