//! What a problem is, whatever the format: the names of its variables, its solutions and its objective; and
//! what it is that one problem extends another.
//!
//! It stands on nothing but the standard library and knows neither format. It holds definitions alone, in
//! `specs/Problem.antt`; every statement about a conversion cites them.
#![tactic(auto)]
