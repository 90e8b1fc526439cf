//! The judgement by which the laws of a lowering follow from those of its pieces.
//!
//! It stands on `xf_num`, `xf_text`, `xs_model`, `fz_model`, `lo_base` and `lo_emit`, and has no code. `Rule`
//! (`specs/Rule.antt`) says of items what they give the new variables and what they state, that the new variables follow
//! from those before, of which variables the calls speak, and how much they are; `Makes` (`specs/Formed.antt`) that
//! they are well formed. The lemmas in `proofs` give both of each piece of `lo_emit`, of two lists of items in a row and of
//! loops. `IsLowered` (`specs/Laws.antt`) is what the law of a form promises: all five at once.
#![tactic(auto)]
