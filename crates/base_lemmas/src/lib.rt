//! Lemmas on lists, ranges of numbers and choices that several crates need. All are in `proofs/`.
#![tactic(auto)]
