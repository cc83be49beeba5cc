// When a decision comes about: chosen sites that meet in a view and hear one another there.
// Definitions and proofs, without code.
#![tactic(auto)]
