// Runs of calls at the sites that follow the rules, and what every run keeps: definitions and
// proofs, without code.
#![tactic(auto)]
