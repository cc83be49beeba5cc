// Sites that behave otherwise than the rules say, and which promises they break: definitions and
// proofs, without code.
#![tactic(auto)]
