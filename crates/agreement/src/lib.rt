// Agreement of the rules, over runs of abstract calls: no code, but definitions and proofs that contracts
// of the crates above cite.
#![tactic(auto)]
