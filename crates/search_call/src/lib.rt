#![tactic(auto)]
// A search call as a definition (specs/): its answer, each lent area after it, and a list of calls; and demand 3,
// proved of it (proofs/).
