#![tactic(auto)]
// The rules of the search as definitions (specs/), and what is proved of them (proofs/). The code that follows them
// stands in a crate above.
