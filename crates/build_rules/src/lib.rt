#![tactic(auto)]
// The tree that the stated cuts give, as a definition (specs/), and what is proved of it (proofs/). The code that
// writes it stands in a crate above.
