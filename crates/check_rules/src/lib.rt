#![tactic(auto)]
// Test 9 over any distance, as a definition (specs/), and what it holds of (proofs/). The code that tests it stands in
// a crate above.
