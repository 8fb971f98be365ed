// Layouts of fixed length: only definitions (specs/) and their laws (proofs/).
#![tactic(auto)]
