// Claims about the definitions of the crates below, in specs/, and their proofs, in proofs/. No code stands here.
#![tactic(auto)]
