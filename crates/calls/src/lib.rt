// The calls on an image: only definitions (specs/). The functions that a host in C calls promise these.
#![tactic(auto)]
