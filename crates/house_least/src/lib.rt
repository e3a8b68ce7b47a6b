// No code: the least way through a list by moves (specs/Least.antt), and its laws (proofs/Laws.antt).
#![tactic(auto)]
