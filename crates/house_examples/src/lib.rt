// Document 01's numbers that it marks P, and numbers of the later requests: definitions and their proof, no code.
#![tactic(auto)]
