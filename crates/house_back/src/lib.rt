// A house frame reads back: theorems over the definitions, no code.
#![tactic(auto)]
