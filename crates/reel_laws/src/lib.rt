// What is shown of reels: an accepted one leads back, lap after lap; a built one shows every state asked for. Theorems over the definitions, no code.
#![tactic(auto)]
