// What is shown of players: on every lap the board shows what was meant, a replay tells what stood, and no night adds up to a drift. Theorems over the
// definitions, no code.
#![tactic(auto)]
