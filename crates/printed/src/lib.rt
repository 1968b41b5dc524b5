// What the two programs' lines say in the sheet's words, how much of their inputs settles them, and that a line reads again as its numbers:
// laws alone, in specs/ and proofs/.
#![tactic(auto)]
