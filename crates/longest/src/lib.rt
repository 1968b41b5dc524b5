// The longest tape, and that one byte more of an input settles its reading: laws alone, in specs/ and proofs/.
#![tactic(auto)]
