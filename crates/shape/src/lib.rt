// Numbers 9 to 12 in plain quantifiers, both ways, and which edges the index lists of a vertex: laws alone, in specs/.
#![tactic(auto)]
