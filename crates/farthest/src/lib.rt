// Demand 3, the walk's end is highest of all vertices: laws alone, in specs/.
#![tactic(auto)]
