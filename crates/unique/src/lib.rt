// No two outcomes satisfy an entry's promise: laws alone, in specs/.
#![tactic(auto)]
