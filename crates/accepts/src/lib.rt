// What acceptance means, and each row of the sheet's table: laws alone, in specs/.
#![tactic(auto)]
