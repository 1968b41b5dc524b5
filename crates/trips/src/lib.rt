// The round trips of the tape: theorems on what the reader and the writer promise, in specs/.
#![tactic(auto)]
