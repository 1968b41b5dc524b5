// The theorems on closed surfaces stand in specs/ and proofs/: this crate has no code.
#![tactic(auto)]
