// The table of sixteen stands in specs/ and proofs/: this crate has no code.
#![tactic(auto)]
