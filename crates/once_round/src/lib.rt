// The words of an outline, and Theorem 5 on them, stand in specs/ and proofs/: this crate has no code.
#![tactic(auto)]
