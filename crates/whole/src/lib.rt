// The laws of whole numbers stand in specs/: this crate has no code.
#![tactic(auto)]
