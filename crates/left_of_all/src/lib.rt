// What each answer of the outline judge means stands in specs/: this crate has no code.
#![tactic(auto)]
