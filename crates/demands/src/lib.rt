// The user's demands as theorems over the calls themselves, in specs/. This crate has no code.
#![tactic(auto)]
