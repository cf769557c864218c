// Calls, traces and the demands, over any stream machines: definitions and theorems, in specs/. This crate has no code.
#![tactic(auto)]
