// What is proved of the rules without an engine is in specs/ and proofs/. This crate has no code.
#![tactic(auto)]
