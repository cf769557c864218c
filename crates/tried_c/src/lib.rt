// What the tests of the leaves and of one stream link: calls that answer in numbers.
#![tactic(auto)]

pub mod feeds;
pub mod leaves;
