// What all calls have in common: the table of refusals, the report, and the bytes of a number.
#![tactic(auto)]

pub mod numbers;
pub mod refusal;
pub mod report;
