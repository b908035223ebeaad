// What a refusal tells, its number and its values, and questions that are put in order.
// The definitions in specs/ are cited by the contracts of the crates above.
#![tactic(auto)]

pub mod fault;
