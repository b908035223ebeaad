// Number text as a float.
#![tactic(auto)]

mod amount;
mod digits;
pub mod fault;
pub mod parse;
mod split;
#[cfg(test)]
mod tests;
