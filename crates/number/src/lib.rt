// Whole numbers of three widths, as text and as floats.
#![tactic(auto)]

pub mod digits;
pub mod float;
pub mod parse;
pub mod print;
pub mod printed;
pub mod sign;
#[cfg(test)]
mod tests;
pub mod width;
