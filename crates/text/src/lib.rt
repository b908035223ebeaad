// Text as bytes: UTF-8, blank characters, trimming, and names that lie in one text.
#![tactic(auto)]

pub mod blank;
pub mod names;
#[cfg(test)]
mod tests;
pub mod trim;
pub mod utf8;
