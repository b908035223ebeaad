// Sheet files: a table of contents, then shape, cells and text without gaps.
#![tactic(auto)]

mod asking;
mod cell_code;
mod contents;
pub mod fault;
mod layout;
mod reading;
pub mod refused;
pub mod sheet_file;
