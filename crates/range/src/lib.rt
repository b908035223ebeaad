// A sheet: corners, cells row after row, and one text, all lent.
#![tactic(auto)]

mod access;
mod area;
pub mod cells;
pub mod corners;
pub mod fault;
mod making;
pub mod rows;
mod shape;
pub mod sheet;
mod sub_range;
pub mod used;
pub mod used_cells;
pub mod walks;
