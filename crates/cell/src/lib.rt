// The cell interface, after calamine's `ToCellDeserializer`, and the two kinds of cells.
#![tactic(auto)]

pub mod cell;
pub mod count;
mod data_cell;
pub mod header;
pub mod header_fault;
