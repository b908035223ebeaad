// The typed cell, after calamine's: its nine cases, the eight errors, and serial dates; what a cell's
// value is, and the text form of a value.
#![tactic(auto)]

pub mod cell_error_type;
pub mod coercion_fault;
pub mod data;
pub mod excel_date_time;
pub mod forming;
mod serial;
pub mod showing;
pub mod telling;
pub mod text_form;
pub mod value;
