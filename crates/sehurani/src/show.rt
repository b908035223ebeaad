// Prints a sheet file, row by row.
use crate::cell_text::CellText;
use crate::refusal::Refusal;
use datatype::data::Data;
use range::sheet::Range;
use sheetfile::sheet_file::worksheet_range;
use std::process::ExitCode;
use std::rt::Files;
use std::{fs, io};

pub(crate) fn show(
    rt: &(impl Files + Print + AllocGlobal),
    path: &str,
) -> anyhow::Result<ExitCode> {
    let heap = rt.alloc();
    let file = fs::read(rt, path)?;
    // a cell has nine bytes, so no file has more cells than this
    let mut store = vec![in heap; Data::Empty; file.len() / 9]?;
    match worksheet_range(file.as_slice(), store.as_mut_slice()) {
        Ok(range) => {
            print_sheet(rt, &range)?;
            Ok(ExitCode::SUCCESS)
        }
        Err(refused) => {
            rt.println(Refusal(refused.fault))?;
            Ok(ExitCode::FAILURE)
        }
    }
}

fn print_sheet(rt: &impl Print, range: &Range<Data>) -> io::Result<()> {
    match range.start().zip(range.end()) {
        Some(((first_row, first_column), (last_row, last_column))) => println!(rt;
            "sheet: rows {first_row} to {last_row}, columns {first_column} to {last_column}"
        )?,
        None => println!(rt; "sheet: empty")?,
    }
    let first_row = range.start().map_or(0, |(row, _)| row);
    for (number, row) in (first_row..).zip(range.rows()) {
        print_row(rt, number, row, range.text())?;
    }
    let rows = range.height();
    let cells = range.cells().len();
    println!(rt; "rows shown: {rows}, cells shown: {cells}")
}

fn print_row(rt: &impl Print, number: u32, row: &[Data], text: &[u8]) -> io::Result<()> {
    print!(rt; "row {number}:")?;
    let mut separator = " ";
    for cell in row {
        let shown = CellText { cell: *cell, text };
        print!(rt; "{separator}{shown}")?;
        separator = " | ";
    }
    println!(rt; "")
}
