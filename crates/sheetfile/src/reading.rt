// Reading the cells of a file into a store.
ghost use Rattle.std.specs.Prelude.{◌≡◌, ◌≤◌, length, IfOk};
ghost use Rattle.std.specs.Option.{option_map};
ghost use Rattle.questions.specs.Questions.{refusal_of, first_no};
ghost use Rattle.sheetfile.specs.Files.{told, cell_in, cell_questions, cells_from, placed, file_layout, shown};
ghost use Rattle.sheetfile.specs.Reading.{file_questions, stored};

use crate::asking::layout;
use crate::cell_code::read_cell;
use crate::fault::FileFault;
use crate::layout::Layout;
use datatype::data::Data;

/// Writes cell after cell to its place, up to the first that nine bytes do not stand for.
fn write_cells(cells: &[[u8; 9]], store: &mut [Data]) -> Result<(), FileFault>
    requires room { length cells.now ≤ length store.old }
    ensures answers { refusal_of told result ≡ first_no (cell_questions (cell_in cells.now) 0 (length cells.now)) }
    ensures holds { store.new ≡ placed (λ k. k) 0 (cells_from (cell_in cells.now) 0 (length cells.now)) store.old }
{
    for (index, bytes) in cells.iter().enumerate() {
        // The refusal on a line of its own: what the store then holds is promised, and an edit that must fail writes there.
        let Some(cell) = read_cell(bytes) else {
            return Err(FileFault::Cell(index));
        };
        // By index: behind a zip with `iter_mut` a proof knows nothing of what was written, and over the store's entries alone
        // the cells would be taken by index.
        store[index] = cell;
    }
    Ok(())
}

/// Fills the store, and tells the parts of the sheet; none for the empty sheet.
/// File and store are not one struct: a sheet keeps both, but a refusal gives back the store alone.
pub(crate) fn fill<'a>(file: &'a [u8], store: &mut [Data]) -> Result<Option<Layout<'a>>, FileFault>
    ensures answers { refusal_of told result ≡ first_no (file_questions file.now (length store.old)) }
    ensures holds { store.new ≡ stored file.now store.old }
    ensures is { IfOk result (λ o. option_map shown o ≡ file_layout file.now) }
{
    let found = layout(file, store.len())?;
    if let Some(layout) = found {
        write_cells(layout.cells, store)?;
    }
    Ok(found)
}
