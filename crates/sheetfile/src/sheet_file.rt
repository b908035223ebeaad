// A file read into the caller's store, since a device has no heap, and the sheet that is then lent the store.
ghost use Rattle.std.specs.Prelude.{◌≡◌, true, length, is_ok, IfOk, IfErr, Ok};
ghost use Rattle.questions.specs.Questions.{refusal_of, first_no};
ghost use Rattle.range.specs.Sheets.{sheet};
ghost use Rattle.sheetfile.specs.Files.{told};
ghost use Rattle.sheetfile.specs.Reading.{file_questions, stored, Readable, StandsFor};

use crate::fault::FileFault;
use crate::layout::Layout;
use crate::reading::fill;
use crate::refused::Refused;
use datatype::data::Data;
use range::sheet::Range;

/// Fills the front of the store with the cells of the file, each at its place in the sheet.
/// A no before the cells leaves the store as it was; a bad cell leaves those before it written.
pub fn fill_cells(file: &[u8], store: &mut [Data]) -> Result<(), FileFault>
    ensures answers { refusal_of told result ≡ first_no (file_questions file.now (length store.old)) }
    ensures holds { store.new ≡ stored file.now store.old }
    ensures accepts { (Readable file.now (length store.old) → result ≡ Ok tt) × (result ≡ Ok tt → Readable file.now (length store.old)) }
{
    fill(file, store)?;
    Ok(())
}

/// The sheet of a file: the store is filled with its cells, and the sheet lies over the store and the file's text.
/// A refusal gives the store back.
pub fn worksheet_range<'a>(
    file: &'a [u8],
    store: &'a mut [Data],
) -> Result<Range<'a, Data>, Refused<'a>>
    ensures answers { refusal_of (λ b. told b.fault) result ≡ first_no (file_questions file.now (length store.old)) }
    ensures read { IfOk result (λ range. StandsFor file.now (sheet range)) }
    ensures refused { IfErr result (λ b. b.store.now ≡ stored file.now store.old) }
{
    match fill(file, store) {
        Ok(Some(layout)) => {
            let (cells, _) = store.split_at(layout.cells.len());
            // a layout is lawful, so its sheet is not refused
            Ok(Range::from_parts(layout.corners, cells, layout.text).unwrap())
        }
        Ok(None) => Ok(Range::empty()),
        Err(fault) => Err(Refused { fault, store }),
    }
}

/// Reads a file, for who keeps an old sheet: the range becomes its sheet over the filled store and the file's text.
/// A refusal leaves the range as it was, and gives the store back.
pub fn read_sheet<'a>(
    range: &mut Range<'a, Data>,
    file: &'a [u8],
    store: &'a mut [Data],
) -> Result<(), Refused<'a>>
    ensures answers { refusal_of (λ b. told b.fault) result ≡ first_no (file_questions file.now (length store.old)) }
    ensures read { is_ok result ≡ true → StandsFor file.now (sheet range.new) }
    ensures refused { IfErr result (λ b. (b.store.now ≡ stored file.now store.old) × (range.new ≡ range.old)) }
{
    *range = worksheet_range(file, store)?;
    Ok(())
}
