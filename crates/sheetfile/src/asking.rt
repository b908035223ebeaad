// The questions put to a file before its cells.
ghost use Rattle.std.specs.Prelude.{◌≡◌, false, length, MatchOption, IfOk};
ghost use Rattle.std.specs.Option.{option_map};
ghost use Rattle.std.specs.Simd.{first_chunks};
ghost use Rattle.questions.specs.Questions.{refusal_of, first_no};
ghost use Rattle.range.specs.Shapes.{Lawful};
ghost use Rattle.range.specs.Making as making;
ghost use Rattle.sheetfile.specs.Contents.{lawful};
ghost use Rattle.sheetfile.specs.Files.{told, corners_at, shape_questions, layout_questions, file_layout, shown, IsParted};

use crate::contents::Contents;
use crate::fault::FileFault;
use crate::layout::Layout;
use range::corners::Corners;
use range::fault::RangeFault;

/// The bytes of a file behind its table of contents, part by part.
struct Parts<'a> {
    shape: &'a [u8],
    cells: &'a [u8],
    text: &'a [u8],
}

/// The parts of a file, where its table of contents is lawful.
fn cut(file: &[u8]) -> Option<Parts<'_>>
    ensures { MatchOption result (lawful file.now ≡ false) (IsParted file.now) }
{
    let (contents, body) = file.split_first_chunk::<24>()?;
    let contents = Contents::from(*contents);
    if !contents.is_lawful(file.len()) {
        return None;
    }
    let (shape, body) = body.split_at(contents.shape.len as usize);
    let (cells, text) = body.split_at(contents.cells.len as usize);
    Some(Parts { shape, cells, text })
}

/// The shape: first row, first column, last row, last column.
fn corners(shape: [u8; 16]) -> Corners
    ensures { result ≡ corners_at shape 0 }
{
    let (numbers, _) = shape.as_chunks::<4>();
    Corners {
        first_row: u32::from_le_bytes(numbers[0]),
        first_column: u32::from_le_bytes(numbers[1]),
        last_row: u32::from_le_bytes(numbers[2]),
        last_column: u32::from_le_bytes(numbers[3]),
    }
}

/// The cells, nine bytes each, where these bytes and the store agree with the shape.
fn ask_shape(corners: Corners, bytes: &[u8], room: usize) -> Result<&[[u8; 9]], RangeFault>
    ensures answers { refusal_of making.told result ≡ first_no (shape_questions corners (length bytes.now) room) }
    ensures lawful { IfOk result (λ cells. Lawful corners (length cells.now)) }
    ensures cut { IfOk result (λ cells. cells.now ≡ first_chunks 9 (length cells.now) bytes.now) }
{
    let count = corners.cell_count()?;
    if bytes.len() != 9 * count {
        return Err(RangeFault::CellCount);
    }
    if room < count {
        return Err(RangeFault::StoreShort);
    }
    let (cells, _) = bytes.as_chunks::<9>();
    Ok(cells)
}

/// Every question before the cells: the parts of the sheet, or none for the empty sheet.
pub(crate) fn layout(file: &[u8], room: usize) -> Result<Option<Layout<'_>>, FileFault>
    ensures answers { refusal_of told result ≡ first_no (layout_questions file.now room) }
    ensures is { IfOk result (λ o. option_map shown o ≡ file_layout file.now) }
{
    let Parts { shape, cells, text } = cut(file).ok_or(FileFault::Contents)?;
    // only the empty sheet has no shape
    let Some(shape) = shape.as_array::<16>() else {
        return Ok(None);
    };
    let corners = corners(*shape);
    let cells = ask_shape(corners, cells, room)?;
    Ok(Some(Layout {
        corners,
        cells,
        text,
    }))
}
