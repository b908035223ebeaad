// The cell interface: what a cell means over the text of its sheet.
ghost use Rattle.std.specs.Prelude.{◌≡◌, ℕ, List};
ghost use Rattle.datatype.specs.Meanings.{Meaning, is_empty};
ghost use Rattle.datatype.specs.Values.{shown};
ghost use Rattle.cell.specs.Soundness.{TextIsUtf8, Lies};

use datatype::value::Value;

/// A kind of cell. Anyone may add one.
pub trait Cell {
    // The meaning of a cell over the sheet's text.
    ghost meaning: { Self → List ℕ → Meaning };

    /// Whether the cell is empty over the sheet's text.
    fn is_empty(&self, text: &[u8]) -> bool
        ensures { result ≡ is_empty (meaning self.now text.now) };

    /// The cell's value over the sheet's text. A text is a part of that text.
    fn value<'a>(&self, text: &'a [u8]) -> Value<'a>
        ensures means { shown result ≡ meaning self.now text.now }
        ensures lies { Lies text.now result };

    // A text that it means is UTF-8: other bytes mean unsound.
    ghost encoded: { (cell : Self) (text : List ℕ) → TextIsUtf8 (meaning cell text) };
}
