// Names that lie one after another in one text.
ghost use Rattle.std.specs.Prelude.{◌≡◌, [], length, IfSome, MatchBool, MatchOption, slice_index_or};
ghost use Rattle.text.specs.Naming.{Lies, Sound, slice, name_start, name_end, names_of, sound_names};

use crate::utf8::is_utf8;

/// Names in one text. Each runs from the end before it (the first: from 0) to its own end.
/// The caller lends the text and the ends: a device without heap has no room of its own for a list of texts. The clauses
/// name both, so that a reader has the two lists in sight.
#[derive(Clone, Copy)]
pub struct Names<'text, 'ends> {
    pub text: &'text [u8],
    pub ends: &'ends [u32],
}

impl<'text> Names<'text, '_> {
    /// Do the ends never fall and stay inside the text, and is every name by itself UTF-8?
    pub fn is_sound(&self) -> bool
        ensures is { result ≡ sound_names self.now.text.now self.now.ends.now }
        ensures law { MatchBool result (Sound self.now.text.now self.now.ends.now) (Sound self.now.text.now self.now.ends.now → ⊥) }
    {
        (0..self.count()).all(|index| self.get(index).is_some_and(is_utf8))
    }

    /// How many names there are.
    pub fn count(&self) -> usize
        ensures ends { result ≡ length self.now.ends.now }
        ensures names { result ≡ length (names_of self.now.text.now self.now.ends.now) }
    {
        self.ends.len()
    }

    /// The name at an index, counted from 0: none past the last name, and where the name's end lies before its start or past the text.
    pub fn get(&self, index: usize) -> Option<&'text [u8]>
        ensures lies { MatchOption result (Lies self.now.text.now self.now.ends.now index → ⊥) (λ _. Lies self.now.text.now self.now.ends.now index) }
        ensures bytes { IfSome result (λ name. name.now ≡ slice self.now.text.now (name_start self.now.ends.now index) (name_end self.now.ends.now index)) }
        ensures listed { IfSome result (λ name. name.now ≡ slice_index_or (names_of self.now.text.now self.now.ends.now) index []) }
    {
        let end = *self.ends.get(index)? as usize;
        let start = index
            .checked_sub(1)
            .map_or(0, |before| self.ends[before] as usize);
        self.text.get(start..end)
    }
}
