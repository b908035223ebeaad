// The table of contents: where the parts of a file lie.
ghost use Rattle.std.specs.Prelude.{◌≡◌, ◌&&◌, ◌||◌, ◌==◌};
ghost use Rattle.sheetfile.specs.Contents.{extent_at, contents_of, behind, gapless, no_parts};

/// A place and a length, as the file holds them.
#[derive(Clone, Copy)]
pub(crate) struct Extent {
    pub(crate) place: u32,
    pub(crate) len: u32,
}

impl From<[u8; 8]> for Extent {
    ghost from_gives = { λ bytes extent. extent ≡ extent_at bytes 0 };

    fn from(bytes: [u8; 8]) -> Extent {
        let (numbers, _) = bytes.as_chunks::<4>();
        Extent {
            place: u32::from_le_bytes(numbers[0]),
            len: u32::from_le_bytes(numbers[1]),
        }
    }
}

impl Extent {
    /// The byte behind the part.
    fn end(&self) -> usize
        ensures { result ≡ behind self.now }
    {
        self.place as usize + self.len as usize
    }
}

#[derive(Clone, Copy)]
pub(crate) struct Contents {
    pub(crate) shape: Extent,
    pub(crate) cells: Extent,
    pub(crate) text: Extent,
}

impl From<[u8; 24]> for Contents {
    ghost from_gives = { λ bytes contents. contents ≡ contents_of bytes };

    fn from(bytes: [u8; 24]) -> Contents {
        let (extents, _) = bytes.as_chunks::<8>();
        Contents {
            shape: Extent::from(extents[0]),
            cells: Extent::from(extents[1]),
            text: Extent::from(extents[2]),
        }
    }
}

impl Contents {
    /// Do the parts follow one another from byte 24 to the end of the file?
    fn is_gapless(&self, size: usize) -> bool
        ensures { result ≡ gapless self.now size }
    {
        let shape_follows = self.shape.place == 24;
        let cells_follow = self.cells.place as usize == self.shape.end();
        let text_follows = self.text.place as usize == self.cells.end();
        let text_ends = self.text.end() == size;
        shape_follows && cells_follow && text_follows && text_ends
    }

    /// Are all three lengths 0?
    fn has_no_parts(&self) -> bool
        ensures { result ≡ no_parts self.now }
    {
        self.shape.len == 0 && self.cells.len == 0 && self.text.len == 0
    }

    /// Are the parts gapless in a file of this size, and the shape of 16 bytes unless all are empty?
    pub(crate) fn is_lawful(&self, size: usize) -> bool
        ensures { result ≡ (gapless self.now size && (no_parts self.now || self.now.shape.len == 16)) }
    {
        self.is_gapless(size) && (self.has_no_parts() || self.shape.len == 16)
    }
}
