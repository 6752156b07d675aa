//! Pieces of the random bits of a time.

ghost use Rattle.std.specs.Prelude.{◌+◌, ◌<◌, All};

// Bits that go to one word: of the 64 bits from bit `shift` of the raw word `from` on, those of the mask.
#[derive(Clone, Copy)]
pub struct Piece {
    pub place: usize,
    pub from: usize,
    pub shift: u32,
    pub mask: u64,
    ghost shift_small: { shift < 32 },
}

/// What lays out the random bits of a time: one piece for each run of inner corners within one strip of a row.
#[derive(Drop)]
pub struct Pieces {
    pub(crate) pieces: Vec<Piece>,
    pub words: usize,
    pub size: usize,
    ghost fit: { All (λ p. (p.place < size) × (p.from + 2 < words + 8)) pieces.items },
}
