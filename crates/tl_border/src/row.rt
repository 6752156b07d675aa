//! Rows, and the two sides that hand them over.
ghost use Rattle.std.specs.Prelude.{◌≡◌, ℕ, ◌*◌, ◌<◌, Bool, length};
ghost use Rattle.tl_border.specs.declared.row.Row.{Row};
ghost use Rattle.tl_border.specs.Rows.{bits_of_row, row_of_slots, slot_bit};

/// One of the two sides of a border.
#[derive(Clone, Copy)]
pub enum Side {
    Upper,
    Lower,
}

/// The words of one row of a string, strip after strip, 64 slots a word.
#[derive(Drop)]
pub struct Row {
    pub words: Vec<u64>,
}

/// A row as contracts see it: the bit of each slot in turn. No value of it is made.
pub struct RowBits {
    pub bits: [bool; 0],
}

/// A row is these slots exactly where it has so many words, and each slot its bit. There is nothing to run here.
pub fn slots_of_rows()
    ensures length { (row : Row) (count : ℕ) (slots : ℕ → Bool) → bits_of_row row ≡ row_of_slots count slots
        → length row.words.items ≡ count }
    ensures each { (row : Row) (count : ℕ) (slots : ℕ → Bool) → bits_of_row row ≡ row_of_slots count slots
        → (slot : ℕ) → slot < 64 * count → slot_bit row.words.items slot ≡ slots slot }
    ensures made { (row : Row) (count : ℕ) (slots : ℕ → Bool) → length row.words.items ≡ count
        → ((slot : ℕ) → slot < 64 * count → slot_bit row.words.items slot ≡ slots slot)
        → bits_of_row row ≡ row_of_slots count slots }
{}
