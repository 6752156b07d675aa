//! The bits of pieces, put into the words of strings.

ghost use Rattle.std.specs.Prelude.{◌≡◌, ℕ, ◌+◌, ◌*◌, ◌<◌, ◌==◌, if◌then◌else◌, length, All};
ghost use Rattle.std.specs.Int.{bit_at};
ghost use Rattle.tl_layout.specs.Coins.{ArePut, raw_bit};

use crate::piece::Piece;

// The 64 bits from a bit of a word on.
#[inline(always)]
fn cut(raw: &[u32], from: usize, shift: u32) -> u64
    requires inside { from + 2 < length raw.now }
    requires shift { shift < 32 }
    ensures { (x : ℕ) → x < 64 → bit_at result x ≡ raw_bit raw.now (32 * from + shift + x) }
{
    let low = u64::from(raw[from]) | (u64::from(raw[from + 1]) << 32);
    let high = u64::from(raw[from + 2]) << 32;
    (low >> shift) | ((high << 1) << (31 - shift))
}

// The word, with the bits of the mask from another one.
#[inline(always)]
fn mixed(word: u64, bits: u64, mask: u64) -> u64
    ensures { (x : ℕ) → x < 64 → bit_at result x ≡ (if bit_at mask x == 1 then bit_at bits x else bit_at word x) }
{
    (word & !mask) | (bits & mask)
}

pub fn put(pieces: &[Piece], raw: &[u32], words: &mut [u64])
    requires fit { All (λ p. (p.place < length words.old) × (p.from + 2 < length raw.now)) pieces.now }
    ensures { ArePut raw.now pieces.now pieces.now words.new }
{
    for piece in pieces {
        let bits = cut(raw, piece.from, piece.shift);
        words[piece.place] = mixed(words[piece.place], bits, piece.mask);
    }
}
