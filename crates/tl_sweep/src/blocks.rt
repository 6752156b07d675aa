//! Blocks of inner corners, and the bits of a block.

ghost use Rattle.std.specs.Prelude.{◌≡◌, ◌+◌, ◌/◌, ◌%◌, ◌<◌, ◌≤◌, ℕ, length, slice_index};
ghost use Rattle.std.specs.Int.{bit_at};
ghost use Rattle.tl_sweep.specs.Blocks.{AreApart, ArePlaces};

// As many corners as a word has bits.
const BLOCK: usize = 32;

/// Inner corners of a row with consecutive numbers, each as near to the next as corners of a row are.
#[derive(Clone, Copy)]
pub struct Block {
    pub number: usize,
    pub place: usize,
    pub count: usize,
}

/// The block that begins with the inner corner of this number.
#[inline]
pub fn next_block(places: &[u32], number: usize, stride: usize) -> Block
    requires number { number < length places.now }
    requires stride { stride ≤ 2 }
    requires apart { AreApart stride places.now }
    ensures number { result.number ≡ number }
    ensures block { ArePlaces places.now stride number result.place result.count }
{
    let rest = &places[number..];
    let place = rest[0] as usize;
    let most = rest.len().min(BLOCK);
    let mut count = 1;
    // where the last place is as it should be, so are those between
    for more in [16, 8, 4, 2, 1] {
        let last = count - 1 + more;
        if last < most && rest[last] as usize == place + stride * last {
            count += more;
        }
    }
    Block {
        number,
        place,
        count,
    }
}

/// The 32 bits from bit i on, of words with 32 bits each. Bit 0 of a word is its lowest. Past the last word they are 0.
#[inline]
pub fn bits_from(words: &[u32], i: usize) -> u32
    ensures { (j : ℕ) → j < 32 → bit_at result j ≡ bit_at (slice_index words.now ((i + j) / 32)) ((i + j) % 32) }
{
    let low = u64::from(word_at(words, i / 32));
    let high = u64::from(word_at(words, i / 32 + 1));
    let both = low + high * (1 << 32);
    ((both >> (i % 32)) % (1 << 32)) as u32
}

#[inline]
fn word_at(words: &[u32], n: usize) -> u32
    ensures { result ≡ slice_index words.now n }
{
    if n < words.len() { words[n] } else { 0 }
}
