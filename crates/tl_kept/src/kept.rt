//! Kept words.

ghost use Rattle.std.specs.Prelude.{◌≡◌, ◌+◌, ◌*◌, ◌^◌, ◌<◌, ◌≤◌, ◌++◌, length, ℕ, map, replicate, IfOk, slice_index};
ghost use Rattle.std.specs.List.{range_with_len};
ghost use Rattle.std.specs.Vec.{vec_capacity, vec_len};
ghost use Rattle.tl_definitions.specs.Region.{Region};
ghost use Rattle.tl_bits.specs.Bits.{bit_at};
ghost use Rattle.tl_layout.specs.declared.layout.Layout.{Layout};
ghost use Rattle.tl_layout.specs.Coins.{ArePiecesOf};
ghost use Rattle.tl_packing.specs.Packing.{HasCoins};
ghost use Rattle.tl_kept.specs.Kept.{AreBegun, AreKept, HasTime};

use std::alloc::{AllocError, Global};
use tl_bits::Bits;
use tl_layout::Pieces;

/// No more words are kept.
pub const KEPT_LIMIT: usize = 1 << 22;

/// Random words with those of the first times kept. It takes all its memory when it is made.
#[derive(Drop)]
pub struct Kept<B: Bits> {
    pub bits: B,
    // the number of words of a time
    words: usize,
    // how many times there is room for, and how many are kept
    room: u64,
    times: u64,
    kept: Vec<u32>,
    // one time that is not kept, with four words before and four behind
    single: Vec<u32>,
    ghost same_words: { words ≡ B.words bits },
    ghost few_words: { B.words bits ≤ 2 ^ 15 },
    ghost room_within: { room ≤ 2 ^ 30 },
    ghost times_within: { times ≤ room },
    ghost capacity: { 4 + room * words + 4 ≤ vec_capacity kept },
    ghost are_kept: { AreKept words times (B.word_at bits) kept.items },
    ghost single_size: { length single.items ≡ words + 8 },
}

// Appends zeros, for which there is room.
fn push_zeros(kept: &mut Vec<u32>, count: usize)
    requires { vec_len kept.old + count ≤ vec_capacity kept.old }
    ensures items { kept.new.items ≡ kept.old.items ++ replicate count 0 }
    ensures capacity { vec_capacity kept.new ≡ vec_capacity kept.old }
{
    for _ in 0..count {
        kept.push_reserved(0);
    }
}

// Appends the words of a time, for which there is room.
fn push_time<B: Bits>(bits: &mut B, time: u64, words: usize, kept: &mut Vec<u32>)
    requires first_time { 1 ≤ time }
    requires last_time { time ≤ 2 ^ 30 }
    requires all { words ≡ B.words bits.old }
    requires few { words ≤ 2 ^ 15 }
    requires room { vec_len kept.old + words ≤ vec_capacity kept.old }
    ensures items { kept.new.items ≡ kept.old.items ++ map (B.word_at bits.old time) (range_with_len 0 words) }
    ensures capacity { vec_capacity kept.new ≡ vec_capacity kept.old }
    ensures same_words { B.words bits.new ≡ B.words bits.old }
    ensures same_function { B.word_at bits.new ≡ B.word_at bits.old }
{
    for w in 0..words {
        kept.push_reserved(bits.word(time, w as u32));
    }
}

// Appends the words of the times behind the first so many, up to the last.
fn push_times<B: Bits>(bits: &mut B, times: u64, last: u64, words: usize, kept: &mut Vec<u32>)
    requires further { times ≤ last }
    requires last_time { last ≤ 2 ^ 30 }
    requires all { words ≡ B.words bits.old }
    requires few { words ≤ 2 ^ 15 }
    requires room { 4 + last * words ≤ vec_capacity kept.old }
    requires begun { AreBegun words times (B.word_at bits.old) kept.old.items }
    ensures begun { AreBegun words last (B.word_at bits.old) kept.new.items }
    ensures capacity { vec_capacity kept.new ≡ vec_capacity kept.old }
    ensures same_words { B.words bits.new ≡ B.words bits.old }
    ensures same_function { B.word_at bits.new ≡ B.word_at bits.old }
{
    for time in times..last {
        push_time(bits, time + 1, words, kept);
    }
}

// Keeps the words of the times up to the last, where those of the first so many are kept.
fn keep_times<B: Bits>(bits: &mut B, times: u64, last: u64, words: usize, kept: &mut Vec<u32>)
    requires further { times ≤ last }
    requires last_time { last ≤ 2 ^ 30 }
    requires all { words ≡ B.words bits.old }
    requires few { words ≤ 2 ^ 15 }
    requires room { 4 + last * words + 4 ≤ vec_capacity kept.old }
    requires kept { AreKept words times (B.word_at bits.old) kept.old.items }
    ensures kept { AreKept words last (B.word_at bits.old) kept.new.items }
    ensures capacity { vec_capacity kept.new ≡ vec_capacity kept.old }
    ensures same_words { B.words bits.new ≡ B.words bits.old }
    ensures same_function { B.word_at bits.new ≡ B.word_at bits.old }
{
    kept.truncate(4 + times as usize * words);
    push_times(bits, times, last, words, kept);
    push_zeros(kept, 4);
}

// Reads the words of a time.
fn read_words<B: Bits>(bits: &mut B, time: u64, words: &mut [u32])
    requires first_time { 1 ≤ time }
    requires last_time { time ≤ 2 ^ 30 }
    requires all { length words.old ≡ B.words bits.old }
    requires few { B.words bits.old ≤ 2 ^ 15 }
    ensures read { (w : ℕ) → w < length words.new → slice_index words.new w ≡ B.word_at bits.old time w }
    ensures same_words { B.words bits.new ≡ B.words bits.old }
    ensures same_function { B.word_at bits.new ≡ B.word_at bits.old }
{
    for (w, word) in words.iter_mut().enumerate() {
        *word = bits.word(time, w as u32);
    }
}

// Reads the words of a time, behind four others and before four.
fn read_single<B: Bits>(bits: &mut B, time: u64, words: usize, raw: &mut [u32])
    requires first_time { 1 ≤ time }
    requires last_time { time ≤ 2 ^ 30 }
    requires all { words ≡ B.words bits.old }
    requires few { words ≤ 2 ^ 15 }
    requires size { length raw.old ≡ words + 8 }
    ensures read { HasTime words (B.word_at bits.old time) raw.new }
    ensures same_words { B.words bits.new ≡ B.words bits.old }
    ensures same_function { B.word_at bits.new ≡ B.word_at bits.old }
{
    read_words(bits, time, &mut raw[4..4 + words]);
}

// Puts the bits of words that were read for a time into their slots.
fn lay_out_words(pieces: &Pieces, raw: &[u32], coins: &mut [u64])
    requires words { length raw.now ≡ pieces.now.words + 8 }
    requires coins { length coins.old ≡ pieces.now.size }
    ensures { (R : Region) (l : Layout) (word_at : ℕ → ℕ → ℕ) (time : ℕ) → ArePiecesOf R l pieces.now
        → HasTime pieces.now.words (word_at time) raw.now → HasCoins R l.height l.first (bit_at word_at time) coins.new }
{
    pieces.lay_out(raw, coins);
}

impl<B: Bits> Kept<B> {
    /// Keeps the words of these bits, which have so many words in each time.
    ///
    /// # Errors
    /// Want of memory.
    pub fn new(alloc: Global, bits: B, words: u32) -> Result<Kept<B>, AllocError>
        requires words { words ≡ B.words bits }
        requires few { words ≤ 2 ^ 15 }
        ensures { IfOk result (λ kept. kept.bits ≡ bits) }
    {
        let words = words as usize;
        let room = KEPT_LIMIT / words.max(1);
        let mut kept = Vec::with_capacity(alloc, 4 + room * words + 4)?;
        push_zeros(&mut kept, 8);
        let single = vec![in alloc; 0u32; words + 8]?;
        Ok(Kept {
            bits,
            words,
            room: room as u64,
            times: 0,
            kept,
            single,
        })
    }

    /// Sets other bits. Nothing of the old ones is kept.
    pub fn set_bits(&mut self, bits: B)
        requires words { B.words bits ≡ B.words self.old.bits }
        ensures { self.new.bits ≡ bits }
    {
        self.bits = bits;
        self.times = 0;
        // It doesn't matter which words stand before and behind the kept times.
        self.kept.truncate(8);
    }

    /// Keeps the words of the times from -1 to this one, as far as there is room.
    pub fn keep(&mut self, last: u64)
        requires last { last ≤ 2 ^ 30 }
        ensures same_words { B.words self.new.bits ≡ B.words self.old.bits }
        ensures same_function { B.word_at self.new.bits ≡ B.word_at self.old.bits }
    {
        let last = last.min(self.room);
        if last > self.times {
            keep_times(&mut self.bits, self.times, last, self.words, &mut self.kept);
            self.times = last;
        }
    }

    /// Puts the bit of each inner corner at time `-time` into its slot. What comes into other slots is not told.
    pub fn lay_out(&mut self, pieces: &Pieces, time: u64, coins: &mut [u64])
        requires first_time { 1 ≤ time }
        requires last_time { time ≤ 2 ^ 30 }
        requires words { pieces.now.words ≡ B.words self.old.bits }
        requires coins { length coins.old ≡ pieces.now.size }
        ensures same_words { B.words self.new.bits ≡ B.words self.old.bits }
        ensures same_function { B.word_at self.new.bits ≡ B.word_at self.old.bits }
        ensures size { length coins.new ≡ length coins.old }
        ensures laid { (R : Region) (l : Layout) → ArePiecesOf R l pieces.now
            → HasCoins R l.height l.first (bit_at (B.word_at self.old.bits) time) coins.new }
    {
        if time <= self.times {
            let start = (time as usize - 1) * self.words;
            lay_out_words(pieces, &self.kept[start..start + self.words + 8], coins);
        } else {
            read_single(&mut self.bits, time, self.words, &mut self.single);
            lay_out_words(pieces, &self.single, coins);
        }
    }
}
