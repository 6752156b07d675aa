//! The chain of the tilings of one region.

ghost use Rattle.std.specs.Prelude.{◌≡◌, ◌↔◌, ◌≤◌, ◌<◌, ◌^◌, ℕ, Bool, if◌then◌else◌, length, slice_index, IfOk, IsTrue};
ghost use Rattle.tl_definitions.specs.Region.{inner_corners};
ghost use Rattle.tl_definitions.specs.Accepted.{Accepted};
ghost use Rattle.tl_bits.specs.Bits.{bit_at, words_for};
ghost use Rattle.tl_lawful.specs.Order.{AreGreatest, AreLeast};
ghost use Rattle.tl_sweep.specs.Sweeps.{bit_in, HasWordsFor};
ghost use Rattle.tl_coupling.specs.Carried.{swept, tilings, AgreeWithin};
ghost use Rattle.tl_coupling.specs.Laws.{AreGreatest-prop, AreLeast-prop, IsLawfulChain-tilings};

use std::alloc::{AllocError, Global};
use tl_bits::Bits;
use tl_chain::Chain;
use tl_height::Heights;
use tl_sweep::sweep;

/// The chain of the tilings of one region, by their heights. At each time all inner corners are swept with the bits of
/// that time.
#[derive(Drop)]
pub struct TilingChain<'a, B: Bits> {
    low: Heights<'a>,
    high: Heights<'a>,
    bits: B,
    // room for the words of one time
    words: Vec<u32>,
    ghost one_region: { high.region ≡ low.region },
    ghost bottom: { AreLeast low.region low.numbers } by { AreLeast-prop low.region low.numbers },
    ghost top: { AreGreatest low.region high.numbers } by { AreGreatest-prop low.region high.numbers },
    ghost accepted: { ∥ Accepted low.region ∥₁ },
    ghost few_words: { B.words bits ≤ 2 ^ 15 },
    ghost enough_words: { B.words bits ≡ words_for (length (inner_corners low.region)) },
    ghost room: { length words.items ≡ words_for (length (inner_corners low.region)) },
}

/// How many words of 32 bits serve the inner corners of the region of these heights.
pub fn words_of(heights: &Heights) -> u32
    ensures words { result ≡ words_for (length (inner_corners heights.now.region)) }
    ensures few { result ≤ 2 ^ 15 }
    ensures accepted { Accepted heights.now.region }
{
    heights.region().inner_count().div_ceil(32)
}

// Reads the words of a time.
fn read_words<B: Bits>(bits: &mut B, time: u64, words: &mut [u32])
    requires first_time { 1 ≤ time }
    requires last_time { time ≤ 2 ^ 30 }
    requires all { length words.old ≡ B.words bits.old }
    requires few { B.words bits.old ≤ 2 ^ 15 }
    ensures read { (w : ℕ) → w < length words.new → slice_index words.new w ≡ B.word_at bits.old time w }
    ensures same_words { B.words bits.new ≡ B.words bits.old }
    ensures same_function { B.word_at bits.new ≡ B.word_at bits.old }
{
    for (w, word) in words.iter_mut().enumerate() {
        *word = bits.word(time, w as u32);
    }
}

// Whether the two have the same numbers.
fn have_same_numbers(low: &Heights, high: &Heights) -> bool
    ensures { IsTrue result ↔ (low.now.numbers ≡ high.now.numbers) }
{
    low.numbers() == high.numbers()
}

// Sweeps the heights with the bits of these words.
fn sweep_by(heights: &mut Heights, words: &[u32])
    requires words { HasWordsFor heights.old.region words.now }
    ensures region { heights.new.region ≡ heights.old.region }
    ensures swept { (bits : ℕ → Bool) → AgreeWithin (length (inner_corners heights.old.region)) (bit_in words.now) bits
        → heights.new.numbers ≡ swept heights.old.region bits heights.old.numbers }
{
    // the call tells that the region is accepted and the heights are lawful
    let _region = heights.region();
    sweep(heights, words);
}

// Sweeps the low heights, and the high ones where the two have not met: where they have, the low ones stand for both. Tells
// whether they have met, if it is to compare them.
fn sweep_both(
    low: &mut Heights,
    high: &mut Heights,
    words: &[u32],
    met: bool,
    compares: bool,
) -> bool
    requires one_region { high.old.region ≡ low.old.region }
    requires words { HasWordsFor low.old.region words.now }
    ensures low_region { low.new.region ≡ low.old.region }
    ensures high_region { high.new.region ≡ low.old.region }
    ensures low { (bits : ℕ → Bool) → AgreeWithin (length (inner_corners low.old.region)) (bit_in words.now) bits
        → low.new.numbers ≡ swept low.old.region bits low.old.numbers }
    ensures high { (bits : ℕ → Bool) → AgreeWithin (length (inner_corners low.old.region)) (bit_in words.now) bits
        → (if result then low.new.numbers else high.new.numbers)
        ≡ swept low.old.region bits (if met then low.old.numbers else high.old.numbers) }
{
    sweep_by(low, words);
    if met {
        return true;
    }
    sweep_by(high, words);
    compares && have_same_numbers(low, high)
}

impl<'a, B: Bits> TilingChain<'a, B> {
    /// The chain of the tilings of the region of which these are the bottom and the top tiling.
    ///
    /// # Errors
    /// Want of memory.
    pub fn new(
        alloc: Global,
        low: Heights<'a>,
        high: Heights<'a>,
        bits: B,
    ) -> Result<TilingChain<'a, B>, AllocError>
        requires one_region { high.region ≡ low.region }
        requires bottom { AreLeast low.region low.numbers }
        requires top { AreGreatest low.region high.numbers }
        requires words { B.words bits ≡ words_for (length (inner_corners low.region)) }
        ensures low { IfOk result (λ chain. chain.low ≡ low.entry) }
        ensures high { IfOk result (λ chain. chain.high ≡ high.entry) }
        ensures bits { IfOk result (λ chain. chain.bits ≡ bits) }
    {
        let words = vec![in alloc; 0u32; words_of(&low) as usize]?;
        Ok(TilingChain {
            low,
            high,
            bits,
            words,
        })
    }

    /// Sets other bits.
    pub fn set_bits(&mut self, bits: B)
        requires { B.words bits ≡ words_for (length (inner_corners self.old.low.region)) }
        ensures low { self.new.low ≡ self.old.low }
        ensures high { self.new.high ≡ self.old.high }
        ensures bits { self.new.bits ≡ bits }
    {
        self.bits = bits;
    }
}

impl<'a, B: Bits> Chain for TilingChain<'a, B> {
    type State = Heights<'a>;

    ghost meaning = { λ chain. tilings chain.low chain.high (bit_at (B.word_at chain.bits)) };

    ghost laws = { λ chain. IsLawfulChain-tilings chain.low chain.high (bit_at (B.word_at chain.bits))
        chain.one_region chain.bottom chain.top chain.accepted };

    fn ends(&mut self, low: &mut Heights<'a>, high: &mut Heights<'a>) {
        low.copy_from(&self.low);
        high.copy_from(&self.high);
    }

    fn stretch(&mut self, low: &mut Heights<'a>, high: &mut Heights<'a>, from: u64) {
        let mut met = false;
        for earlier in (0..from).rev() {
            let time = earlier + 1;
            read_words(&mut self.bits, time, &mut self.words);
            // They are compared at few times, as that reads all heights.
            met = sweep_both(low, high, &self.words, met, time.is_power_of_two());
        }
        if met {
            high.copy_from(low);
        }
    }

    fn same(&self, low: &Heights<'a>, high: &Heights<'a>) -> bool {
        have_same_numbers(low, high)
    }
}
