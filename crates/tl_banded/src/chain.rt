//! The chain of packed tilings, swept by hands.

ghost use Rattle.std.specs.Prelude.{◌≡◌, ℕ, ◌+◌, ◌≤◌, ◌^◌, ◌↔◌, All, IfOk, IsTrue, length};
ghost use Rattle.tl_definitions.specs.Region.{inner_corners};
ghost use Rattle.tl_bits.specs.Bits.{bit_at, words_for};
ghost use Rattle.tl_bits.specs.Sources.{numbered_word};
ghost use Rattle.tl_lawful.specs.Order.{AreGreatest, AreLeast};
ghost use Rattle.tl_chain.specs.Chain.{AllCarriedTo, ChainGathers, IsChainLate, IsChainStart};
ghost use Rattle.tl_packed.specs.OfClasses.{AreOfLayout};
ghost use Rattle.tl_crew.specs.Bands.{AreSharesIn};
ghost use Rattle.tl_crew.specs.Hands.{AreCoinsOf, numbering};
ghost use Rattle.tl_banded.specs.Banded.{AreCoins-prop, AreShares-prop, sampled};

use crate::carry::{Company, Ground, carry};
use std::alloc::{AllocError, Global};
use std::sync::Wait;
use std::thread::Threads;
use tl_bands::Cut;
use tl_bits::Numbered;
use tl_chain::{Chain, Drawn};
use tl_coupling::words_of;
use tl_crew::{Hand, deal, hands_of};
use tl_height::Heights;
use tl_io::Gate;
use tl_packed::{Packed, Strings, join_ends, part_ends};
use tl_packed_chain::PackedChain;
use tl_string_sweep::Slots;

/// The chain of the tilings of one region by the bits of a sample, whose rows hands sweep beside each other. It means what the
/// chain of packed tilings means.
#[derive(Drop)]
pub struct BandedChain<'a, R: Threads + Wait> {
    company: Company<'a, R>,
    ground: Ground<'a>,
    // sweeps the stretches for whose borders there is no memory
    plain: PackedChain<'a, Numbered>,
    seed: u64,
    sample: u32,
    words: u32,
    bits: Numbered,
    hands: Vec<Hand<Numbered>>,
    // both ends at the start of a stretch, and after it
    start: Strings,
    both: Strings,
    ghost one_region: { ground.region.now ≡ plain.low.heights.region },
    ghost one_layout: { ground.layout ≡ plain.low.layout },
    ghost enough_words: { words ≡ words_for (length (inner_corners ground.region.now)) },
    ghost numbered: { bits ≡ numbering seed sample words },
    ghost few_hands: { length hands.items ≤ 64 },
    ghost shares: { AreSharesIn (λ hand. hand.share) ground.layout hands.items } by { AreShares-prop (λ hand. hand.share) ground.layout hands.items },
    ghost coins: { All (λ hand. AreCoinsOf ground.region.now ground.layout (bit_at (numbered_word bits))
        hand.coins.pieces hand.coins.kept.bits.words (numbered_word hand.coins.kept.bits)) hands.items } by { AreCoins-prop ground.region.now ground.layout (bit_at (numbered_word bits)) (λ hand. hand.coins.pieces) (λ hand. hand.coins.kept.bits.words)
            (λ hand. numbered_word hand.coins.kept.bits) hands.items },
    ghost start_size: { AreOfLayout ground.layout start },
    ghost both_size: { AreOfLayout ground.layout both },
}

impl<'a, R: Threads + Wait + Sync> BandedChain<'a, R> {
    /// The chain of the tilings of the region of which these are the bottom and the top tiling. Its rows of corners are cut into
    /// bands for the hands.
    ///
    /// # Errors
    /// Want of memory.
    pub fn new(
        company: Company<'a, R>,
        low: &Heights<'a>,
        high: &Heights<'a>,
        cut: &Cut,
    ) -> Result<BandedChain<'a, R>, AllocError>
        requires one_region { high.now.region ≡ low.now.region }
        requires bottom { AreLeast low.now.region low.now.numbers }
        requires top { AreGreatest low.now.region high.now.numbers }
        requires rows { cut.now.rows ≡ low.now.region.rows + 1 }
        ensures low { IfOk result (λ chain. chain.plain.low.heights ≡ low.now) }
        ensures high { IfOk result (λ chain. chain.plain.high.heights ≡ high.now) }
    {
        let alloc = company.alloc;
        let region = low.region();
        let words = words_of(low);
        let plain = PackedChain::new(alloc, low, high, Numbered::new(0, 0, words))?;
        let bottom = plain.state(alloc)?;
        let layout = bottom.layout();
        let first = Numbered::new(0, 0, words);
        let second = Numbered::new(0, 0, words);
        let hands = hands_of(alloc, region, &layout, cut, first, second, words)?;
        Ok(BandedChain {
            plain,
            seed: 0,
            sample: 0,
            words,
            bits: Numbered::new(0, 0, words),
            hands,
            start: Strings::new(alloc, &layout)?,
            both: Strings::new(alloc, &layout)?,
            ground: Ground {
                region,
                layout,
                slots: Slots::of(alloc, region, &layout)?,
            },
            company,
        })
    }

    /// Sets the bits of the sample of this seed and number.
    pub fn set_sample(&mut self, seed: u64, sample: u32)
        ensures low { self.new.plain.low ≡ self.old.plain.low }
        ensures high { self.new.plain.high ≡ self.old.plain.high }
        ensures bits { self.new.bits ≡ numbering seed sample self.old.words }
        ensures words { self.new.words ≡ self.old.words }
    {
        deal(&mut self.hands, seed, sample, self.words);
        self.bits = Numbered::new(seed, sample, self.words);
        self.seed = seed;
        self.sample = sample;
    }

    /// A state of the chain: its bottom tiling.
    ///
    /// # Errors
    /// Want of memory.
    pub fn state(&self, alloc: Global) -> Result<Packed<'a>, AllocError>
        ensures { IfOk result (λ state. state ≡ self.now.plain.low) }
    {
        self.plain.state(alloc)
    }

    // The same on the calling thread.
    fn stretch_alone(&mut self, low: &mut Packed<'a>, high: &mut Packed<'a>, from: u64)
        requires low_belongs { (sampled self.old.plain.low self.old.plain.high self.old.bits).belongs low.old }
        requires high_belongs { (sampled self.old.plain.low self.old.plain.high self.old.bits).belongs high.old }
        requires low_lawful { (sampled self.old.plain.low self.old.plain.high self.old.bits).lawful low.old }
        requires high_lawful { (sampled self.old.plain.low self.old.plain.high self.old.bits).lawful high.old }
        requires below { (sampled self.old.plain.low self.old.plain.high self.old.bits).below low.old high.old }
        requires at_least_1 { 1 ≤ from }
        requires in_range { from ≤ 2 ^ 30 }
        ensures low { low.new ≡ (sampled self.old.plain.low self.old.plain.high self.old.bits).carried low.old from }
        ensures high { high.new ≡ (sampled self.old.plain.low self.old.plain.high self.old.bits).carried high.old from }
        ensures low_belongs { (sampled self.old.plain.low self.old.plain.high self.old.bits).belongs low.new }
        ensures high_belongs { (sampled self.old.plain.low self.old.plain.high self.old.bits).belongs high.new }
        ensures bottom { self.new.plain.low ≡ self.old.plain.low }
        ensures top { self.new.plain.high ≡ self.old.plain.high }
        ensures bits { self.new.bits ≡ self.old.bits }
    {
        self.plain
            .set_bits(Numbered::new(self.seed, self.sample, self.words));
        self.plain.stretch(low, high, from);
    }

    // Carries both ends from the time -from to time 0.
    fn stretch(
        &mut self,
        gate: &(dyn Gate + Sync),
        low: &mut Packed<'a>,
        high: &mut Packed<'a>,
        from: u64,
    )
        requires low_belongs { (sampled self.old.plain.low self.old.plain.high self.old.bits).belongs low.old }
        requires high_belongs { (sampled self.old.plain.low self.old.plain.high self.old.bits).belongs high.old }
        requires low_lawful { (sampled self.old.plain.low self.old.plain.high self.old.bits).lawful low.old }
        requires high_lawful { (sampled self.old.plain.low self.old.plain.high self.old.bits).lawful high.old }
        requires below { (sampled self.old.plain.low self.old.plain.high self.old.bits).below low.old high.old }
        requires at_least_1 { 1 ≤ from }
        requires in_range { from ≤ 2 ^ 30 }
        ensures low { low.new ≡ (sampled self.old.plain.low self.old.plain.high self.old.bits).carried low.old from }
        ensures high { high.new ≡ (sampled self.old.plain.low self.old.plain.high self.old.bits).carried high.old from }
        ensures low_belongs { (sampled self.old.plain.low self.old.plain.high self.old.bits).belongs low.new }
        ensures high_belongs { (sampled self.old.plain.low self.old.plain.high self.old.bits).belongs high.new }
        ensures bottom { self.new.plain.low ≡ self.old.plain.low }
        ensures top { self.new.plain.high ≡ self.old.plain.high }
        ensures bits { self.new.bits ≡ self.old.bits }
    {
        // the call tells that the region is accepted
        let _layout = low.layout();
        join_ends(low, high, &mut self.start);
        let carried = carry(
            &self.company,
            gate,
            self.sample,
            &self.ground,
            &self.bits,
            &self.start,
            from,
            &mut self.hands,
            &mut self.both,
        );
        match carried {
            Ok(()) => part_ends(&self.both, self.ground.lows(), low, high),
            Err(AllocError) => self.stretch_alone(low, high, from),
        }
    }

    // Carries the two ends of the chain from the start `from` to time 0, and tells whether the start gathers.
    fn gathers(
        &mut self,
        gate: &(dyn Gate + Sync),
        low: &mut Packed<'a>,
        high: &mut Packed<'a>,
        from: u64,
    ) -> bool
        requires low_belongs { (sampled self.old.plain.low self.old.plain.high self.old.bits).belongs low.old }
        requires high_belongs { (sampled self.old.plain.low self.old.plain.high self.old.bits).belongs high.old }
        requires at_least_1 { 1 ≤ from }
        requires in_range { from ≤ 2 ^ 30 }
        ensures gathers { IsTrue result ↔ ChainGathers (sampled self.old.plain.low self.old.plain.high self.old.bits) from }
        ensures gathered { IsTrue result → AllCarriedTo (sampled self.old.plain.low self.old.plain.high self.old.bits) from low.new }
        ensures low_lawful { (sampled self.old.plain.low self.old.plain.high self.old.bits).lawful low.new }
        ensures low_belongs { (sampled self.old.plain.low self.old.plain.high self.old.bits).belongs low.new }
        ensures high_belongs { (sampled self.old.plain.low self.old.plain.high self.old.bits).belongs high.new }
        ensures bottom { self.new.plain.low ≡ self.old.plain.low }
        ensures top { self.new.plain.high ≡ self.old.plain.high }
        ensures bits { self.new.bits ≡ self.old.bits }
    {
        self.plain.ends(low, high);
        self.stretch(gate, low, high, from);
        self.plain.same(low, high)
    }

    /// Looks for the least of the starts 1, 2, 4, .., `2^bound` from which all lawful states are carried to one state, as `draw`
    /// does for a chain that one thread sweeps.
    ///
    /// `At` gives this start, and `low` then holds that state. `Late` comes exactly where there is no such start. It may draw
    /// again after either. The gate is told of each class that a hand has swept.
    pub fn draw(
        &mut self,
        gate: &(dyn Gate + Sync),
        low: &mut Packed<'a>,
        high: &mut Packed<'a>,
        bound: u32,
    ) -> Drawn
        requires bound_in_range { bound ≤ 30 }
        requires low_belongs { (sampled self.old.plain.low self.old.plain.high self.old.bits).belongs low.old }
        requires high_belongs { (sampled self.old.plain.low self.old.plain.high self.old.bits).belongs high.old }
        ensures at { (T : ℕ) → (result ≡ Drawn.At T) ↔ IsChainStart (sampled self.old.plain.low self.old.plain.high self.old.bits) bound T }
        ensures late { (result ≡ Drawn.Late) ↔ IsChainLate (sampled self.old.plain.low self.old.plain.high self.old.bits) bound }
        ensures gathered { (T : ℕ) → result ≡ Drawn.At T → AllCarriedTo (sampled self.old.plain.low self.old.plain.high self.old.bits) T low.new }
        ensures low_lawful { (sampled self.old.plain.low self.old.plain.high self.old.bits).lawful low.new }
        ensures low_belongs { (sampled self.old.plain.low self.old.plain.high self.old.bits).belongs low.new }
        ensures high_belongs { (sampled self.old.plain.low self.old.plain.high self.old.bits).belongs high.new }
        ensures bottom { self.new.plain.low ≡ self.old.plain.low }
        ensures top { self.new.plain.high ≡ self.old.plain.high }
        ensures bits { self.new.bits ≡ self.old.bits }
    {
        for exponent in 0..=bound {
            let from = 1 << exponent;
            if self.gathers(gate, low, high, from) {
                return Drawn::At(from);
            }
        }
        Drawn::Late
    }
}
