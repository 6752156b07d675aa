//! The chain of packed tilings.

ghost use Rattle.std.specs.Prelude.{◌≡◌, ◌^◌, ◌≤◌, List, ℤ, length, IfOk};
ghost use Rattle.tl_definitions.specs.Region.{Region, inner_corners};
ghost use Rattle.tl_definitions.specs.Accepted.{Accepted};
ghost use Rattle.tl_bits.specs.Bits.{bit_at, words_for};
ghost use Rattle.tl_lawful.specs.Order.{AreGreatest, AreLeast};
ghost use Rattle.tl_layout.specs.Layouts.{size_of};
ghost use Rattle.tl_layout.specs.Coins.{ArePiecesOf};
ghost use Rattle.tl_packed.specs.OfClasses.{AreOfLayout};
ghost use Rattle.tl_packed.specs.Packs.{HoldEnds};
ghost use Rattle.tl_string_sweep.specs.Slots.{AreSlots};
ghost use Rattle.tl_coupling.specs.Carried.{carried_numbers};
ghost use Rattle.tl_coupling.specs.Laws.{AreGreatest-prop, AreLeast-prop};
ghost use Rattle.tl_packed_chain.specs.PackedTilings.{packed_tilings};
ghost use Rattle.tl_packed_chain.specs.Laws.{IsLawfulChain-packed};
ghost use Rattle.tl_packed_chain.specs.Ready.{IsReady};

use std::alloc::{AllocError, Global};
use tl_bits::Bits;
use tl_chain::Chain;
use tl_coupling::words_of;
use tl_height::Heights;
use tl_kept::Kept;
use tl_layout::{Layout, Pieces};
use tl_packed::{Packed, Strings, join_ends, part_ends};
use tl_string_sweep::{Slots, sweep_both};

/// The chain of the tilings of one region, by packed tilings. It means what the chain over their heights means: at each
/// time all inner corners are swept with the bits of that time.
#[derive(Drop)]
pub struct PackedChain<'a, B: Bits> {
    low: Packed<'a>,
    high: Packed<'a>,
    slots: Slots,
    pieces: Pieces,
    kept: Kept<B>,
    // room for both ends, and for the coins of one time
    both: Strings,
    coins: Vec<u64>,
    ghost one_layout: { high.layout ≡ low.layout },
    ghost one_region: { high.heights.region ≡ low.heights.region },
    ghost bottom: { AreLeast low.heights.region low.heights.numbers } by { AreLeast-prop low.heights.region low.heights.numbers },
    ghost top: { AreGreatest low.heights.region high.heights.numbers } by { AreGreatest-prop low.heights.region high.heights.numbers },
    ghost accepted: { ∥ Accepted low.heights.region ∥₁ },
    ghost slots_of: { ∥ AreSlots low.heights.region low.layout slots ∥₁ },
    ghost pieces_of: { ∥ ArePiecesOf low.heights.region low.layout pieces ∥₁ },
    ghost enough_words: { B.words kept.bits ≡ words_for (length (inner_corners low.heights.region)) },
    ghost both_size: { AreOfLayout low.layout both },
    ghost coins_size: { length coins.items ≡ size_of low.layout },
}

// Sweeps both ends at the times from the start to time -1.
fn carry<B: Bits>(
    layout: &Layout,
    slots: &Slots,
    pieces: &Pieces,
    kept: &mut Kept<B>,
    coins: &mut [u64],
    both: &mut Strings,
    from: u64,
)
    requires height { 1 ≤ layout.now.height }
    requires lows { AreOfLayout layout.now slots.now.lows }
    requires free { AreOfLayout layout.now slots.now.free }
    requires words { pieces.now.words ≡ B.words kept.old.bits }
    requires size { pieces.now.size ≡ size_of layout.now }
    requires coins { length coins.old ≡ size_of layout.now }
    requires both { AreOfLayout layout.now both.old }
    requires in_range { from ≤ 2 ^ 30 }
    ensures same_words { B.words kept.new.bits ≡ B.words kept.old.bits }
    ensures same_function { B.word_at kept.new.bits ≡ B.word_at kept.old.bits }
    ensures coins { length coins.new ≡ size_of layout.now }
    ensures both { AreOfLayout layout.now both.new }
    ensures carried { (R : Region) → IsReady R layout.now slots.now pieces.now → (low high : List ℤ)
        → HoldEnds R layout.now both.old low high
        → HoldEnds R layout.now both.new (carried_numbers R (bit_at (B.word_at kept.old.bits)) from low)
        (carried_numbers R (bit_at (B.word_at kept.old.bits)) from high) }
{
    kept.keep(from);
    for earlier in (0..from).rev() {
        kept.lay_out(pieces, earlier + 1, coins);
        sweep_both(layout, slots, coins, both);
    }
}

impl<'a, B: Bits> PackedChain<'a, B> {
    /// The chain of the tilings of the region of which these are the bottom and the top tiling.
    ///
    /// # Errors
    /// Want of memory.
    pub fn new(
        alloc: Global,
        low: &Heights<'a>,
        high: &Heights<'a>,
        bits: B,
    ) -> Result<PackedChain<'a, B>, AllocError>
        requires one_region { high.now.region ≡ low.now.region }
        requires bottom { AreLeast low.now.region low.now.numbers }
        requires top { AreGreatest low.now.region high.now.numbers }
        requires words { B.words bits ≡ words_for (length (inner_corners low.now.region)) }
        ensures low { IfOk result (λ chain. chain.low.heights ≡ low.now) }
        ensures high { IfOk result (λ chain. chain.high.heights ≡ high.now) }
        ensures bits { IfOk result (λ chain. chain.kept.bits ≡ bits) }
    {
        let region = low.region();
        let layout = Layout::of(region);
        let words = words_of(low);
        Ok(PackedChain {
            low: Packed::of(alloc, low, layout)?,
            high: Packed::of(alloc, high, layout)?,
            slots: Slots::of(alloc, region, &layout)?,
            pieces: Pieces::of(alloc, region, &layout)?,
            kept: Kept::new(alloc, bits, words)?,
            both: Strings::new(alloc, &layout)?,
            coins: vec![in alloc; 0u64; layout.size()]?,
        })
    }

    /// Sets other bits.
    pub fn set_bits(&mut self, bits: B)
        requires { B.words bits ≡ words_for (length (inner_corners self.old.low.heights.region)) }
        ensures low { self.new.low ≡ self.old.low }
        ensures high { self.new.high ≡ self.old.high }
        ensures bits { self.new.kept.bits ≡ bits }
    {
        self.kept.set_bits(bits);
    }

    /// A state of the chain: its bottom tiling.
    ///
    /// # Errors
    /// Want of memory.
    pub fn state(&self, alloc: Global) -> Result<Packed<'a>, AllocError>
        ensures { IfOk result (λ state. state ≡ self.now.low) }
    {
        self.low.copy(alloc)
    }
}

impl<'a, B: Bits> Chain for PackedChain<'a, B> {
    type State = Packed<'a>;

    ghost meaning = { λ chain. packed_tilings chain.low chain.high (bit_at (B.word_at chain.kept.bits)) };

    ghost laws = { λ chain. IsLawfulChain-packed chain.low chain.high (bit_at (B.word_at chain.kept.bits))
        chain.one_layout chain.one_region chain.bottom chain.top chain.accepted };

    fn ends(&mut self, low: &mut Packed<'a>, high: &mut Packed<'a>) {
        low.copy_from(&self.low);
        high.copy_from(&self.high);
    }

    fn stretch(&mut self, low: &mut Packed<'a>, high: &mut Packed<'a>, from: u64) {
        let layout = low.layout();
        join_ends(low, high, &mut self.both);
        carry(
            &layout,
            &self.slots,
            &self.pieces,
            &mut self.kept,
            &mut self.coins,
            &mut self.both,
            from,
        );
        part_ends(&self.both, &self.slots.lows, low, high);
    }

    fn same(&self, low: &Packed<'a>, high: &Packed<'a>) -> bool {
        low.is_same(high, &self.slots.lows)
    }
}
