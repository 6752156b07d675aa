//! Both ends carried through a stretch by hands.

ghost use Rattle.std.specs.Prelude.{◌≡◌, ◌≤◌, ◌^◌, All, List, ℤ, OnOk, length};
ghost use Rattle.tl_definitions.specs.Accepted.{Accepted};
ghost use Rattle.tl_bits.specs.Bits.{bit_at};
ghost use Rattle.tl_layout.specs.Layouts.{IsLayoutOf};
ghost use Rattle.tl_packed.specs.OfClasses.{AreOfLayout};
ghost use Rattle.tl_packed.specs.Packs.{HoldEnds};
ghost use Rattle.tl_string_sweep.specs.Slots.{AreSlots};
ghost use Rattle.tl_coupling.specs.Carried.{carried_numbers};
ghost use Rattle.tl_crew.specs.Bands.{AreSharesIn};
ghost use Rattle.tl_crew.specs.Hands.{AreCoinsOf};

use std::alloc::{AllocError, Global};
use std::sync::Wait;
use std::thread::Threads;
use tl_band::Stretch;
use tl_bits::Bits;
use tl_courses::{classes_in_turn, coins_of_a_region};
use tl_crew::{Hand, sweep_by_hands};
use tl_io::Gate;
use tl_layout::Layout;
use tl_packed::Strings;
use tl_region::Region;
use tl_string_sweep::Slots;

/// What hands work with: the threads and the memory that they get, as hands of this worker.
#[derive(Drop)]
pub struct Company<'a, R: Threads + Wait> {
    pub rt: &'a R,
    pub alloc: Global,
    pub worker: u32,
}

/// A region, and where its inner corners stand in strings of bits.
#[derive(Drop)]
pub(crate) struct Ground<'a> {
    pub(crate) region: &'a Region,
    pub(crate) layout: Layout,
    pub(crate) slots: Slots,
    ghost slots_of: { ∥ AreSlots region.now layout slots ∥₁ },
}

impl<'a> Ground<'a> {
    /// The slots of the inner corners.
    pub(crate) fn lows(&self) -> &Strings
        ensures { result.now ≡ self.now.slots.lows }
    {
        &self.slots.lows
    }
}

/// Carries both ends, which the strings at the start hold, from the time `-from` to time 0, by hands that sweep beside each
/// other. The gate is told the number of the sample.
///
/// # Errors
/// Want of memory for the borders. Nothing is swept then.
pub(crate) fn carry<R: Threads + Wait + Sync, B: Bits + Send + Sync>(
    company: &Company<'_, R>,
    gate: &(dyn Gate + Sync),
    sample: u32,
    ground: &Ground<'_>,
    bits: &B,
    start: &Strings,
    from: u64,
    hands: &mut [Hand<B>],
    both: &mut Strings,
) -> Result<(), AllocError>
    requires accepted { Accepted ground.now.region.now }
    requires layout { IsLayoutOf ground.now.region.now ground.now.layout }
    requires in_range { from ≤ 2 ^ 30 }
    requires begun { AreOfLayout ground.now.layout start.now }
    requires size { AreOfLayout ground.now.layout both.old }
    requires few { length hands.old ≤ 64 }
    requires shares { AreSharesIn (λ hand. hand.share) ground.now.layout hands.old }
    requires coins { All (λ hand. AreCoinsOf ground.now.region.now ground.now.layout (bit_at (B.word_at bits.now))
        hand.coins.pieces (B.words hand.coins.kept.bits) (B.word_at hand.coins.kept.bits)) hands.old }
    ensures carried { OnOk result ((low high : List ℤ) → HoldEnds ground.now.region.now ground.now.layout start.now low high
        → HoldEnds ground.now.region.now ground.now.layout both.new (carried_numbers ground.now.region.now (bit_at (B.word_at bits.now)) from low)
        (carried_numbers ground.now.region.now (bit_at (B.word_at bits.now)) from high)) }
    ensures size { AreOfLayout ground.now.layout both.new }
    ensures count { length hands.new ≡ length hands.old }
    ensures shares { AreSharesIn (λ hand. hand.share) ground.now.layout hands.new }
    ensures coins { All (λ hand. AreCoinsOf ground.now.region.now ground.now.layout (bit_at (B.word_at bits.now))
        hand.coins.pieces (B.words hand.coins.kept.bits) (B.word_at hand.coins.kept.bits)) hands.new }
{
    let stretch = Stretch {
        region: ground.region,
        layout: &ground.layout,
        slots: &ground.slots,
        start,
        bits,
        from,
    };
    classes_in_turn();
    coins_of_a_region();
    sweep_by_hands(
        company.rt,
        company.alloc,
        &stretch,
        hands,
        both,
        gate,
        company.worker,
        sample,
    )
}
