//! One stretch, swept by hands.

ghost use Rattle.std.specs.Prelude.{◌≡◌, ◌-◌, ◌≤◌, ◌^◌, All, IfOk, OnOk, length};
ghost use Rattle.tl_packed.specs.OfClasses.{AreOfLayout};
ghost use Rattle.tl_courses.specs.Courses.{IsCourseOf, steps_of};
ghost use Rattle.tl_band.specs.Bands.{AreRowsDone, IsBandAt};
ghost use Rattle.tl_band.specs.Edges.{IsSideAt};
ghost use Rattle.tl_crew.specs.Bands.{AreSharesIn, IsShareIn};
ghost use Rattle.tl_crew.specs.Hands.{AreCoinsOf, IsHandAt};

use crate::apart::{Hand, finish, sweep_apart};
use std::alloc::{AllocError, Global};
use std::sync::Wait;
use std::thread::Threads;
use tl_band::{Link, Sweeping, open};
use tl_bits::Bits;
use tl_io::Gate;
use tl_packed::Strings;
use tl_row_sweep::copy_rows;

// Brings the bands of one hand to the start of the stretch, with these ends of the borders above and below them.
fn begin_hand<S: Sweeping, B: Bits>(
    alloc: Global,
    stretch: &S,
    this: &mut Hand<B>,
    above: Option<Link>,
    below: Option<Link>,
) -> Result<(), AllocError>
    requires course { IsCourseOf (S.region stretch.now) (S.bits stretch.now) (S.course stretch.now) }
    requires share { IsShareIn (S.course stretch.now).layout this.old.share }
    requires above { IsSideAt (S.course stretch.now) this.old.share.first (this.old.share.first - 1) 0 above }
    requires below { IsSideAt (S.course stretch.now) (this.old.share.end - 1) this.old.share.end 0 below }
    ensures at { OnOk result (All (IsBandAt (S.course stretch.now)) this.new.share.bands.items) }
    ensures share { IsShareIn (S.course stretch.now).layout this.new.share }
    ensures first { this.new.share.first ≡ this.old.share.first }
    ensures end { this.new.share.end ≡ this.old.share.end }
    ensures coins { this.new.coins ≡ this.old.coins }
{
    this.share.begin(alloc, stretch, above, below)
}

// Opens the border below the bands of one hand, and brings them to the start of the stretch. Gives the next hand's end of it.
fn begin_above<S: Sweeping, B: Bits>(
    alloc: Global,
    stretch: &S,
    this: &mut Hand<B>,
    above: Option<Link>,
) -> Result<Option<Link>, AllocError>
    requires course { IsCourseOf (S.region stretch.now) (S.bits stretch.now) (S.course stretch.now) }
    requires share { IsShareIn (S.course stretch.now).layout this.old.share }
    requires end { 1 ≤ this.old.share.end }
    requires above { IsSideAt (S.course stretch.now) this.old.share.first (this.old.share.first - 1) 0 above }
    ensures at { OnOk result (All (IsBandAt (S.course stretch.now)) this.new.share.bands.items) }
    ensures next { IfOk result (IsSideAt (S.course stretch.now) this.old.share.end (this.old.share.end - 1) 0) }
    ensures share { IsShareIn (S.course stretch.now).layout this.new.share }
    ensures first { this.new.share.first ≡ this.old.share.first }
    ensures end { this.new.share.end ≡ this.old.share.end }
    ensures coins { this.new.coins ≡ this.old.coins }
{
    let (lower, next) = open(alloc, stretch, this.share.end - 1)?;
    begin_hand(alloc, stretch, this, above, Some(lower))?;
    Ok(Some(next))
}

// Opens a border between each two bands that follow one another, and brings all bands of all hands to the start of the stretch.
fn begin<S: Sweeping, B: Bits>(
    alloc: Global,
    stretch: &S,
    hands: &mut [Hand<B>],
) -> Result<(), AllocError>
    requires course { IsCourseOf (S.region stretch.now) (S.bits stretch.now) (S.course stretch.now) }
    requires shares { AreSharesIn (λ hand. hand.share) (S.course stretch.now).layout hands.old }
    requires coins { All (λ hand. AreCoinsOf (S.region stretch.now) (S.course stretch.now).layout (S.bits stretch.now)
        hand.coins.pieces (B.words hand.coins.kept.bits) (B.word_at hand.coins.kept.bits)) hands.old }
    ensures at { OnOk result (All (λ hand. All (IsBandAt (S.course stretch.now)) hand.share.bands.items) hands.new) }
    ensures shares { AreSharesIn (λ hand. hand.share) (S.course stretch.now).layout hands.new }
    ensures coins { All (λ hand. AreCoinsOf (S.region stretch.now) (S.course stretch.now).layout (S.bits stretch.now)
        hand.coins.pieces (B.words hand.coins.kept.bits) (B.word_at hand.coins.kept.bits)) hands.new }
    ensures count { length hands.new ≡ length hands.old }
{
    let last = hands.len() - 1;
    let mut upper = None;
    for j in 0..last {
        upper = begin_above(alloc, stretch, &mut hands[j], upper)?;
    }
    begin_hand(alloc, stretch, &mut hands[last], upper, None)
}

// Puts the rows of all bands together, when all classes are swept.
fn store<S: Sweeping, B: Bits>(stretch: &S, hands: &[Hand<B>], both: &mut Strings)
    requires course { IsCourseOf (S.region stretch.now) (S.bits stretch.now) (S.course stretch.now) }
    requires shares { AreSharesIn (λ hand. hand.share) (S.course stretch.now).layout hands.now }
    requires at { All (λ hand. IsHandAt (S.region stretch.now) (S.bits stretch.now) (S.course stretch.now)
        hand.coins.pieces (B.words hand.coins.kept.bits) (B.word_at hand.coins.kept.bits) hand.share.bands.items) hands.now }
    requires done { All (λ hand. All (λ band. band.done ≡ steps_of (S.course stretch.now)) hand.share.bands.items) hands.now }
    requires size { AreOfLayout (S.course stretch.now).layout both.old }
    ensures size { AreOfLayout (S.course stretch.now).layout both.new }
    ensures rows { AreRowsDone (S.course stretch.now) 0 (S.course stretch.now).layout.height both.new }
{
    let layout = stretch.layout();
    copy_rows(layout, stretch.start(), both, 0, layout.height);
    for j in 0..hands.len() {
        hands[j].share.store(stretch, both);
    }
}

/// Sweeps all classes of a stretch, each hand on a thread of its own where one can be had, and puts the rows together in `both`.
/// What the hands leave the calling thread sweeps.
///
/// # Errors
/// Want of memory for the borders. Nothing is swept then, and `both` is as it was.
pub fn sweep_by_hands<R: Threads + Wait + Sync, S: Sweeping + Sync, B: Bits + Send + Drop>(
    rt: &R,
    alloc: Global,
    stretch: &S,
    hands: &mut [Hand<B>],
    both: &mut Strings,
    gate: &(dyn Gate + Sync),
    worker: u32,
    sample: u32,
) -> Result<(), AllocError>
    requires course { IsCourseOf (S.region stretch.now) (S.bits stretch.now) (S.course stretch.now) }
    requires from { (S.course stretch.now).from ≤ 2 ^ 30 }
    requires count { length hands.old ≤ 64 }
    requires shares { AreSharesIn (λ hand. hand.share) (S.course stretch.now).layout hands.old }
    requires coins { All (λ hand. AreCoinsOf (S.region stretch.now) (S.course stretch.now).layout (S.bits stretch.now)
        hand.coins.pieces (B.words hand.coins.kept.bits) (B.word_at hand.coins.kept.bits)) hands.old }
    requires size { AreOfLayout (S.course stretch.now).layout both.old }
    ensures rows { OnOk result (AreRowsDone (S.course stretch.now) 0 (S.course stretch.now).layout.height both.new) }
    ensures size { AreOfLayout (S.course stretch.now).layout both.new }
    ensures shares { AreSharesIn (λ hand. hand.share) (S.course stretch.now).layout hands.new }
    ensures coins { All (λ hand. AreCoinsOf (S.region stretch.now) (S.course stretch.now).layout (S.bits stretch.now)
        hand.coins.pieces (B.words hand.coins.kept.bits) (B.word_at hand.coins.kept.bits)) hands.new }
    ensures count { length hands.new ≡ length hands.old }
{
    begin(alloc, stretch, hands)?;
    sweep_apart(rt, stretch, hands, gate, worker, sample);
    finish(rt, stretch, hands);
    store(stretch, hands, both);
    Ok(())
}
