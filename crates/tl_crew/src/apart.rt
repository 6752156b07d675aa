//! Hands that sweep beside each other.

ghost use Rattle.std.specs.Prelude.{◌≡◌, ◌<◌, ◌≤◌, ◌^◌, All, IsTrue, length};
ghost use Rattle.tl_courses.specs.Courses.{IsCourseOf, steps_of};
ghost use Rattle.tl_crew.specs.Bands.{AreSharesIn, IsShareIn};
ghost use Rattle.tl_crew.specs.Hands.{IsHandAt};

use crate::hands::{Watch, are_done, hand, round};
use crate::share::Share;
use std::sync::Wait;
use std::thread;
use std::thread::Threads;
use tl_band::{Coins, Sweeping};
use tl_bits::Bits;
use tl_io::{FreeGate, Gate};

/// A hand: its bands, and the coins that it lays out for them.
#[derive(Drop)]
pub struct Hand<B: Bits> {
    pub coins: Coins<B>,
    pub share: Share,
}

// Takes turns over the bands of one hand.
fn work<R: Wait, S: Sweeping, B: Bits>(
    rt: &R,
    stretch: &S,
    this: &mut Hand<B>,
    gate: &(dyn Gate + Sync),
    watch: Watch,
)
    requires course { IsCourseOf (S.region stretch.now) (S.bits stretch.now) (S.course stretch.now) }
    requires from { (S.course stretch.now).from ≤ 2 ^ 30 }
    requires at { IsHandAt (S.region stretch.now) (S.bits stretch.now) (S.course stretch.now)
        this.old.coins.pieces (B.words this.old.coins.kept.bits) (B.word_at this.old.coins.kept.bits) this.old.share.bands.items }
    requires share { IsShareIn (S.course stretch.now).layout this.old.share }
    ensures at { IsHandAt (S.region stretch.now) (S.bits stretch.now) (S.course stretch.now)
        this.new.coins.pieces (B.words this.new.coins.kept.bits) (B.word_at this.new.coins.kept.bits) this.new.share.bands.items }
    ensures share { IsShareIn (S.course stretch.now).layout this.new.share }
    ensures first { this.new.share.first ≡ this.old.share.first }
    ensures end { this.new.share.end ≡ this.old.share.end }
{
    hand(
        rt,
        stretch,
        &mut this.coins,
        &mut this.share.bands,
        gate,
        watch,
    );
}

// One turn of each band of one hand.
fn pass<R: Wait, S: Sweeping, B: Bits>(
    rt: &R,
    stretch: &S,
    this: &mut Hand<B>,
    gate: &(dyn Gate + Sync),
    watch: Watch,
)
    requires course { IsCourseOf (S.region stretch.now) (S.bits stretch.now) (S.course stretch.now) }
    requires from { (S.course stretch.now).from ≤ 2 ^ 30 }
    requires at { IsHandAt (S.region stretch.now) (S.bits stretch.now) (S.course stretch.now)
        this.old.coins.pieces (B.words this.old.coins.kept.bits) (B.word_at this.old.coins.kept.bits) this.old.share.bands.items }
    requires share { IsShareIn (S.course stretch.now).layout this.old.share }
    ensures at { IsHandAt (S.region stretch.now) (S.bits stretch.now) (S.course stretch.now)
        this.new.coins.pieces (B.words this.new.coins.kept.bits) (B.word_at this.new.coins.kept.bits) this.new.share.bands.items }
    ensures share { IsShareIn (S.course stretch.now).layout this.new.share }
    ensures first { this.new.share.first ≡ this.old.share.first }
    ensures end { this.new.share.end ≡ this.old.share.end }
{
    round(
        rt,
        stretch,
        &mut this.coins,
        &mut this.share.bands,
        gate,
        watch,
    );
}

/// Has all hands sweep beside each other, each on a thread of its own where one can be had. A hand ends when its bands are
/// done, or none of them could go on for long.
pub fn sweep_apart<R: Threads + Wait + Sync, S: Sweeping + Sync, B: Bits + Send + Drop>(
    rt: &R,
    stretch: &S,
    hands: &mut [Hand<B>],
    gate: &(dyn Gate + Sync),
    worker: u32,
    sample: u32,
)
    requires course { IsCourseOf (S.region stretch.now) (S.bits stretch.now) (S.course stretch.now) }
    requires from { (S.course stretch.now).from ≤ 2 ^ 30 }
    requires count { length hands.old ≤ 64 }
    requires shares { AreSharesIn (λ hand. hand.share) (S.course stretch.now).layout hands.old }
    requires at { All (λ hand. IsHandAt (S.region stretch.now) (S.bits stretch.now) (S.course stretch.now)
        hand.coins.pieces (B.words hand.coins.kept.bits) (B.word_at hand.coins.kept.bits) hand.share.bands.items) hands.old }
    ensures at { All (λ hand. IsHandAt (S.region stretch.now) (S.bits stretch.now) (S.course stretch.now)
        hand.coins.pieces (B.words hand.coins.kept.bits) (B.word_at hand.coins.kept.bits) hand.share.bands.items) hands.new }
    ensures shares { AreSharesIn (λ hand. hand.share) (S.course stretch.now).layout hands.new }
    ensures count { length hands.new ≡ length hands.old }
{
    let threads = hands.len();
    thread::for_each_mut(
        rt,
        hands,
        threads,
        &|index: usize, this: &mut Hand<B>|
            requires { (index < 64) × IsHandAt (S.region stretch.now) (S.bits stretch.now) (S.course stretch.now)
                this.old.coins.pieces (B.words this.old.coins.kept.bits) (B.word_at this.old.coins.kept.bits) this.old.share.bands.items
                × IsShareIn (S.course stretch.now).layout this.old.share
                × IsCourseOf (S.region stretch.now) (S.bits stretch.now) (S.course stretch.now)
                × ((S.course stretch.now).from ≤ 2 ^ 30) }
            ensures { IsHandAt (S.region stretch.entry.now) (S.bits stretch.entry.now) (S.course stretch.entry.now)
                this.new.coins.pieces (B.words this.new.coins.kept.bits) (B.word_at this.new.coins.kept.bits) this.new.share.bands.items
                × IsShareIn (S.course stretch.entry.now).layout this.new.share
                × (this.new.share.first ≡ this.old.share.first)
                × (this.new.share.end ≡ this.old.share.end) }
        {
            let watch = Watch {
                worker,
                hand: index as u32,
                sample,
            };
            work(rt, stretch, this, gate, watch)
        },
    );
}

// Whether all bands of all hands have swept all classes.
fn are_all_done<S: Sweeping, B: Bits>(stretch: &S, hands: &[Hand<B>]) -> bool
    requires { (S.course stretch.now).from ≤ 2 ^ 30 }
    ensures { IsTrue result → All (λ hand. All (λ band. band.done ≡ steps_of (S.course stretch.now)) hand.share.bands.items) hands.now }
{
    for j in 0..hands.len() {
        if !are_done(stretch, &hands[j].share.bands) {
            return false;
        }
    }
    true
}

// One turn of each band of all hands, which no gate is told of.
fn pass_all<R: Wait, S: Sweeping, B: Bits>(rt: &R, stretch: &S, hands: &mut [Hand<B>])
    requires course { IsCourseOf (S.region stretch.now) (S.bits stretch.now) (S.course stretch.now) }
    requires from { (S.course stretch.now).from ≤ 2 ^ 30 }
    requires shares { AreSharesIn (λ hand. hand.share) (S.course stretch.now).layout hands.old }
    requires at { All (λ hand. IsHandAt (S.region stretch.now) (S.bits stretch.now) (S.course stretch.now)
        hand.coins.pieces (B.words hand.coins.kept.bits) (B.word_at hand.coins.kept.bits) hand.share.bands.items) hands.old }
    ensures at { All (λ hand. IsHandAt (S.region stretch.now) (S.bits stretch.now) (S.course stretch.now)
        hand.coins.pieces (B.words hand.coins.kept.bits) (B.word_at hand.coins.kept.bits) hand.share.bands.items) hands.new }
    ensures shares { AreSharesIn (λ hand. hand.share) (S.course stretch.now).layout hands.new }
    ensures count { length hands.new ≡ length hands.old }
{
    let watch = Watch {
        worker: 0,
        hand: 0,
        sample: 0,
    };
    for j in 0..hands.len() {
        pass(rt, stretch, &mut hands[j], &FreeGate, watch);
    }
}

/// Takes turns over the bands of all hands until all classes are swept. No gate is told.
pub fn finish<R: Wait, S: Sweeping, B: Bits>(rt: &R, stretch: &S, hands: &mut [Hand<B>])
    requires course { IsCourseOf (S.region stretch.now) (S.bits stretch.now) (S.course stretch.now) }
    requires from { (S.course stretch.now).from ≤ 2 ^ 30 }
    requires shares { AreSharesIn (λ hand. hand.share) (S.course stretch.now).layout hands.old }
    requires at { All (λ hand. IsHandAt (S.region stretch.now) (S.bits stretch.now) (S.course stretch.now)
        hand.coins.pieces (B.words hand.coins.kept.bits) (B.word_at hand.coins.kept.bits) hand.share.bands.items) hands.old }
    ensures at { All (λ hand. IsHandAt (S.region stretch.now) (S.bits stretch.now) (S.course stretch.now)
        hand.coins.pieces (B.words hand.coins.kept.bits) (B.word_at hand.coins.kept.bits) hand.share.bands.items) hands.new }
    ensures done { All (λ hand. All (λ band. band.done ≡ steps_of (S.course stretch.now)) hand.share.bands.items) hands.new }
    ensures shares { AreSharesIn (λ hand. hand.share) (S.course stretch.now).layout hands.new }
    ensures count { length hands.new ≡ length hands.old }
{
    for turn in rt.forever() {
        if are_all_done(stretch, hands) {
            return;
        }
        pass_all(rt, stretch, hands);
    }
    unreachable!()
}
