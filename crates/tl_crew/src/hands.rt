//! A hand takes turns over its bands.

ghost use Rattle.std.specs.Prelude.{◌≡◌, ◌≤◌, ◌^◌, All, IsTrue};
ghost use Rattle.tl_bits.specs.Bits.{bit_at};
ghost use Rattle.tl_layout.specs.Coins.{ArePiecesOf};
ghost use Rattle.tl_courses.specs.Courses.{IsCourseOf, steps_of};
ghost use Rattle.tl_band.specs.Bands.{IsBandAt};
ghost use Rattle.tl_crew.specs.Bands.{AreSameBands};

use std::sync::Wait;
use tl_band::{Band, Coins, Sweeping, steps};
use tl_bits::Bits;
use tl_io::Gate;

/// A hand ends after so many rounds in which none of its bands could go on.
pub const PATIENCE: u32 = 65_536;

/// Which hand of which worker is at work on which sample. A gate is told of it.
#[derive(Clone, Copy)]
pub struct Watch {
    pub worker: u32,
    pub hand: u32,
    pub sample: u32,
}

// A turn of each band. Tells whether one has swept a class.
pub(crate) fn round<R: Wait, S: Sweeping, B: Bits>(
    rt: &R,
    stretch: &S,
    coins: &mut Coins<B>,
    bands: &mut [Band],
    gate: &(dyn Gate + Sync),
    watch: Watch,
) -> bool
    requires course { IsCourseOf (S.region stretch.now) (S.bits stretch.now) (S.course stretch.now) }
    requires from { (S.course stretch.now).from ≤ 2 ^ 30 }
    requires pieces { ∥ ArePiecesOf (S.region stretch.now) (S.course stretch.now).layout coins.old.pieces ∥₁ }
    requires bits { bit_at (B.word_at coins.old.kept.bits) ≡ S.bits stretch.now }
    requires at { All (IsBandAt (S.course stretch.now)) bands.old }
    ensures at { All (IsBandAt (S.course stretch.now)) bands.new }
    ensures rows { AreSameBands bands.old bands.new }
    ensures words { B.words coins.new.kept.bits ≡ B.words coins.old.kept.bits }
    ensures function { B.word_at coins.new.kept.bits ≡ B.word_at coins.old.kept.bits }
    ensures pieces { coins.new.pieces ≡ coins.old.pieces }
{
    let mut has_swept = false;
    for j in 0..bands.len() {
        if bands[j].turn(rt, stretch, coins) {
            gate.hand(watch.worker, watch.hand, watch.sample);
            has_swept = true;
        }
    }
    has_swept
}

// Whether all bands have swept all classes.
pub(crate) fn are_done<S: Sweeping>(stretch: &S, bands: &[Band]) -> bool
    requires { (S.course stretch.now).from ≤ 2 ^ 30 }
    ensures { IsTrue result → All (λ band. band.done ≡ steps_of (S.course stretch.now)) bands.now }
{
    let all = steps(stretch);
    bands.iter().all(|band| band.done == all)
}

/// Takes turns over these bands, until all classes are swept, or none could go on for long.
pub fn hand<R: Wait, S: Sweeping, B: Bits>(
    rt: &R,
    stretch: &S,
    coins: &mut Coins<B>,
    bands: &mut [Band],
    gate: &(dyn Gate + Sync),
    watch: Watch,
)
    requires course { IsCourseOf (S.region stretch.now) (S.bits stretch.now) (S.course stretch.now) }
    requires from { (S.course stretch.now).from ≤ 2 ^ 30 }
    requires pieces { ∥ ArePiecesOf (S.region stretch.now) (S.course stretch.now).layout coins.old.pieces ∥₁ }
    requires bits { bit_at (B.word_at coins.old.kept.bits) ≡ S.bits stretch.now }
    requires at { All (IsBandAt (S.course stretch.now)) bands.old }
    ensures at { All (IsBandAt (S.course stretch.now)) bands.new }
    ensures rows { AreSameBands bands.old bands.new }
    ensures words { B.words coins.new.kept.bits ≡ B.words coins.old.kept.bits }
    ensures function { B.word_at coins.new.kept.bits ≡ B.word_at coins.old.kept.bits }
    ensures pieces { coins.new.pieces ≡ coins.old.pieces }
{
    let mut idle = 0u32;
    for turn in rt.forever() {
        if idle >= PATIENCE || are_done(stretch, bands) {
            return;
        }
        if round(rt, stretch, coins, bands, gate, watch) {
            idle = 0;
        } else {
            idle += 1;
        }
    }
    unreachable!()
}
