//! What engines that draw samples have in common.

ghost use Rattle.std.specs.Prelude.{◌≡◌, ◌≤◌, ℕ};
ghost use Rattle.tl_definitions.specs.Sweep.{IsLate};
ghost use Rattle.tl_bits.specs.Bits.{bits_of};
ghost use Rattle.tl_height.specs.HeightFunction.{HeightFunction};
ghost use Rattle.tl_chain.specs.declared.Drawn.TheVariants.{At, Late};
ghost use Rattle.tl_sampler.specs.Drawn.{AreHeightsOfSample};

use tl_chain::Drawn;
use tl_height::Heights;

/// Draws the numbered samples of a region, one after the other.
pub trait Sampling {
    /// The heights of the sample that was drawn last.
    ghost drawn: { Self → HeightFunction };

    /// What its draws stand on, and keep.
    ghost can_draw: { Self → Type 0 };

    /// Draws the sample of this seed and number: `At` gives its start, and `Late` comes exactly where none of the starts
    /// 1, 2, 4, .., `2^bound` gathers.
    fn draw(&mut self, seed: u64, number: u32, bound: u32) -> Drawn
        requires ready { can_draw self.old }
        requires bounded { bound ≤ 30 }
        ensures ready { can_draw self.new }
        ensures region { (drawn self.new).region ≡ (drawn self.old).region }
        ensures at { (T : ℕ) → result ≡ At T
            → AreHeightsOfSample (drawn self.old).region (bits_of (drawn self.old).region seed number) bound T (drawn self.new) }
        ensures late { result ≡ Late → IsLate (drawn self.old).region (bits_of (drawn self.old).region seed number) bound };

    /// The heights of the sample that was drawn last, where it wasn't late.
    fn sample(&self) -> &Heights<'_>
        ensures { result.now ≡ drawn self.now };
}
