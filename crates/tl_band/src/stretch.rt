//! One stretch of a draw, which bands sweep apart.

ghost use Rattle.std.specs.Prelude.{◌≡◌, ◌≤◌, ◌^◌, ℕ, Bool};
ghost use Rattle.tl_definitions.specs.Region.{Region};
ghost use Rattle.tl_courses.specs.Courses.{Course};

use tl_bits::Bits;
use tl_border::RowJob;
use tl_layout::Layout;
use tl_packed::Strings;
use tl_region::Region as Cells;
use tl_string_sweep::Slots;

/// What the sweeps of a stretch go by.
pub trait Sweeping {
    /// The region, the bits of its inner corners by time and number, and the course of the sweeps.
    ghost region: { Self → Region };

    ghost bits: { Self → ℕ → ℕ → Bool };

    ghost course: { Self → Course };

    fn layout(&self) -> &Layout
        ensures { result.now ≡ (course self.now).layout };

    fn slots(&self) -> &Slots
        ensures { result.now ≡ (course self.now).slots };

    /// The strings of both ends before the first sweep.
    fn start(&self) -> &Strings
        ensures { result.now ≡ (course self.now).start };

    /// The first sweep is that of the time `-from`.
    fn from(&self) -> u64
        ensures { result ≡ (course self.now).from };
}

/// The sweeps of the times from `-from` to -1, with the strings of both ends before them and the bits of the sample.
#[derive(Drop)]
pub struct Stretch<'a, B: Bits> {
    pub region: &'a Cells,
    pub layout: &'a Layout,
    pub slots: &'a Slots,
    pub start: &'a Strings,
    pub bits: &'a B,
    pub from: u64,
}

impl<'a, B: Bits> Sweeping for Stretch<'a, B> {
    ghost use Rattle.tl_bits.specs.Bits.{bit_at};
    ghost use Rattle.tl_band.specs.Stretches.{course_by};

    ghost region = { λ s. s.region.now };

    ghost bits = { λ s. bit_at (B.word_at s.bits.now) };

    ghost course = { λ s. course_by s.region.now s.layout.now s.slots.now s.start.now (bit_at (B.word_at s.bits.now)) s.from };

    fn layout(&self) -> &Layout {
        self.layout
    }

    fn slots(&self) -> &Slots {
        self.slots
    }

    fn start(&self) -> &Strings {
        self.start
    }

    fn from(&self) -> u64 {
        self.from
    }
}

/// The rows that go over the border below a row during a stretch.
#[derive(Drop)]
pub struct Handover<'a, S: Sweeping> {
    pub stretch: &'a S,
    pub row: usize,
}

impl<'a, S: Sweeping> RowJob for Handover<'a, S> {
    ghost use Rattle.tl_band.specs.Handed.{job_of};

    ghost rows = { λ handover. job_of (S.course handover.stretch.now) handover.row };
}
