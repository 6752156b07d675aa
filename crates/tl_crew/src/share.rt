//! The bands of one hand.

ghost use Rattle.std.specs.Prelude.{◌≡◌, ℕ, ◌+◌, ◌-◌, ◌<◌, All, IfOk, OnOk, length, slice_index_or};
ghost use Rattle.tl_packed.specs.OfClasses.{AreOfLayout};
ghost use Rattle.tl_courses.specs.Courses.{IsCourseOf, steps_of};
ghost use Rattle.tl_band.specs.declared.band.Band.{Band as BandShape};
ghost use Rattle.tl_band.specs.Bands.{AreRowsDone, AreRowsKept, IsBandAt, IsPlacedIn};
ghost use Rattle.tl_band.specs.Edges.{IsSideAt};
ghost use Rattle.tl_crew.specs.Bands.{AreBandsIn, AreSameBands, IsShareIn};

use std::alloc::{AllocError, Global};
use tl_band::{Band, Link, Sweeping, open};
use tl_packed::Strings;

/// Bands one below the other, of the rows of words from `first` to before `end`.
#[derive(Drop)]
pub struct Share {
    pub first: usize,
    pub end: usize,
    pub bands: Vec<Band>,
}

// Opens a border below each band but the last, and brings these bands to the start of the stretch. Gives the last band's end of
// the border above it.
fn begin_upper<S: Sweeping>(
    alloc: Global,
    stretch: &S,
    bands: &mut [Band],
    above: Option<Link>,
) -> Result<Option<Link>, AllocError>
    requires course { IsCourseOf (S.region stretch.now) (S.bits stretch.now) (S.course stretch.now) }
    requires bands { (first : ℕ) × (end : ℕ) × AreBandsIn (S.course stretch.now).layout first end bands.old }
    requires above { (d : BandShape) → IsSideAt (S.course stretch.now) (slice_index_or bands.old 0 d).upper.own
        (slice_index_or bands.old 0 d).upper.beside 0 above }
    ensures at { OnOk result ((k : ℕ) (d : BandShape) → k + 1 < length bands.new → IsBandAt (S.course stretch.now) (slice_index_or bands.new k d)) }
    ensures upper { IfOk result (λ upper. (d : BandShape) → IsSideAt (S.course stretch.now) (slice_index_or bands.new (length bands.new - 1) d).upper.own
        (slice_index_or bands.new (length bands.new - 1) d).upper.beside 0 upper) }
    ensures placed { All (IsPlacedIn (S.course stretch.now).layout) bands.new }
    ensures rows { AreSameBands bands.old bands.new }
{
    let last = bands.len() - 1;
    let mut upper = above;
    for j in 0..last {
        let (lower, next) = open(alloc, stretch, bands[j].lower.own)?;
        bands[j].begin(stretch, upper, Some(lower));
        upper = Some(next);
    }
    Ok(upper)
}

// Opens a border between each two bands that follow one another, and brings all bands to the start of the stretch.
fn begin_bands<S: Sweeping>(
    alloc: Global,
    stretch: &S,
    bands: &mut [Band],
    above: Option<Link>,
    below: Option<Link>,
) -> Result<(), AllocError>
    requires course { IsCourseOf (S.region stretch.now) (S.bits stretch.now) (S.course stretch.now) }
    requires bands { (first : ℕ) × (end : ℕ) × AreBandsIn (S.course stretch.now).layout first end bands.old }
    requires above { (d : BandShape) → IsSideAt (S.course stretch.now) (slice_index_or bands.old 0 d).upper.own
        (slice_index_or bands.old 0 d).upper.beside 0 above }
    requires below { (d : BandShape) → IsSideAt (S.course stretch.now) (slice_index_or bands.old (length bands.old - 1) d).lower.own
        (slice_index_or bands.old (length bands.old - 1) d).lower.beside 0 below }
    ensures at { OnOk result (All (IsBandAt (S.course stretch.now)) bands.new) }
    ensures placed { All (IsPlacedIn (S.course stretch.now).layout) bands.new }
    ensures rows { AreSameBands bands.old bands.new }
{
    let upper = begin_upper(alloc, stretch, bands, above)?;
    let last = bands.len() - 1;
    bands[last].begin(stretch, upper, below);
    Ok(())
}

// Puts the rows of these bands together.
fn store_bands<S: Sweeping>(stretch: &S, bands: &[Band], both: &mut Strings)
    requires at { All (IsBandAt (S.course stretch.now)) bands.now }
    requires done { All (λ band. band.done ≡ steps_of (S.course stretch.now)) bands.now }
    requires size { AreOfLayout (S.course stretch.now).layout both.old }
    ensures size { AreOfLayout (S.course stretch.now).layout both.new }
    ensures own { (first end : ℕ) → AreBandsIn (S.course stretch.now).layout first end bands.now
        → AreRowsDone (S.course stretch.now) first end both.new }
    ensures outside { (first end : ℕ) → AreBandsIn (S.course stretch.now).layout first end bands.now
        → AreRowsKept (S.course stretch.now).layout first end both.old both.new }
{
    for j in 0..bands.len() {
        bands[j].store(stretch, both);
    }
}

impl Share {
    /// Opens a border between each two bands, and brings all bands to the start of the stretch, with these ends of the borders
    /// above the first and below the last.
    ///
    /// # Errors
    /// Want of memory.
    pub fn begin<S: Sweeping>(
        &mut self,
        alloc: Global,
        stretch: &S,
        above: Option<Link>,
        below: Option<Link>,
    ) -> Result<(), AllocError>
        requires course { IsCourseOf (S.region stretch.now) (S.bits stretch.now) (S.course stretch.now) }
        requires share { IsShareIn (S.course stretch.now).layout self.old }
        requires above { IsSideAt (S.course stretch.now) self.old.first (self.old.first - 1) 0 above }
        requires below { IsSideAt (S.course stretch.now) (self.old.end - 1) self.old.end 0 below }
        ensures at { OnOk result (All (IsBandAt (S.course stretch.now)) self.new.bands.items) }
        ensures share { IsShareIn (S.course stretch.now).layout self.new }
        ensures first { self.new.first ≡ self.old.first }
        ensures end { self.new.end ≡ self.old.end }
    {
        begin_bands(alloc, stretch, &mut self.bands, above, below)
    }

    /// Copies the rows of all bands, with all classes swept, to strings of the whole layout.
    pub fn store<S: Sweeping>(&self, stretch: &S, both: &mut Strings)
        requires share { IsShareIn (S.course stretch.now).layout self.now }
        requires at { All (IsBandAt (S.course stretch.now)) self.now.bands.items }
        requires done { All (λ band. band.done ≡ steps_of (S.course stretch.now)) self.now.bands.items }
        requires size { AreOfLayout (S.course stretch.now).layout both.old }
        ensures size { AreOfLayout (S.course stretch.now).layout both.new }
        ensures own { AreRowsDone (S.course stretch.now) self.now.first self.now.end both.new }
        ensures outside { AreRowsKept (S.course stretch.now).layout self.now.first self.now.end both.old both.new }
    {
        store_bands(stretch, &self.bands, both);
    }
}
