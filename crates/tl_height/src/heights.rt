//! The type of height functions.

ghost use Rattle.std.specs.Prelude.{neg_ℤ, ◌≡◌, ◌+◌, ◌*◌, ◌<◌, ◌≤◌, List, ◌-◌, ◌^◌, ◌≤ℤ◌, ℤ, ◌+ℤ◌, pos, negsuc, length, slice_get, find, IfOk, IfSome, IsTrue, MatchOption, Some};
ghost use Rattle.std.specs.Ordering.{int_eq};
ghost use Rattle.tl_definitions.specs.declared.Corner.{Corner};
ghost use Rattle.tl_definitions.specs.declared.Tile.{Tile};
ghost use Rattle.tl_definitions.specs.Lattice.{rise};
ghost use Rattle.tl_definitions.specs.Region.{is_corner_of, is_inner, is_step, inner_corners};
ghost use Rattle.tl_definitions.specs.Accepted.{Accepted};
ghost use Rattle.tl_lists.specs.Lists.{present, put_at};
ghost use Rattle.tl_definitions.specs.Tiling.{is_tiling};
ghost use Rattle.tl_definitions.specs.Heights.{height, height_row, AreHeights, AreLawful};
ghost use Rattle.tl_closing.specs.Changed.{IsChangedAt};
ghost use Rattle.tl_closing.specs.Standing.{falls_from, falls_to};
ghost use Rattle.tl_height.specs.Letters.{IsDrawnFrom, row_text};
ghost use Rattle.tl_height.specs.Standing.{AreCornersOf, is_some_with, standing};
ghost use Rattle.tl_definitions.specs.Limits.{most_height};

use crate::letters::{write_squares, write_triangles};
use crate::standing::Standing;
use std::alloc::{AllocError, Global};
use std::marker::Model;
use tl_lattice::{Corner, Kind, rise, steps_in, steps_out};
use tl_region::Region;

/// Lawful heights on the corners of a region: those of exactly one tiling.
///
/// They lie in one array, row by row: rows + 1 rows of columns + 2 numbers, where 0 stands for a pair that is no
/// corner of the region.
#[derive(Drop)]
pub struct Heights<'a> {
    region: &'a Region,
    numbers: Vec<i32>,
}

impl<'a> Model for Heights<'a> {
    ghost use Rattle.tl_height.specs.HeightFunction.{HeightFunction, IsHeightFunction};

    ghost Value = { HeightFunction };

    ghost view = { λ s. record { region = s.region.now; numbers = s.numbers.items } };

    ghost invariant = { λ s. IsHeightFunction s.region.now s.numbers.items };
}

impl<'a> Heights<'a> {
    /// The height function of these numbers, laid out as `numbers` gives them.
    pub fn of_numbers(region: &'a Region, numbers: Vec<i32>) -> Heights<'a>
        requires { AreLawful region.now numbers.items }
        ensures { result ≡ record { region = region.now; numbers = numbers.items } }
    {
        // the region's calls tell that it is accepted
        prove!(numbers.len() == (region.rows() as usize + 1) * (region.columns() as usize + 2));
        Heights { region, numbers }
    }

    /// Gives the numbers away, without a copy. `of_numbers` takes them back.
    pub fn into_numbers(self) -> Vec<i32>
        ensures numbers { result.items ≡ self.entry.numbers }
        ensures lawful { AreLawful self.entry.region result.items }
    {
        self.numbers
    }

    /// The region.
    pub fn region(&self) -> &'a Region
        ensures region { result.now ≡ self.now.region }
        ensures accepted { Accepted self.now.region }
        ensures lawful { AreLawful self.now.region self.now.numbers }
    {
        self.region
    }

    /// All numbers, row by row: rows + 1 rows of columns + 2. The height of a corner in row r and column x is at
    /// place r (columns + 2) + x, and 0 stands where the region has no corner.
    pub fn numbers(&self) -> &[i32]
        ensures numbers { result.now ≡ self.now.numbers }
        ensures lawful { AreLawful self.now.region self.now.numbers }
    {
        self.numbers.as_slice()
    }

    /// The height of a corner of the region.
    pub fn at(&self, corner: Corner) -> i32
        requires { IsTrue (is_corner_of self.now.region corner) }
        ensures height { result ≡ height self.now.region self.now.numbers corner }
        ensures low { neg_ℤ (pos most_height) ≤ℤ result }
        ensures high { result ≤ℤ pos most_height }
    {
        let width = self.region.columns() as usize + 2;
        self.numbers[corner.r as usize * width + corner.x as usize]
    }

    /// A copy.
    ///
    /// # Errors
    /// Want of memory.
    pub fn copy(&self, alloc: Global) -> Result<Heights<'a>, AllocError>
        ensures { IfOk result (λ h. h ≡ self.now) }
    {
        let numbers = self.numbers.to_vec(alloc)?;
        Ok(Heights {
            region: self.region,
            numbers,
        })
    }

    /// Takes over the heights of another height function of the same region.
    pub fn copy_from(&mut self, other: &Heights)
        requires { self.old.region ≡ other.now.region }
        ensures { self.new ≡ other.now }
    {
        self.numbers.copy_from_slice(other.numbers.as_slice());
    }

    /// Overwrites the numbers from `place` on with these. What results has to be lawful heights.
    pub fn put(&mut self, place: usize, numbers: &[i32])
        requires within { place + length numbers.now ≤ length self.old.numbers }
        requires lawful { AreLawful self.old.region (put_at place numbers.now self.old.numbers) }
        ensures region { self.new.region ≡ self.old.region }
        ensures numbers { self.new.numbers ≡ put_at place numbers.now self.old.numbers }
    {
        self.numbers[place..place + numbers.len()].copy_from_slice(numbers);
    }

    /// How the tiling with these heights stands at the inner corner of this number, in raster order from 0.
    pub fn standing(&self, i: u32) -> Standing
        requires { i < length (inner_corners self.now.region) }
        ensures { (A : List Tile) (v : Corner) → IsTrue (is_tiling self.now.region A)
            → AreHeights self.now.region A self.now.numbers
            → slice_get (inner_corners self.now.region) i ≡ Some v → result ≡ standing self.now.region A v }
    {
        let corner = self.region.inner(i);
        if self.rising_from(corner).is_none() {
            Standing::High
        } else if self.rising_to(corner).is_none() {
            Standing::Low
        } else {
            Standing::No
        }
    }

    /// The first corner to which a step from this inner corner rises. None where all steps from it fall: it can be
    /// lowered.
    pub fn rising_from(&self, corner: Corner) -> Option<Corner>
        requires { IsTrue (is_inner self.now.region corner) }
        ensures { MatchOption result (IsTrue (falls_from self.now.region self.now.numbers corner))
            (λ w. IsTrue (is_step self.now.region corner w)
            × (height self.now.region self.now.numbers w ≡ height self.now.region self.now.numbers corner +ℤ pos 1)) }
    {
        let steps = steps_out(self.region.kind(), corner);
        self.first_at(self.at(corner) + 1, steps.corners)
    }

    /// The first corner from which a step to this inner corner rises. None where all steps to it fall: it can be
    /// raised.
    pub fn rising_to(&self, corner: Corner) -> Option<Corner>
        requires { IsTrue (is_inner self.now.region corner) }
        ensures { MatchOption result (IsTrue (falls_to self.now.region self.now.numbers corner))
            (λ u. IsTrue (is_step self.now.region u corner)
            × (height self.now.region self.now.numbers corner ≡ height self.now.region self.now.numbers u +ℤ pos 1)) }
    {
        let steps = steps_in(self.region.kind(), corner);
        self.first_at(self.at(corner) - 1, steps.corners)
    }

    // The first of these corners that has this height.
    fn first_at(&self, wanted: i32, corners: [Option<Corner>; 3]) -> Option<Corner>
        requires { AreCornersOf self.now.region corners }
        ensures { result ≡ find (λ v. int_eq (height self.now.region self.now.numbers v) wanted) (present corners) }
    {
        let [first, second, third] = corners;
        if self.is_at(wanted, first) {
            return first;
        }
        if self.is_at(wanted, second) {
            return second;
        }
        if self.is_at(wanted, third) {
            return third;
        }
        None
    }

    // Whether the corner is there and has this height.
    fn is_at(&self, wanted: i32, corner: Option<Corner>) -> bool
        requires { IfSome corner (λ v. IsTrue (is_corner_of self.now.region v)) }
        ensures { result ≡ is_some_with (λ v. int_eq (height self.now.region self.now.numbers v) wanted) corner }
    {
        match corner {
            Some(corner) => self.at(corner) == wanted,
            None => false,
        }
    }

    /// Raises an inner corner to which all steps fall by the rise of a flip.
    pub fn raise(&mut self, corner: Corner)
        requires inner { IsTrue (is_inner self.old.region corner) }
        requires low { IsTrue (falls_to self.old.region self.old.numbers corner) }
        ensures region { self.new.region ≡ self.old.region }
        ensures raised { IsChangedAt self.old.region self.old.numbers self.new.numbers corner
            (pos (rise self.old.region.kind)) }
    {
        let rise = rise(self.region.kind());
        self.change(corner, rise);
    }

    /// Lowers an inner corner from which all steps fall by the rise of a flip.
    pub fn lower(&mut self, corner: Corner)
        requires inner { IsTrue (is_inner self.old.region corner) }
        requires high { IsTrue (falls_from self.old.region self.old.numbers corner) }
        ensures region { self.new.region ≡ self.old.region }
        ensures lowered { IsChangedAt self.old.region self.old.numbers self.new.numbers corner
            (negsuc (rise self.old.region.kind - 1)) }
    {
        let rise = rise(self.region.kind());
        self.change(corner, -rise);
    }

    // Adds so much to the height of a corner. What results has to be lawful heights.
    fn change(&mut self, corner: Corner, more: i32)
        requires of_region { IsTrue (is_corner_of self.old.region corner) }
        requires least { neg_ℤ (pos 4) ≤ℤ more }
        requires most { more ≤ℤ pos 4 }
        requires lawful { (others : List ℤ) → IsChangedAt self.old.region self.old.numbers others corner more
            → AreLawful self.old.region others }
        ensures region { self.new.region ≡ self.old.region }
        ensures changed { IsChangedAt self.old.region self.old.numbers self.new.numbers corner more }
    {
        let height = self.at(corner) + more;
        let width = self.region.columns() as usize + 2;
        self.numbers[corner.r as usize * width + corner.x as usize] = height;
    }

    /// Prints the drawing of the tiling with these heights: one line for each row, each with a line feed, of as many
    /// bytes as the region has columns. A cell has the letter that names its partner, and every other place has `.`.
    pub fn to_letters(&self, out: &mut [u8])
        requires { length out.old ≡ self.now.region.rows * (self.now.region.columns + 1) }
        ensures { IsDrawnFrom self.now.region self.now.numbers out.new }
    {
        let rows = self.region.rows();
        let width = self.region.columns() as usize + 1;
        for r in 0..rows {
            let start = r as usize * width;
            self.write_row(r, &mut out[start..start + width]);
        }
    }

    // Writes the letters of a row, and a line feed.
    fn write_row(&self, r: u32, line: &mut [u8])
        requires row { r < self.now.region.rows }
        requires size { length line.old ≡ self.now.region.columns + 1 }
        ensures { (A : List Tile) → IsTrue (is_tiling self.now.region A)
            → AreHeights self.now.region A self.now.numbers
            → line.new ≡ row_text self.now.region A r }
    {
        let flags = self.region.row(r);
        let upper = self.row(r);
        let lower = self.row(r + 1);
        match self.region.kind() {
            Kind::Square => write_squares(flags, upper, lower, line),
            Kind::Triangle => write_triangles(r, flags, upper, lower, line),
        }
        line[flags.len()] = b'\n';
    }

    // The numbers of a row.
    fn row(&self, r: u32) -> &[i32]
        requires { r < self.now.region.rows + 1 }
        ensures row { result.now ≡ height_row self.now.region self.now.numbers r }
        ensures length { length result.now ≡ self.now.region.columns + 2 }
    {
        let width = self.region.columns() as usize + 2;
        let start = r as usize * width;
        &self.numbers[start..start + width]
    }
}
