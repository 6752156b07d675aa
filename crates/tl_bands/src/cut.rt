//! Where the bands of a region's rows begin.

ghost use Rattle.std.specs.Prelude.{◌≡◌, ℕ, ◌<◌, ◌≤◌, ◌↔◌, length, slice_index, IsTrue, IfOk, IfErr, OnOk, MatchOption};
ghost use Rattle.tl_bands.specs.Cuts.{IsCut, AreParted, share as share_of, even_firsts, Follows, IsBadFirst};
ghost use Rattle.tl_bands.specs.Faults.{IsCutFault};

use crate::fault::CutFault;
use std::alloc::{AllocError, Global};
use std::marker::Model;

/// Rows that are cut into bands of one row or more, told by the first row of each band. A band has the rows up to the
/// first one of the next band, and the last band has all that are left.
#[derive(Drop)]
pub struct Cut {
    /// How many rows there are.
    pub(crate) rows: u32,
    pub(crate) firsts: Vec<u32>,
}

impl Model for Cut {
    ghost use Rattle.tl_bands.specs.Cuts as cuts;

    ghost Value = { cuts.Cut };

    ghost view = { λ s. record { rows = s.rows; firsts = s.firsts.items } };

    ghost invariant = { λ s. cuts.IsCut s.rows s.firsts.items };
}

// The first row of this share of the rows, or their number behind the last share.
fn share(rows: u32, bands: u32, band: u32) -> u32
    requires bands { 0 < bands }
    requires band { band ≤ bands }
    ensures { result ≡ share_of rows bands band }
{
    (u64::from(band) * u64::from(rows) / u64::from(bands)) as u32
}

// Whether the row at this number is row 0, or else stands after the one before.
fn follows(firsts: &[u32], number: usize) -> bool
    requires { number < length firsts.now }
    ensures { IsTrue result ↔ Follows firsts.now number }
{
    if number == 0 {
        firsts[0] == 0
    } else {
        firsts[number - 1] < firsts[number]
    }
}

fn first_bad(firsts: &[u32], rows: u32) -> Option<u32>
    ensures { MatchOption result (IsCut rows firsts.now) (IsBadFirst rows firsts.now) }
{
    if firsts.is_empty() {
        return Some(0);
    }
    for number in 0..firsts.len() {
        if firsts[number] >= rows || !follows(firsts, number) {
            return Some(number as u32);
        }
    }
    None
}

impl Cut {
    /// Shares these rows out evenly to so many bands. Share `j` begins at row `j * rows / bands`, rounded down, and a
    /// band without a row is left out. Both numbers are at least 1.
    ///
    /// # Errors
    /// Want of memory.
    pub fn even(alloc: Global, rows: u32, bands: u32) -> Result<Cut, AllocError>
        requires rows { 0 < rows }
        requires bands { 0 < bands }
        ensures cut { IfOk result (λ cut. cut ≡ record { rows = rows; firsts = even_firsts rows bands }) }
    {
        let mut firsts = Vec::new(alloc);
        for band in 0..bands {
            let first = share(rows, bands, band);
            if first < share(rows, bands, band + 1) {
                firsts.push(first)?;
            }
        }
        Ok(Cut { rows, firsts })
    }

    /// Cuts so many rows into bands that begin at these.
    ///
    /// # Errors
    /// `BadFirst` exactly where that is no cut, with the first number at which the list isn't one of first rows: it is
    /// empty (number 0), the row at number 0 isn't row 0, a row isn't after the one before, or isn't below `rows`. Want
    /// of memory only where it is a cut.
    pub fn of(alloc: Global, firsts: &[u32], rows: u32) -> Result<Cut, CutFault>
        ensures cut { IfOk result (λ cut. cut ≡ record { rows = rows; firsts = firsts.now }) }
        ensures good { OnOk result (IsCut rows firsts.now) }
        ensures bad { (i : ℕ) → IsBadFirst rows firsts.now i → result ≡ Err (CutFault.BadFirst i) }
        ensures fault { IfErr result (IsCutFault rows firsts.now) }
    {
        if let Some(number) = first_bad(firsts, rows) {
            return Err(CutFault::BadFirst(number));
        }
        match firsts.to_vec(alloc) {
            Ok(firsts) => Ok(Cut { rows, firsts }),
            Err(_) => Err(CutFault::OutOfMemory),
        }
    }

    /// How many bands there are: at least one.
    pub fn count(&self) -> u32
        ensures count { result ≡ length self.now.firsts }
        ensures is_cut { IsCut self.now.rows self.now.firsts }
        ensures parted { AreParted self.now.rows self.now.firsts }
    {
        prove!(self.firsts.len() <= self.rows as usize);
        self.firsts.len() as u32
    }

    /// The first row of band `j`, below `count`.
    pub fn first(&self, j: u32) -> u32
        requires { j < length self.now.firsts }
        ensures { result ≡ slice_index self.now.firsts j }
    {
        self.firsts[j as usize]
    }
}
