//! Distances along directed steps.

ghost use Rattle.std.specs.Prelude.{IsTrue};
ghost use Rattle.tl_definitions.specs.Region.{is_corner_of};
ghost use Rattle.tl_extreme.specs.Paths.{IsDistance};

use std::marker::Model;
use tl_lattice::Corner;
use tl_region::Region;

/// The numbers of steps of shortest directed paths from one corner of a region to all.
#[derive(Drop)]
pub struct Distances<'a> {
    pub(crate) region: &'a Region,
    pub(crate) from: Corner,
    pub(crate) numbers: Vec<i32>,
}

impl<'a> Model for Distances<'a> {
    ghost use Rattle.tl_extreme.specs.Paths.{Origin};
    ghost use Rattle.tl_extreme.specs.Distances.{AreDistances};

    ghost Value = { Origin };

    ghost view = { λ s. record { region = s.region.now; from = s.from } };

    ghost invariant = { λ s. AreDistances s.region.now s.from s.numbers.items };
}

impl<'a> Distances<'a> {
    /// The number of steps of a shortest directed path to a corner of the region.
    pub fn to(&self, corner: Corner) -> u32
        requires { IsTrue (is_corner_of self.now.region corner) }
        ensures { IsDistance self.now.region self.now.from corner result }
    {
        let width = self.region.columns() as usize + 2;
        self.numbers[corner.r as usize * width + corner.x as usize] as u32
    }
}
