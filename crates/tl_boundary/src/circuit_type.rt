//! The circuit type.

ghost use Rattle.std.specs.Prelude.{◌≡◌, ◌<◌, ◌≤◌, length, map, position, slice_get, option_map, pos, ◌-ℤ◌, ◌*ℤ◌, ◌≤ℤ◌, neg_ℤ, Some};
ghost use Rattle.tl_definitions.specs.Lattice.{corner as corner_of, corner_eq, rise};
ghost use Rattle.tl_definitions.specs.Limits.{most_corners};
ghost use Rattle.tl_definitions.specs.Region.{Region};
ghost use Rattle.tl_definitions.specs.Accepted.{IsPlaced, IsCircuit, circuit_corners};
ghost use Rattle.tl_definitions.specs.Obstruction.{sign as sign_of, prefix as prefix_of, total as total_of};
ghost use Rattle.tl_lists.specs.Lists.{int_sum};
ghost use Rattle.tl_closing.specs.Colours.{dark_count, light_count};
ghost use Rattle.tl_grid.specs.Sides.{side_by};

use std::marker::Model;
use tl_lattice::{Corner, Kind, is_dark};
use tl_region::BoundaryStep;

/// The boundary circuit of a region: the list of its boundary sides in order.
///
/// Beside them it keeps the sums of the signs of the first 0, 1, 2, .. of them.
#[derive(Drop)]
pub struct Circuit {
    pub(crate) kind: Kind,
    pub(crate) steps: Vec<BoundaryStep>,
    pub(crate) prefixes: Vec<i64>,
}

impl Model for Circuit {
    ghost use Rattle.std.specs.Prelude.{List, map};
    ghost use Rattle.tl_definitions.specs.Lattice.{Side};
    ghost use Rattle.tl_grid.specs.Sides.{side_by};
    ghost use Rattle.tl_boundary.specs.Walk.{HasPrefixes};

    ghost Value = { List Side };

    ghost view = { λ s. map (side_by s.kind) s.steps.items };

    ghost invariant = { λ s. HasPrefixes (map (side_by s.kind) s.steps.items) s.prefixes.items };
}

/// 1 where the cell of the side is dark, and -1 where it is light.
pub(crate) fn sign(kind: Kind, step: BoundaryStep) -> i8
    ensures { result ≡ sign_of (side_by kind step) }
{
    if is_dark(step.side(kind).cell) { 1 } else { -1 }
}

// The corner that the step leaves.
fn start(step: BoundaryStep) -> Corner
    ensures { result ≡ corner_of step.r step.x }
{
    Corner {
        r: u32::from(step.r),
        x: u32::from(step.x),
    }
}

impl Circuit {
    /// How many sides it has, and corners.
    pub fn len(&self) -> u32
        ensures len { result ≡ length self.now }
        ensures few { result ≤ most_corners }
    {
        self.steps.len() as u32
    }

    /// The sum of all signs. It is the number of dark cells less that of light ones, times 4, or times 3 on the
    /// triangular lattice.
    pub fn total(&self) -> i64
        ensures signs { result ≡ int_sum (map sign_of self.now) }
        ensures total { (R : Region) → IsPlaced R → IsCircuit R self.now → result ≡ total_of R }
        ensures colours { (R : Region) → IsPlaced R → IsCircuit R self.now
            → result ≡ pos (rise R.kind) *ℤ (pos (dark_count R) -ℤ pos (light_count R)) }
    {
        self.prefix(self.len())
    }

    /// The place of the corner on the circuit; None where it isn't on it. Any pair may be asked for. Each side is looked
    /// at in turn.
    pub fn place_of(&self, corner: Corner) -> Option<u32>
        ensures { result ≡ position (corner_eq corner) (circuit_corners self.now) }
    {
        for (k, step) in self.steps.iter().enumerate() {
            if corner == start(*step) {
                return Some(k as u32);
            }
        }
        None
    }

    /// The corner at this place, below `len`.
    pub fn corner(&self, k: u32) -> Corner
        requires { k < length self.now }
        ensures { slice_get (circuit_corners self.now) k ≡ Some result }
    {
        start(self.steps[k as usize])
    }

    /// The sign of the side from this place, below `len`, to the next.
    pub fn sign(&self, k: u32) -> i8
        requires { k < length self.now }
        ensures { option_map sign_of (slice_get self.now k) ≡ Some result }
    {
        sign(self.kind, self.steps[k as usize])
    }

    /// The sum of the first `k` signs, at most `len` of them.
    pub fn prefix(&self, k: u32) -> i64
        requires { k ≤ length self.now }
        ensures prefix { result ≡ prefix_of self.now k }
        ensures low { neg_ℤ (pos k) ≤ℤ result }
        ensures high { result ≤ℤ pos k }
    {
        self.prefixes[k as usize]
    }

    /// The prefix of the second place less that of the first.
    pub fn rise_between(&self, k: u32, l: u32) -> i64
        requires from { k < length self.now }
        requires to { l < length self.now }
        ensures { result ≡ prefix_of self.now l -ℤ prefix_of self.now k }
    {
        self.prefix(l) - self.prefix(k)
    }
}
