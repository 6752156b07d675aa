//! The rules of an accepted region.

ghost use Rattle.std.specs.Prelude.{◌≡◌, ◌+◌, ◌==◌, length, find, List, IfOk, IfErr, IfSome, None};
ghost use Rattle.tl_definitions.specs.Lattice.{Side};
ghost use Rattle.tl_definitions.specs.Region.{corner_places};
ghost use Rattle.tl_definitions.specs.Accepted.{is_pinch, HasEulerOne, IsCircuit};
ghost use Rattle.tl_formats.specs.RegionText.{BreaksRule};
ghost use Rattle.tl_grid.specs.Grid.{IsGrid};
ghost use Rattle.tl_region.specs.Refusals.{refusal_by};

use crate::fault::RegionFault;
use crate::region::Region;
use std::alloc::Global;
use tl_grid::{Grid, Survey, first_parted, one_circuit};
use tl_lattice::Corner;

// The first rule that is broken, where one is.
fn broken_rule(alloc: Global, grid: &Grid, pinch: Option<Corner>) -> RegionFault
    requires is_grid { IsGrid grid.now }
    requires pinch { pinch ≡ find (is_pinch grid.now) (corner_places grid.now) }
    requires broken { pinch ≡ None
        → ¬ (((walk : List Side) × IsCircuit grid.now walk) × HasEulerOne grid.now) }
    ensures { IfSome (refusal_by result) (BreaksRule grid.now) }
{
    match first_parted(alloc, grid) {
        Ok(Some(cell)) => RegionFault::Parts(cell),
        Ok(None) => match pinch {
            Some(corner) => RegionFault::Pinch(corner),
            None => RegionFault::Hole,
        },
        Err(_) => RegionFault::OutOfMemory,
    }
}

/// The region of these cells, if they keep the rules of an accepted one. That there is a cell holds of each grid.
///
/// A region without a pinch whose boundary is one circuit is in one part, so its parts are looked for only where a rule
/// is broken.
///
/// # Errors
/// `Parts`, `Pinch` or `Hole` for the first rule that is broken, or want of memory.
pub fn accepted(alloc: Global, grid: Grid) -> Result<Region, RegionFault>
    requires { IsGrid grid }
    ensures region { IfOk result (λ R. R ≡ grid) }
    ensures refused { IfErr result (λ fault. IfSome (refusal_by fault) (BreaksRule grid)) }
{
    let Ok(survey) = Survey::of(alloc, &grid) else {
        return Err(RegionFault::OutOfMemory);
    };
    let Survey {
        pinch,
        start,
        boundary,
        corners,
        edges,
        inner,
        exits,
    } = survey;
    let cells = grid.cell_count();
    if pinch.is_none() && u64::from(corners) + u64::from(cells) == u64::from(edges) + 1 {
        match one_circuit(alloc, &grid, boundary, start, exits) {
            Ok(Some(sides)) => return Ok(Region::of(grid, inner, sides)),
            Ok(None) => {}
            Err(_) => return Err(RegionFault::OutOfMemory),
        }
    }
    Err(broken_rule(alloc, &grid, pinch))
}
