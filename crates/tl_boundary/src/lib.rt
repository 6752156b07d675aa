//! The boundary circuit of a region: its sides in order, and the sums of their signs.
//!
//! A boundary side is a side of exactly one cell of the region. The circuit goes along the boundary sides with the
//! region on its left, and begins at the boundary corner that is first in raster order. The sign of a side is 1
//! where its cell is dark, and -1 where it is light.
#![tactic(auto)]

ghost use Rattle.std.specs.Prelude.{◌≡◌, List, IfOk};
ghost use Rattle.tl_definitions.specs.Lattice.{Side};
ghost use Rattle.tl_definitions.specs.Accepted.{IsCircuit};

mod circuit_type;

use crate::circuit_type::sign;
pub use circuit_type::Circuit;
use std::alloc::{AllocError, Global};
use tl_region::Region;

/// The boundary circuit of the region.
pub fn circuit(alloc: Global, region: &Region) -> Result<Circuit, AllocError>
    ensures circuit { IfOk result (IsCircuit region.now) }
    ensures only { IfOk result (λ circuit. (other : List Side) → IsCircuit region.now other
        → other ≡ circuit) }
{
    let kind = region.kind();
    let steps = region.boundary();
    let mut sum = 0;
    let mut prefixes = Vec::with_capacity(alloc, steps.len() + 1)?;
    prefixes.push(sum)?;
    for step in steps {
        sum += i64::from(sign(kind, *step));
        prefixes.push(sum)?;
    }
    Ok(Circuit {
        kind,
        steps: steps.to_vec(alloc)?,
        prefixes,
    })
}

#[cfg(test)]
mod tests;
