//! Distances along directed steps, and the top and the bottom tiling of a region, or a reason why it has none.
//!
//! One search serves all three: numbers spread along the directed steps, by 1 a step, from one corner for the distances,
//! and from the corners of the circuit, with their prefixes, for the greatest heights. The least heights are the
//! negatives of numbers that spread the other way.
#![tactic(auto)]

ghost use Rattle.std.specs.Prelude.{◌≡◌, IfOk, IsTrue};
ghost use Rattle.tl_definitions.specs.Region.{is_corner_of};

mod corner_graph;
mod distances_type;
mod sources;
#[cfg(test)]
mod tests;
mod verdicts;

use crate::corner_graph::CornerGraph;
pub use distances_type::Distances;
use std::alloc::{AllocError, Global};
use tl_boundary::circuit;
use tl_lattice::Corner;
use tl_region::Region;
use tl_search::{Outcome, Source, spread};
pub use verdicts::{Decision, Verdict, decide, extremes};

/// The distances from a corner of the region along edges of its cells, with the dark cell on the left.
///
/// # Errors
/// Want of memory.
pub fn distances<'a>(
    alloc: Global,
    region: &'a Region,
    from: Corner,
) -> Result<Distances<'a>, AllocError>
    requires { IsTrue (is_corner_of region.now from) }
    ensures { IfOk result (λ d. d ≡ record { region = region.now; from = from }) }
{
    let circuit = circuit(alloc, region)?;
    let graph = CornerGraph::of(alloc, region, &circuit)?;
    let source = Source {
        place: graph.place(from),
        number: 0,
    };
    match spread(alloc, &graph, &[source])? {
        Outcome::Filled(numbers) => Ok(Distances {
            region,
            from,
            numbers,
        }),
        // one source alone can't be undercut
        Outcome::Undercut(_) => unreachable!(),
    }
}
