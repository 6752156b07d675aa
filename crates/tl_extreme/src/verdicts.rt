//! The top and the bottom tiling, or a reason why there is none.

ghost use Rattle.std.specs.Prelude.{◌≡◌, ℕ, List, map, ℤ, pos, ◌-ℤ◌, IfOk, MatchOption, IsTrue};
ghost use Rattle.tl_lists.specs.Lists.{distinct};
ghost use Rattle.tl_definitions.specs.Lattice.{corner_eq};
ghost use Rattle.tl_definitions.specs.Accepted.{Accepted, IsCircuit, circuit_corners};
ghost use Rattle.tl_definitions.specs.Heights.{AreLawful};
ghost use Rattle.tl_definitions.specs.Obstruction.{IsObstruction, prefix as prefix_of, total as total_of};
ghost use Rattle.tl_obstruction.specs.Told.{told_by};
ghost use Rattle.tl_grid.specs.Grid.{IsGrid};
ghost use Rattle.tl_extreme.specs.CornerGraph.{corner_of};
ghost use Rattle.tl_extreme.specs.Undercuts.{AreEndsAt, HasEndsOn, IsGapForm, IsUndercutOf};
ghost use Rattle.tl_extreme.specs.Verdicts.{AreBottomHeights, IsDecision, IsReason, IsVerdict};

use crate::corner_graph::CornerGraph;
use crate::sources::{circuit_sources, to_heights};
use std::alloc::{AllocError, Global};
use tl_boundary::Circuit;
use tl_height::Heights;
use tl_lattice::Corner;
use tl_obstruction::Obstruction;
use tl_region::Region;
use tl_search::{Outcome, Reversed, spread};

/// Whether a region has a tiling.
#[derive(Drop)]
pub enum Decision<'a> {
    /// The heights of the top tiling.
    Tiled(Heights<'a>),
    /// Why there is none.
    Blocked(Obstruction),
}

/// The two tilings between which all others lie.
#[derive(Drop)]
pub enum Verdict<'a> {
    /// The heights of the bottom and of the top tiling.
    Pair { low: Heights<'a>, high: Heights<'a> },
    /// Why there is none.
    Blocked(Obstruction),
}

/// The top tiling of a region, or an obstruction, which is `Open` exactly where the total isn't 0. The circuit is that of
/// the region.
///
/// # Errors
/// Want of memory.
pub fn decide<'a>(
    alloc: Global,
    region: &'a Region,
    circuit: &Circuit,
) -> Result<Decision<'a>, AllocError>
    requires { IsCircuit region.now circuit.now }
    ensures { IfOk result (IsDecision region.now) }
{
    if let Some(told) = imbalance(region, circuit) {
        return Ok(Decision::Blocked(told));
    }
    let graph = CornerGraph::of(alloc, region, circuit)?;
    top(alloc, &graph, circuit)
}

/// The bottom and the top tiling of a region, or an obstruction, which is `Open` exactly where the total isn't 0. The
/// circuit is that of the region.
///
/// # Errors
/// Want of memory.
pub fn extremes<'a>(
    alloc: Global,
    region: &'a Region,
    circuit: &Circuit,
) -> Result<Verdict<'a>, AllocError>
    requires { IsCircuit region.now circuit.now }
    ensures { IfOk result (IsVerdict region.now) }
{
    if let Some(told) = imbalance(region, circuit) {
        return Ok(Verdict::Blocked(told));
    }
    let graph = CornerGraph::of(alloc, region, circuit)?;
    match top(alloc, &graph, circuit)? {
        Decision::Tiled(high) => Ok(Verdict::Pair {
            low: bottom(alloc, &graph, circuit)?,
            high,
        }),
        Decision::Blocked(told) => Ok(Verdict::Blocked(told)),
    }
}

// The total as a reason, where it isn't 0.
fn imbalance(region: &Region, circuit: &Circuit) -> Option<Obstruction>
    requires { IsCircuit region.now circuit.now }
    ensures { MatchOption result (total_of region.now ≡ pos 0) (λ told. IsReason region.now (told_by told)) }
{
    // the region's calls tell that it is accepted
    prove!(region.rows() <= u32::MAX);
    let total = circuit.total();
    if total != 0 {
        Some(Obstruction::Open { total })
    } else {
        None
    }
}

// The top tiling of a region whose total is 0, or a gap.
fn top<'a>(
    alloc: Global,
    graph: &CornerGraph<'a>,
    circuit: &Circuit,
) -> Result<Decision<'a>, AllocError>
    requires is_grid { IsGrid graph.now }
    requires accepted { Accepted graph.now }
    requires circuit { IsCircuit graph.now circuit.now }
    requires balanced { total_of graph.now ≡ pos 0 }
    ensures { IfOk result (IsDecision graph.now) }
{
    let sources = circuit_sources(alloc, graph, circuit, false)?;
    match spread(alloc, graph, sources.as_slice())? {
        Outcome::Filled(numbers) => {
            let heights = to_heights(numbers, false);
            Ok(Decision::Tiled(Heights::of_numbers(graph.region(), heights)))
        }
        Outcome::Undercut(path) => Ok(Decision::Blocked(gap(
            alloc,
            graph,
            circuit,
            path.as_slice(),
        )?)),
    }
}

// The heights of the bottom tiling of a region that has one.
fn bottom<'a>(
    alloc: Global,
    graph: &CornerGraph<'a>,
    circuit: &Circuit,
) -> Result<Heights<'a>, AllocError>
    requires is_grid { IsGrid graph.now }
    requires accepted { Accepted graph.now }
    requires circuit { IsCircuit graph.now circuit.now }
    requires tiled { (numbers : List ℤ) × AreLawful graph.now numbers }
    ensures { IfOk result (AreBottomHeights graph.now) }
{
    let sources = circuit_sources(alloc, graph, circuit, true)?;
    match spread(alloc, &Reversed(graph), sources.as_slice())? {
        Outcome::Filled(numbers) => {
            let heights = to_heights(numbers, true);
            Ok(Heights::of_numbers(graph.region(), heights))
        }
        // the prefixes of a region with a tiling fit
        Outcome::Undercut(_) => unreachable!(),
    }
}

// The corners of the places on a path.
fn corners_along(
    alloc: Global,
    graph: &CornerGraph,
    path: &[u32],
) -> Result<Vec<Corner>, AllocError>
    ensures { IfOk result (λ corners. corners.items ≡ map (corner_of graph.now) path.now) }
{
    let mut corners = Vec::with_capacity(alloc, path.len())?;
    for place in path {
        corners.push(graph.corner(*place))?;
    }
    Ok(corners)
}

// By how much the prefixes rise from the first to the last corner of a path from the circuit to the circuit.
fn rise_along(circuit: &Circuit, path: &[Corner]) -> i64
    requires once { IsTrue (distinct corner_eq (circuit_corners circuit.now)) }
    requires ends { HasEndsOn circuit.now path.now }
    ensures { (k l : ℕ) → AreEndsAt circuit.now path.now k l → result ≡ prefix_of circuit.now l -ℤ prefix_of circuit.now k }
{
    let Some(k) = circuit.place_of(path[0]) else {
        unreachable!()
    };
    let Some(l) = circuit.place_of(path[path.len() - 1]) else {
        unreachable!()
    };
    circuit.rise_between(k, l)
}

// The obstruction that an undercut tells.
fn gap(
    alloc: Global,
    graph: &CornerGraph,
    circuit: &Circuit,
    path: &[u32],
) -> Result<Obstruction, AllocError>
    requires is_grid { IsGrid graph.now }
    requires circuit { IsCircuit graph.now circuit.now }
    requires undercut { IsUndercutOf graph.now circuit.now path.now }
    ensures { IfOk result (λ told. IsObstruction graph.now (told_by told) × IsGapForm (told_by told)) }
{
    let path = corners_along(alloc, graph, path)?;
    let rise = rise_along(circuit, path.as_slice());
    Ok(Obstruction::Gap { rise, path })
}
