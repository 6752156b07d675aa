//! The corners of the circuit as sources, and heights from the numbers that spread.

ghost use Rattle.std.specs.Prelude.{◌≡◌, ◌<◌, length, List, map, ℤ, neg_ℤ, pos, ◌^◌, ◌≤ℤ◌, slice_get, Some, ℕ, IfOk};
ghost use Rattle.tl_definitions.specs.Accepted.{IsCircuit};
ghost use Rattle.tl_search.specs.Spreading.{AreSources};
ghost use Rattle.tl_grid.specs.Grid.{IsGrid};
ghost use Rattle.tl_extreme.specs.CornerGraph.{run_of};
ghost use Rattle.tl_extreme.specs.Sources.{AreFromCircuit, IsSmall, IsSourceAt, height_by, turned_by};

use crate::corner_graph::CornerGraph;
use std::alloc::{AllocError, Global};
use tl_boundary::Circuit;
use tl_search::{Source, UNREACHED};

// A number, or its negative.
fn turned(number: i32, negated: bool) -> i32
    requires { neg_ℤ (pos (2 ^ 30)) ≤ℤ number }
    ensures { result ≡ turned_by negated number }
{
    if negated { -number } else { number }
}

// The source that a place of the circuit makes.
fn source_at(graph: &CornerGraph, circuit: &Circuit, k: u32, negated: bool) -> Source
    requires is_grid { IsGrid graph.now }
    requires circuit { IsCircuit graph.now circuit.now }
    requires k { k < length circuit.now }
    ensures source { IsSourceAt graph.now circuit.now negated k result }
    ensures small { IsSmall result }
{
    // the circuit of a region isn't long
    prove!(circuit.len() <= 1 << 20);
    let prefix = circuit.prefix(k) as i32;
    Source {
        place: graph.place(circuit.corner(k)),
        number: turned(prefix, negated),
    }
}

/// A source for each corner of the circuit, numbered by its prefix or by the negative of it, from the least number to
/// the greatest.
pub fn circuit_sources(
    alloc: Global,
    graph: &CornerGraph,
    circuit: &Circuit,
    negated: bool,
) -> Result<Vec<Source>, AllocError>
    requires is_grid { IsGrid graph.now }
    requires circuit { IsCircuit graph.now circuit.now }
    ensures from_circuit { IfOk result (λ sources. AreFromCircuit graph.now circuit.now negated sources.items) }
    ensures sources { IfOk result (λ sources. AreSources (run_of negated graph.now) sources.items) }
{
    let mut sources = Vec::with_capacity(alloc, circuit.len() as usize)?;
    for k in 0..circuit.len() {
        sources.push(source_at(graph, circuit, k, negated))?;
    }
    sources.sort_by_key(|source| source.number)?;
    Ok(sources)
}

fn height(number: i32, negated: bool) -> i32
    requires { neg_ℤ (pos (2 ^ 30)) ≤ℤ number }
    ensures { result ≡ height_by negated number }
{
    if number == UNREACHED {
        0
    } else {
        turned(number, negated)
    }
}

/// The heights that the numbers tell, in their places.
pub fn to_heights(numbers: Vec<i32>, negated: bool) -> Vec<i32>
    requires { (i : ℕ) (z : ℤ) → slice_get numbers.items i ≡ Some z → neg_ℤ (pos (2 ^ 30)) ≤ℤ z }
    ensures { result.items ≡ map (height_by negated) numbers.items }
{
    let mut heights = numbers;
    for i in 0..heights.len() {
        heights[i] = height(heights[i], negated);
    }
    heights
}
