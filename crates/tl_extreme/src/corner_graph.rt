//! The corners of a region as the places of a graph.

ghost use Rattle.std.specs.Prelude.{◌≡◌, map, IfOk, IsTrue};
ghost use Rattle.std.specs.List.{range_with_len};
ghost use Rattle.tl_lists.specs.Lists.{present};
ghost use Rattle.tl_definitions.specs.Accepted.{Accepted, IsCircuit};
ghost use Rattle.tl_definitions.specs.Region.{is_corner_of, is_step, steps as steps_of};
ghost use Rattle.tl_grid.specs.Grid.{IsGrid};
ghost use Rattle.tl_extreme.specs.CornerGraph.{corner_of, graph_of, place as place_of, place_if, steps_to};
ghost use Rattle.tl_extreme.specs.PlaceKinds.{AreKinds, AreKindsOf, by_parity, corner_parity};

use std::alloc::{AllocError, Global};
use std::marker::Model;
use tl_boundary::Circuit;
use tl_lattice::{Corner, Kind, steps_in, steps_out};
use tl_region::Region;
use tl_search::Graph;

/// What is kept of a corner: that it is on the circuit, or the parity of its coordinates where it is an inner one.
#[derive(Clone, Copy, PartialEq, Eq, Debug)]
pub enum PlaceKind {
    Edge,
    Even,
    Odd,
}

// What is kept of an inner corner whose coordinates have this sum.
fn by_parity(sum: usize) -> PlaceKind
    ensures { result ≡ by_parity sum }
{
    if sum % 2 == 0 {
        PlaceKind::Even
    } else {
        PlaceKind::Odd
    }
}

// The parities by turns.
fn turns(alloc: Global, count: usize) -> Result<Vec<PlaceKind>, AllocError>
    ensures { IfOk result (λ kinds. kinds.items ≡ map by_parity (range_with_len 0 count)) }
{
    (0..count).map(|n| by_parity(n)).collect(alloc)
}

// The parities of so many rows, each of this width.
fn parities(alloc: Global, rows: u32, width: u32) -> Result<Vec<PlaceKind>, AllocError>
    ensures { IfOk result (λ kinds. AreKinds rows width corner_parity kinds.items) }
{
    let width = width as usize;
    let turns = turns(alloc, width + 1)?;
    let mut kinds = Vec::with_capacity(alloc, rows as usize * width)?;
    for r in 0..rows {
        let first = r as usize % 2;
        kinds.extend_from_slice(&turns[first..first + width])?;
    }
    Ok(kinds)
}

// What is kept of the corners of a region, row by row.
fn place_kinds(
    alloc: Global,
    region: &Region,
    circuit: &Circuit,
) -> Result<Vec<PlaceKind>, AllocError>
    requires { IsCircuit region.now circuit.now }
    ensures { IfOk result (λ kinds. AreKindsOf region.now kinds.items) }
{
    let width = region.columns() + 2;
    let mut kinds = parities(alloc, region.rows() + 1, width)?;
    for k in 0..circuit.len() {
        let corner = circuit.corner(k);
        kinds[(corner.r * width + corner.x) as usize] = PlaceKind::Edge;
    }
    Ok(kinds)
}

/// The corners of a region and the directed steps along edges of its cells.
#[derive(Drop)]
pub struct CornerGraph<'a> {
    region: &'a Region,
    width: u32,
    kinds: Vec<PlaceKind>,
}

impl<'a> Model for CornerGraph<'a> {
    ghost use Rattle.std.specs.Prelude.{◌≡◌, ◌+◌};
    ghost use Rattle.tl_definitions.specs.Region as shape;
    ghost use Rattle.tl_grid.specs.Grid.{IsGrid};
    ghost use Rattle.tl_extreme.specs.PlaceKinds.{AreKindsOf};

    ghost Value = { shape.Region };

    ghost view = { λ s. s.region.now };

    ghost invariant = { λ s. IsGrid s.region.now × (s.width ≡ s.region.now.columns + 2) × AreKindsOf s.region.now s.kinds.items };
}

impl<'a> CornerGraph<'a> {
    /// The graph of a region and its circuit.
    ///
    /// # Errors
    /// Want of memory.
    pub fn of(
        alloc: Global,
        region: &'a Region,
        circuit: &Circuit,
    ) -> Result<CornerGraph<'a>, AllocError>
        requires { IsCircuit region.now circuit.now }
        ensures graph { IfOk result (λ graph. graph ≡ region.now) }
        ensures is_grid { IfOk result (λ graph. IsGrid region.now) }
        ensures accepted { IfOk result (λ graph. Accepted region.now) }
    {
        // the region's calls tell that it is accepted
        prove!(region.rows() <= u32::MAX);
        Ok(CornerGraph {
            region,
            width: region.columns() + 2,
            kinds: place_kinds(alloc, region, circuit)?,
        })
    }

    /// The region.
    pub fn region(&self) -> &'a Region
        ensures { result.now ≡ self.now }
    {
        self.region
    }

    /// The place of a corner of the region.
    pub fn place(&self, corner: Corner) -> u32
        requires { IsTrue (is_corner_of self.now corner) }
        ensures { result ≡ place_of self.now corner }
    {
        corner.r * self.width + corner.x
    }

    /// The corner of a place.
    pub fn corner(&self, place: u32) -> Corner
        ensures { result ≡ corner_of self.now place }
    {
        Corner {
            r: place / self.width,
            x: place % self.width,
        }
    }

    // The place of a corner where a step of the region leads to it.
    fn place_after(&self, from: Corner, to: Option<Corner>) -> Option<u32>
        ensures { result ≡ place_if self.now (is_step self.now from) to }
    {
        let to = to?;
        if self.region.is_step(from, to) {
            Some(self.place(to))
        } else {
            None
        }
    }

    // The place of a corner where a step of the region leads from it.
    fn place_before(&self, to: Corner, from: Option<Corner>) -> Option<u32>
        ensures { result ≡ place_if self.now (λ u. is_step self.now u to) from }
    {
        let from = from?;
        if self.region.is_step(from, to) {
            Some(self.place(from))
        } else {
            None
        }
    }

    fn steps_from_edge(&self, from: Corner) -> [Option<u32>; 3]
        requires { IsTrue (is_corner_of self.now from) }
        ensures { present result ≡ map (place_of self.now) (steps_of self.now from) }
    {
        let to = steps_out(self.region.kind(), from).corners;
        [
            self.place_after(from, to[0]),
            self.place_after(from, to[1]),
            self.place_after(from, to[2]),
        ]
    }

    fn steps_to_edge(&self, to: Corner) -> [Option<u32>; 3]
        requires { IsTrue (is_corner_of self.now to) }
        ensures { present result ≡ map (place_of self.now) (steps_to self.now to) }
    {
        let from = steps_in(self.region.kind(), to).corners;
        [
            self.place_before(to, from[0]),
            self.place_before(to, from[1]),
            self.place_before(to, from[2]),
        ]
    }
}

impl<'a> Graph for CornerGraph<'a> {
    ghost meaning = { λ s. graph_of s };

    fn count(&self) -> u32 {
        (self.region.rows() + 1) * self.width
    }

    // All steps from an inner corner are steps of the region.
    fn steps(&self, place: u32) -> [Option<u32>; 3] {
        let width = self.width;
        match (self.kinds[place as usize], self.region.kind()) {
            (PlaceKind::Edge, _) => self.steps_from_edge(self.corner(place)),
            (PlaceKind::Even, Kind::Square) => [Some(place - width), Some(place + width), None],
            (PlaceKind::Odd, Kind::Square) => [Some(place - 1), Some(place + 1), None],
            (_, Kind::Triangle) => [
                Some(place + 2),
                Some(place - width - 1),
                Some(place + width - 1),
            ],
        }
    }

    // All steps to an inner corner are steps of the region.
    fn steps_back(&self, place: u32) -> [Option<u32>; 3] {
        let width = self.width;
        match (self.kinds[place as usize], self.region.kind()) {
            (PlaceKind::Edge, _) => self.steps_to_edge(self.corner(place)),
            (PlaceKind::Even, Kind::Square) => [Some(place + 1), Some(place - 1), None],
            (PlaceKind::Odd, Kind::Square) => [Some(place - width), Some(place + width), None],
            (_, Kind::Triangle) => [
                Some(place - width + 1),
                Some(place + width + 1),
                Some(place - 2),
            ],
        }
    }
}
