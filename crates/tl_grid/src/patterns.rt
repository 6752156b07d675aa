//! The cells round a corner as one small number, and what is read off it.

ghost use Rattle.std.specs.Prelude.{◌≡◌, ◌+◌, ◌*◌, ◌%◌, ◌<◌, ◌≤◌, ◌&&◌, count_by, position};
ghost use Rattle.std.specs.List.{list_any, list_all};
ghost use Rattle.tl_definitions.specs.Darts.{darts as darts_of, ring_places};
ghost use Rattle.tl_grid.specs.Patterns.{weight as weight_of, has_place as has_place_of, next_pattern as next_pattern_of, leaves_in, enters_in, is_edge_in, is_corner_by as is_corner_of_parity, is_outward_by, facts_by, AreAllFacts};

use crate::rings::darts;
use tl_definitions::{Back, Dart};
use tl_lattice::Kind;

/// What stands in the place of a dart's number where the boundary doesn't leave the corner.
pub const NO_EXIT: u8 = 255;

/// What the cells round a corner tell of it.
#[derive(Clone, Copy, PartialEq, Eq, Debug)]
pub struct RingFacts {
    /// They form two or more runs.
    pub is_pinch: bool,
    /// All of them are in the region.
    pub is_inner: bool,
    /// One of them is in the region.
    pub is_touched: bool,
    /// How many directed steps go out along edges of the region.
    pub steps: u8,
    /// The number of the first dart by which the boundary leaves the corner, or `NO_EXIT`.
    pub exit: u8,
}

const NO_FACTS: RingFacts = RingFacts {
    is_pinch: false,
    is_inner: false,
    is_touched: false,
    steps: 0,
    exit: NO_EXIT,
};

/// The pattern of the next corner in the row, whose own column has these cells.
pub fn next_pattern(pattern: u8, above: bool, below: bool) -> u8
    ensures next { result ≡ next_pattern_of pattern above below }
{
    (pattern % 16) * 4 + u8::from(above) * 2 + u8::from(below)
}

// The weight of the bit of a place of the ring.
fn weight(place: Back) -> u8
    ensures weight { result ≡ weight_of place }
    ensures some { 0 < result }
{
    let column = match place.columns {
        0 => 1,
        1 => 4,
        _ => 16,
    };
    if place.rows == 0 { column } else { column * 2 }
}

// Whether the cell at this place of the ring is in the region.
fn has_place(pattern: u8, place: Back) -> bool
    ensures { result ≡ has_place_of pattern place }
{
    (pattern / weight(place)) % 2 == 1
}

fn leaves(pattern: u8, dart: Dart) -> bool
    ensures { result ≡ leaves_in pattern dart }
{
    has_place(pattern, dart.left) && !has_place(pattern, dart.right)
}

fn enters(pattern: u8, dart: Dart) -> bool
    ensures { result ≡ enters_in pattern dart }
{
    !has_place(pattern, dart.left) && has_place(pattern, dart.right)
}

fn is_edge(pattern: u8, dart: Dart) -> bool
    ensures { result ≡ is_edge_in pattern dart }
{
    has_place(pattern, dart.left) || has_place(pattern, dart.right)
}

fn is_outward(parity: u8, dart: Dart) -> bool
    ensures { result ≡ is_outward_by parity dart }
{
    (u64::from(parity) + (u64::from(dart.left.rows) + u64::from(dart.left.columns))) % 2 == 0
}

fn is_corner(kind: Kind, parity: u8) -> bool
    ensures { result ≡ is_corner_of_parity kind parity }
{
    match kind {
        Kind::Square => true,
        Kind::Triangle => parity == 1,
    }
}

// How often a cell outside is followed by one inside.
fn entry_count(kind: Kind, pattern: u8) -> usize
    ensures { result ≡ count_by (enters_in pattern) (darts_of kind) }
{
    darts(kind)
        .iter()
        .filter(|dart| enters(pattern, **dart))
        .count()
}

fn step_count(kind: Kind, parity: u8, pattern: u8) -> usize
    ensures { result ≡ count_by (λ g. is_outward_by parity g && is_edge_in pattern g) (darts_of kind) }
{
    darts(kind)
        .iter()
        .filter(|dart| is_outward(parity, **dart) && is_edge(pattern, **dart))
        .count()
}

fn is_inner(kind: Kind, pattern: u8) -> bool
    ensures { result ≡ list_all (λ g. has_place_of pattern g.left) (darts_of kind) }
{
    darts(kind).iter().all(|dart| has_place(pattern, dart.left))
}

fn is_touched(kind: Kind, pattern: u8) -> bool
    ensures { result ≡ list_any (λ g. has_place_of pattern g.left) (darts_of kind) }
{
    darts(kind).iter().any(|dart| has_place(pattern, dart.left))
}

fn first_exit(kind: Kind, pattern: u8) -> Option<usize>
    ensures { result ≡ position (leaves_in pattern) (darts_of kind) }
{
    darts(kind).iter().position(|dart| leaves(pattern, *dart))
}

// What a pattern tells of a corner, where the sum of its row and its column has this remainder by 2.
fn facts(kind: Kind, parity: u8, pattern: u8) -> RingFacts
    ensures { result ≡ facts_by kind parity pattern }
{
    if !is_corner(kind, parity) {
        return NO_FACTS;
    }
    RingFacts {
        is_pinch: entry_count(kind, pattern) >= 2,
        is_inner: is_inner(kind, pattern),
        is_touched: is_touched(kind, pattern),
        steps: step_count(kind, parity, pattern) as u8,
        exit: match first_exit(kind, pattern) {
            Some(number) => number as u8,
            None => NO_EXIT,
        },
    }
}

/// What each pattern tells of a corner of a lattice, for both remainders of the sum of its row and its column by 2.
#[derive(Drop)]
pub struct FactTable {
    pub all: [RingFacts; 128],
}

impl FactTable {
    /// The table of a lattice.
    pub fn new(kind: Kind) -> FactTable
        ensures { AreAllFacts kind result.all }
    {
        let mut all = [NO_FACTS; 128];
        for i in 0..128_u8 {
            all[i as usize] = facts(kind, i / 64, i % 64);
        }
        FactTable { all }
    }

    /// What the pattern tells of a corner, where the sum of its row and its column has this remainder by 2.
    pub fn at(&self, kind: Kind, parity: u32, pattern: u8) -> RingFacts
        requires table { AreAllFacts kind self.now.all }
        requires parity { parity < 2 }
        requires pattern { pattern < 64 }
        ensures { result ≡ facts_by kind parity pattern }
    {
        self.all[parity as usize * 64 + pattern as usize]
    }
}
