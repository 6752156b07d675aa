//! Distances, drawn tilings and reasons of small regions, by hand.

ghost use Rattle.std.specs.Prelude.{◌≤◌, ◌^◌, length, IsTrue};
ghost use Rattle.tl_definitions.specs.Accepted.{IsCircuit};
ghost use Rattle.tl_definitions.specs.Region.{is_corner_of};

use crate::{Decision, Distances, Verdict, decide, distances, extremes};
use std::alloc::Global;
use tl_boundary::{Circuit, circuit};
use tl_formats::INPUT_LIMIT;
use tl_height::Heights;
use tl_lattice::Corner;
use tl_obstruction::{Obstruction, check};
use tl_region::{Region, read_region};

// Whether it is a corner of the region. Each is on the circuit or an inner one.
fn is_corner(region: &Region, circuit: &Circuit, corner: Corner) -> bool
    requires { IsCircuit region.now circuit.now }
    ensures { IsTrue result → IsTrue (is_corner_of region.now corner) }
{
    // the region's calls tell that it is accepted
    prove!(region.rows() <= u32::MAX);
    circuit.place_of(corner).is_some() || region.is_inner(corner)
}

// The distance between two corners, where both are of the region.
fn distance(alloc: Global, text: &[u8], from: (u32, u32), to: (u32, u32)) -> Option<u32>
    requires { length text.now ≤ INPUT_LIMIT }
{
    let (region, _) = read_region(alloc, text).ok()?;
    let circuit = circuit(alloc, &region).ok()?;
    let from = Corner {
        r: from.0,
        x: from.1,
    };
    let to = Corner { r: to.0, x: to.1 };
    if is_corner(&region, &circuit, from) && is_corner(&region, &circuit, to) {
        Some(distances(alloc, &region, from).ok()?.to(to))
    } else {
        None
    }
}

#[test]
fn a_step_against_its_direction_is_a_way_round_a_cell(rt: HostRuntime) {
    let cases: [(&[u8], (u32, u32), (u32, u32), u32); 9] = [
        (b"square\n##\n##\n", (0, 0), (0, 0), 0),
        (b"square\n##\n##\n", (0, 0), (1, 0), 1),
        (b"square\n##\n##\n", (1, 0), (0, 0), 3),
        (b"square\n##\n##\n", (0, 0), (0, 1), 3),
        (b"square\n##\n##\n", (0, 0), (2, 2), 4),
        (b"square\n##\n##\n", (0, 0), (1, 2), 5),
        (b"triangle\n###\n###\n", (0, 1), (0, 3), 1),
        (b"triangle\n###\n###\n", (0, 3), (0, 1), 2),
        (b"triangle\n###\n###\n", (0, 1), (2, 3), 4),
    ];
    for (text, from, to, wanted) in cases {
        assert_eq!(rt; distance(rt.alloc(), text, from, to), Some(wanted));
    }
}

// The drawing of the tiling with these heights.
fn drawn(alloc: Global, heights: &Heights) -> Option<Vec<u8>> {
    let region = heights.region();
    let size = region.rows() as usize * (region.columns() as usize + 1);
    let mut letters = vec![in alloc; b'?'; size].ok()?;
    heights.to_letters(&mut letters);
    Some(letters)
}

// The drawings of the bottom and the top tiling, where there are any.
fn drawings(alloc: Global, text: &[u8]) -> Option<(Vec<u8>, Vec<u8>)>
    requires { length text.now ≤ INPUT_LIMIT }
{
    let (region, _) = read_region(alloc, text).ok()?;
    let circuit = circuit(alloc, &region).ok()?;
    match extremes(alloc, &region, &circuit).ok()? {
        Verdict::Pair { low, high } => Some((drawn(alloc, &low)?, drawn(alloc, &high)?)),
        Verdict::Blocked(_) => None,
    }
}

#[test]
fn bottom_and_top_tilings_of_small_regions(rt: HostRuntime) {
    let cases: [(&[u8], &[u8], &[u8]); 4] = [
        (b"square\n##\n##\n", b"vv\n^^\n", b"><\n><\n"),
        (b"square\n###\n###\n", b"v><\n^><\n", b"><v\n><^\n"),
        (b"triangle\n###\n###\n", b"v><\n^><\n", b"><v\n><^\n"),
        (
            b"square\n####\n####\n####\n####\n",
            b"v><v\n^vv^\nv^^v\n^><^\n",
            b"><><\nv><v\n^><^\n><><\n",
        ),
    ];
    for (text, bottom, top) in cases {
        let read = drawings(rt.alloc(), text);
        assert!(rt; read.is_some());
        if let Some((low, high)) = read {
            assert_eq!(rt; low.as_slice(), bottom);
            assert_eq!(rt; high.as_slice(), top);
        }
    }
}

// The drawing of the top tiling, where there is one.
fn top(alloc: Global, text: &[u8]) -> Option<Vec<u8>>
    requires { length text.now ≤ INPUT_LIMIT }
{
    let (region, _) = read_region(alloc, text).ok()?;
    let circuit = circuit(alloc, &region).ok()?;
    match decide(alloc, &region, &circuit).ok()? {
        Decision::Tiled(heights) => drawn(alloc, &heights),
        Decision::Blocked(_) => None,
    }
}

#[test]
fn the_top_tiling_of_a_chessboard(rt: HostRuntime) {
    let text =
        b"square\n########\n########\n########\n########\n########\n########\n########\n########\n";
    let tiling =
        b"><><><><\nv><><><v\n^v><><v^\nv^v><v^v\n^v^><^v^\nv^><><^v\n^><><><^\n><><><><\n";
    let read = top(rt.alloc(), text);
    assert!(rt; read.is_some());
    if let Some(letters) = read {
        assert_eq!(rt; letters.as_slice(), tiling.as_slice());
    }
}

// Why the region has no tiling, where `check` finds that it holds.
fn reason(alloc: Global, text: &[u8]) -> Option<Obstruction>
    requires { length text.now ≤ INPUT_LIMIT }
{
    let (region, _) = read_region(alloc, text).ok()?;
    let circuit = circuit(alloc, &region).ok()?;
    match decide(alloc, &region, &circuit).ok()? {
        Decision::Tiled(_) => None,
        Decision::Blocked(told) => {
            if check(&region, &circuit, &told) {
                Some(told)
            } else {
                None
            }
        }
    }
}

#[test]
fn a_total_that_is_not_0_is_told(rt: HostRuntime) {
    let board =
        b"square\n.#######\n########\n########\n########\n########\n########\n########\n#######.\n";
    let cases: [(&[u8], i64); 4] = [
        (b"square\n#\n", 4),
        (b"triangle\n#\n", 3),
        (b"triangle\n.#\n", -3),
        (board, -8),
    ];
    for (text, wanted) in cases {
        let told = reason(rt.alloc(), text);
        assert!(rt; matches!(&told, Some(Obstruction::Open { total }) if *total == wanted));
    }
}

#[test]
fn a_gap_is_told_where_the_total_is_0(rt: HostRuntime) {
    let text = b"square\n.#..\n####\n..#.\n";
    let told = reason(rt.alloc(), text);
    assert!(rt; matches!(&told, Some(Obstruction::Gap { .. })));
    assert!(rt; drawings(rt.alloc(), text).is_none());
}

// Only a type whose values threads may share and pass on can be put here.
fn may_go_to_threads<T: Send + Sync>() {}

#[test]
fn what_is_found_may_go_to_threads() {
    may_go_to_threads::<Distances>();
    may_go_to_threads::<Decision>();
    may_go_to_threads::<Verdict>();
}
