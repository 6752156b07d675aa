//! Flips between drawn tilings of small regions.

ghost use Rattle.std.specs.Prelude.{◌≡◌, ◌≤◌, length, IfSome};
ghost use Rattle.tl_definitions.specs.Accepted.{IsCircuit};

use crate::{distance, path, walk};
use std::alloc::Global;
use tl_boundary::{Circuit, circuit};
use tl_formats::INPUT_LIMIT;
use tl_height::{Heights, of_tiling};
use tl_lattice::Corner;
use tl_region::{Region, read_region};
use tl_tiling::read_drawing;

// The heights of a drawn tiling.
fn heights_of<'r>(
    alloc: Global,
    region: &'r Region,
    circuit: &Circuit,
    drawing: &[u8],
) -> Option<Heights<'r>>
    requires circuit { IsCircuit region.now circuit.now }
    requires drawing { length drawing.now ≤ INPUT_LIMIT }
    ensures { IfSome result (λ heights. heights.region ≡ region.now) }
{
    let (tiling, _) = read_drawing(alloc, region, drawing).ok()?;
    of_tiling(alloc, region, circuit, &tiling).ok()
}

// How many flips lead from one drawn tiling to another.
fn distance_of_drawings(alloc: Global, text: &[u8], first: &[u8], second: &[u8]) -> Option<u64>
    requires text { length text.now ≤ INPUT_LIMIT }
    requires first { length first.now ≤ INPUT_LIMIT }
    requires second { length second.now ≤ INPUT_LIMIT }
{
    let (region, _) = read_region(alloc, text).ok()?;
    let circuit = circuit(alloc, &region).ok()?;
    let from = heights_of(alloc, &region, &circuit, first)?;
    let to = heights_of(alloc, &region, &circuit, second)?;
    Some(distance(&from, &to))
}

#[test]
fn a_distance_is_as_many_flips_as_a_search_finds(rt: HostRuntime) {
    let cases: [(&[u8], &[u8], &[u8], u64); 6] = [
        (b"square\n##\n##\n", b"><\n><\n", b"vv\n^^\n", 1),
        (b"square\n###\n###\n", b"><v\n><^\n", b"v><\n^><\n", 2),
        (
            b"square\n####\n####\n####\n####\n",
            b"><><\n><><\n><><\n><><\n",
            b"vvvv\n^^^^\nvvvv\n^^^^\n",
            4,
        ),
        (
            b"square\n####\n####\n####\n####\n",
            b"><><\nv><v\n^><^\n><><\n",
            b"v><v\n^vv^\nv^^v\n^><^\n",
            10,
        ),
        (b"triangle\n###\n###\n", b"><v\n><^\n", b"v><\n^><\n", 1),
        (
            b"square\n.##.\n####\n####\n.##.\n",
            b".vv.\nv^^v\n^vv^\n.^^.\n",
            b".><.\n><><\n><><\n.><.\n",
            5,
        ),
    ];
    for (text, first, second, flips) in cases {
        let there = distance_of_drawings(rt.alloc(), text, first, second);
        assert_eq!(rt; there, Some(flips));
        let back = distance_of_drawings(rt.alloc(), text, second, first);
        assert_eq!(rt; back, Some(flips));
    }
}

#[test]
fn a_tiling_is_no_flip_from_itself(rt: HostRuntime) {
    let cases: [(&[u8], &[u8]); 2] = [
        (b"square\n###\n###\n", b"><v\n><^\n"),
        (b"triangle\n###\n###\n", b"v><\n^><\n"),
    ];
    for (text, drawing) in cases {
        let flips = distance_of_drawings(rt.alloc(), text, drawing, drawing);
        assert_eq!(rt; flips, Some(0));
    }
}

// The corners of a shortest path from one drawn tiling to another.
fn path_of_drawings(alloc: Global, text: &[u8], first: &[u8], second: &[u8]) -> Option<Vec<Corner>>
    requires text { length text.now ≤ INPUT_LIMIT }
    requires first { length first.now ≤ INPUT_LIMIT }
    requires second { length second.now ≤ INPUT_LIMIT }
{
    let (region, _) = read_region(alloc, text).ok()?;
    let circuit = circuit(alloc, &region).ok()?;
    let from = heights_of(alloc, &region, &circuit, first)?;
    let to = heights_of(alloc, &region, &circuit, second)?;
    path(alloc, &from, &to).ok()
}

#[test]
fn a_path_flips_the_corners_between_two_tilings(rt: HostRuntime) {
    let text = b"square\n###\n###\n".as_slice();
    let (high, low) = (b"><v\n><^\n".as_slice(), b"v><\n^><\n".as_slice());
    let there = path_of_drawings(rt.alloc(), text, high, low);
    assert!(rt; there.is_some());
    if let Some(corners) = there {
        let wanted = [Corner { r: 1, x: 1 }, Corner { r: 1, x: 2 }];
        assert_eq!(rt; corners.as_slice(), wanted.as_slice());
    }
    let stays = path_of_drawings(rt.alloc(), text, high, high);
    assert!(rt; stays.is_some());
    if let Some(corners) = stays {
        assert!(rt; corners.is_empty());
    }
}

// How far the flips of these corners come from a drawn tiling, and the numbers of its heights then.
fn walked(
    alloc: Global,
    text: &[u8],
    drawing: &[u8],
    corners: &[Corner],
) -> Option<(Option<usize>, Vec<i32>)>
    requires text { length text.now ≤ INPUT_LIMIT }
    requires drawing { length drawing.now ≤ INPUT_LIMIT }
{
    let (region, _) = read_region(alloc, text).ok()?;
    let circuit = circuit(alloc, &region).ok()?;
    let mut heights = heights_of(alloc, &region, &circuit, drawing)?;
    let stop = walk(&mut heights, corners);
    Some((stop, heights.into_numbers()))
}

#[test]
fn a_walk_stops_at_the_first_flip_that_is_not_lawful(rt: HostRuntime) {
    let text = b"square\n###\n###\n".as_slice();
    let drawing = b"><v\n><^\n".as_slice();
    let cases: [([(u32, u32); 2], Option<usize>); 5] = [
        ([(1, 1), (1, 2)], None),
        ([(1, 1), (1, 1)], None),
        ([(1, 1), (0, 1)], Some(1)),
        ([(1, 2), (1, 1)], Some(0)),
        ([(1_000_000, 4_000_000_000), (1, 1)], Some(0)),
    ];
    for ([first, second], wanted) in cases {
        let corners = [
            Corner {
                r: first.0,
                x: first.1,
            },
            Corner {
                r: second.0,
                x: second.1,
            },
        ];
        let end = walked(rt.alloc(), text, drawing, &corners);
        assert!(rt; matches!(&end, Some((stop, _)) if *stop == wanted));
    }
    let flipped = [0, -1, 0, -1, 0, 1, -2, 1, -2, 0, 0, -1, 0, -1, 0];
    let corners = [Corner { r: 1, x: 1 }, Corner { r: 1, x: 1_000 }];
    let end = walked(rt.alloc(), text, drawing, &corners);
    assert!(rt; end.is_some());
    if let Some((stop, numbers)) = end {
        assert_eq!(rt; stop, Some(1));
        assert_eq!(rt; numbers.as_slice(), flipped.as_slice());
    }
}

#[test]
fn a_flip_is_made_where_the_tiling_stands_high_or_low(rt: HostRuntime) {
    let text = b"square\n.##.\n####\n####\n.##.\n".as_slice();
    let drawing = b".><.\n><><\n><><\n.><.\n".as_slice();
    for (corner, wanted) in [
        (Corner { r: 2, x: 1 }, None),
        (Corner { r: 2, x: 2 }, Some(0)),
    ] {
        let end = walked(rt.alloc(), text, drawing, &[corner]);
        assert!(rt; matches!(&end, Some((stop, _)) if *stop == wanted));
    }
}
