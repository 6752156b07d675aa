//! Reasons that hold of small regions, and reasons near them that don't.

ghost use Rattle.std.specs.Prelude.{◌≤◌, ◌^◌, length};

use crate::{Obstruction, TextFault, check, read_obstruction, write_obstruction};
use std::alloc::Global;
use tl_boundary::circuit;
use tl_formats::INPUT_LIMIT;
use tl_lattice::Corner;
use tl_region::read_region;

// Whether the region that a text describes has the obstruction; None where there is no such region.
fn holds(alloc: Global, text: &[u8], told: &Obstruction) -> Option<bool>
    requires { length text.now ≤ INPUT_LIMIT }
{
    let (region, _) = read_region(alloc, text).ok()?;
    let circuit = circuit(alloc, &region).ok()?;
    Some(check(&region, &circuit, told))
}

// Whether the region has a gap of this rise along this path.
fn has_gap(alloc: Global, text: &[u8], rise: i64, corners: &[(u32, u32)]) -> Option<bool>
    requires { length text.now ≤ INPUT_LIMIT }
{
    let mut path = Vec::new(alloc);
    for (r, x) in corners {
        path.push(Corner { r: *r, x: *x }).ok()?;
    }
    holds(alloc, text, &Obstruction::Gap { rise, path })
}

#[test]
fn totals_of_small_regions(rt: HostRuntime) {
    let cases: [(&[u8], i64, bool); 8] = [
        (b"square\n#\n", 4, true),
        (b"square\n#\n", 0, false),
        (b"square\n#\n", -4, false),
        (b"square\n.#\n", -4, true),
        (b"square\n##\n##\n", 0, false),
        (b"square\n##\n##\n", 4, false),
        (b"triangle\n#\n", 3, true),
        (b"triangle\n#\n", i64::MAX, false),
    ];
    for (text, total, lawful) in cases {
        let told = Obstruction::Open { total };
        assert_eq!(rt; holds(rt.alloc(), text, &told), Some(lawful));
    }
}

#[test]
fn gaps_of_a_region_with_total_0(rt: HostRuntime) {
    let text = b"square\n.#..\n####\n..#.\n";
    let cases: [(i64, &[(u32, u32)], bool); 14] = [
        (5, &[(2, 2), (1, 2)], true),
        // against the step
        (5, &[(1, 2), (2, 2)], false),
        (-5, &[(1, 2), (2, 2)], false),
        // a rise that is off by one
        (4, &[(2, 2), (1, 2)], false),
        (6, &[(2, 2), (1, 2)], false),
        // one corner, and none
        (0, &[(2, 2)], false),
        (1, &[(2, 2)], false),
        (5, &[], false),
        // a rise as large as the number of steps
        (1, &[(0, 1), (1, 1)], false),
        // the edge is one of no cell of the region
        (2, &[(0, 0), (1, 0)], false),
        // off the circuit at one end
        (5, &[(2, 2), (0, 3)], false),
        // a corner in between that no step leads to
        (5, &[(2, 2), (9, 9), (1, 2)], false),
        (5, &[(2, 2), (999_999_999, 999_999_999), (1, 2)], false),
        (5, &[(2, 2), (u32::MAX, u32::MAX)], false),
    ];
    for (rise, path, lawful) in cases {
        assert_eq!(rt; has_gap(rt.alloc(), text, rise, path), Some(lawful));
    }
}

#[test]
fn the_first_corner_has_the_prefix_0(rt: HostRuntime) {
    let text = b"square\n..##.\n..###\n..###\n..#..\n";
    let told = Obstruction::Open { total: -4 };
    assert_eq!(rt; holds(rt.alloc(), text, &told), Some(true));
    assert_eq!(rt; has_gap(rt.alloc(), text, 5, &[(0, 3), (0, 2)]), Some(true));
    assert_eq!(rt;
        has_gap(rt.alloc(), text, 1, &[(0, 3), (0, 2)]),
        Some(false)
    );
}

// The line that is named as the first bad one of a text; 0 where it tells an obstruction.
fn bad_line(alloc: Global, text: &[u8]) -> Option<u32> {
    if text.len() > INPUT_LIMIT {
        return None;
    }
    match read_obstruction(alloc, text) {
        Ok(_) => Some(0),
        Err(TextFault::BadLine(line)) => Some(line),
        Err(TextFault::OutOfMemory) => None,
    }
}

#[test]
fn bad_lines_of_hostile_texts(rt: HostRuntime) {
    let cases: [(&[u8], u32); 34] = [
        (b"none open 4\n", 0),
        (b"none open 0", 0),
        (b"none open -999999999\r\n", 0),
        (b"none gap 5 1\n2 2\n1 2\n", 0),
        (b"\n\r\nnone gap 5 1\n2 2\n1 2\n\nmore", 0),
        (b"none gap 0 0\n999999999 999999999", 0),
        (b"", 1),
        (b"\n\n", 1),
        (b"none", 1),
        (b"none open", 1),
        (b"none open \n", 1),
        (b"none open -0\n", 1),
        (b"none open -\n", 1),
        (b"none open +4\n", 1),
        (b"none open 04\n", 1),
        (b"none open 00\n", 1),
        (b"none open -04\n", 1),
        (b"none open 1234567890\n", 1),
        (b"none  open 4\n", 1),
        (b"none open  4\n", 1),
        (b"none open 4 \n", 1),
        (b" none open 4\n", 1),
        (b"none open 4 4\n", 1),
        (b"None open 4\n", 1),
        (b"none gap 5\n2 2\n1 2\n", 1),
        (b"none gap 5 -1\n2 2\n1 2\n", 1),
        (b"none gap 5 1 1\n2 2\n1 2\n", 1),
        (b"none open 4\nmore\n", 2),
        (b"none gap 5 1\n", 2),
        (b"none gap 5 1\n2 2 \n1 2\n", 2),
        (b"none gap 5 1\n2 2\n", 3),
        (b"none gap 5 1\n2 2\n1\n0 0\n", 3),
        (b"none gap 5 1\n2 2\n1 2\n0 0\n", 4),
        (b"none gap 9 999999999\n2 2\n1 2\n", 4),
    ];
    for (text, line) in cases {
        assert_eq!(rt; bad_line(rt.alloc(), text), Some(line));
    }
}

// Whether the text is read to its end, and written as it was.
fn is_kept(alloc: Global, text: &[u8]) -> Option<bool>
    requires { length text.now ≤ INPUT_LIMIT }
{
    let (told, taken) = read_obstruction(alloc, text).ok()?;
    let written = write_obstruction(alloc, &told).ok()?;
    Some(taken == text.len() && written.as_slice() == text)
}

#[test]
fn texts_that_are_read_and_written(rt: HostRuntime) {
    let texts: [&[u8]; 5] = [
        b"none open 0\n",
        b"none open -4\n",
        b"none open 999999999\n",
        b"none gap 5 1\n2 2\n1 2\n",
        b"none gap -7 0\n999999999 0\n",
    ];
    for text in texts {
        assert_eq!(rt; is_kept(rt.alloc(), text), Some(true));
    }
}

#[test]
fn a_reason_that_was_read_is_checked(rt: HostRuntime) {
    let region = b"square\n.#..\n####\n..#.\n";
    let lawful = read_obstruction(rt.alloc(), b"none gap 5 1\n2 2\n1 2\n");
    assert!(rt; lawful.is_ok());
    if let Ok((told, taken)) = lawful {
        assert_eq!(rt; taken, 21);
        assert_eq!(rt; holds(rt.alloc(), region, &told), Some(true));
    }
    let exchanged = read_obstruction(rt.alloc(), b"none gap 5 1\n1 2\n2 2\n\nmore");
    assert!(rt; exchanged.is_ok());
    if let Ok((told, taken)) = exchanged {
        assert_eq!(rt; taken, 22);
        assert_eq!(rt; holds(rt.alloc(), region, &told), Some(false));
    }
}
