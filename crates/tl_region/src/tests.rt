//! Region texts, and each way of being refused.

ghost use Rattle.std.specs.Prelude.{◌≤◌, length};

use crate::{Region, RegionFault, read_region, rest_is_empty};
use std::alloc::{AllocError, Global};
use std::test::Fail;
use tl_formats::INPUT_LIMIT;
use tl_lattice::{Cell, Corner, Kind};

fn fault_of(alloc: Global, text: &[u8]) -> Option<RegionFault>
    requires { length text.now ≤ INPUT_LIMIT }
{
    read_region(alloc, text).err()
}

#[test]
fn a_region_has_its_cells_in_raster_order(rt: HostRuntime) {
    let text = b"triangle  \r\n#.\r\n###\r\n \r\n\r\nrest".as_slice();
    let read = read_region(rt.alloc(), text);
    assert!(rt; read.is_ok());
    if let Ok((region, taken)) = read {
        assert_eq!(rt; taken, text.len() - 4);
        assert_eq!(rt; region.kind(), Kind::Triangle);
        assert_eq!(rt; region.rows(), 3);
        assert_eq!(rt; region.columns(), 3);
        assert_eq!(rt; region.cell_count(), 4);
        let wanted = [(0u32, 0u32), (1, 0), (1, 1), (1, 2)];
        for (i, (r, c)) in wanted.into_iter().enumerate() {
            assert!(rt; (i as u32) < region.cell_count());
            assert_eq!(rt; region.cell(i as u32), Cell { r, c });
        }
        for r in 0..5u32 {
            for c in 0..5u32 {
                assert_eq!(rt;
                    region.has(Cell { r, c }),
                    wanted.contains(&(r, c)),
                    "{r} {c}"
                );
            }
        }
    }
}

#[test]
fn each_text_has_its_first_fault(rt: HostRuntime) {
    let cases: [(&[u8], RegionFault); 24] = [
        (b"", RegionFault::BadHeader),
        (b"\nsquare\n##\n", RegionFault::BadHeader),
        (b"Square\n##\n", RegionFault::BadHeader),
        (b"square.\n##\n", RegionFault::BadHeader),
        (b"square\t\n##\n", RegionFault::BadHeader),
        (b"square\r\r\n##\n", RegionFault::BadHeader),
        (b" square\n##\n", RegionFault::BadHeader),
        (b"square", RegionFault::Empty),
        (b"square\n..\n \n", RegionFault::Empty),
        (b"square\n#x\n", RegionFault::BadByte(Cell { r: 0, c: 1 })),
        (
            b"square\n#.\n.x\nx\n",
            RegionFault::BadByte(Cell { r: 1, c: 1 }),
        ),
        (
            b"square\n##x\n#x\n",
            RegionFault::BadByte(Cell { r: 0, c: 2 }),
        ),
        (b"square\n#\r#\n", RegionFault::BadByte(Cell { r: 0, c: 1 })),
        (
            b"square\n#\r\r\n",
            RegionFault::BadByte(Cell { r: 0, c: 1 }),
        ),
        (
            b"triangle\n#\n\t\n",
            RegionFault::BadByte(Cell { r: 1, c: 0 }),
        ),
        (b"triangle\n\n##\n", RegionFault::Empty),
        (b"square\n#.\n.#\n", RegionFault::Parts(Cell { r: 1, c: 1 })),
        (
            b"triangle\n.#\n.#\n",
            RegionFault::Parts(Cell { r: 1, c: 1 }),
        ),
        (
            b"square\n###.#\n#.#..\n##...\n",
            RegionFault::Parts(Cell { r: 0, c: 4 }),
        ),
        (
            b"square\n###\n#.#\n##.\n",
            RegionFault::Pinch(Corner { r: 2, x: 2 }),
        ),
        (b"square\n###\n#.#\n###\n", RegionFault::Hole),
        (b"triangle\n.#####.\n###.###\n.#####.\n", RegionFault::Hole),
        (b"square\n#####\n#.#.#\n###.#\n..###\n", RegionFault::Hole),
        (
            b"square\n###\n#x#\n",
            RegionFault::BadByte(Cell { r: 1, c: 1 }),
        ),
    ];
    for (text, fault) in cases {
        assert!(rt; text.len() < 100);
        assert_eq!(rt; fault_of(rt.alloc(), text), Some(fault), "{text:?}");
    }
}

fn long_text(
    alloc: Global,
    columns: usize,
    rows: usize,
    last: &[u8],
) -> Result<Vec<u8>, AllocError> {
    let mut text = Vec::from_slice(alloc, b"square\n")?;
    for _ in 0..rows {
        for _ in 0..columns {
            text.push(b'#')?;
        }
        text.push(b'\n')?;
    }
    text.extend_from_slice(last)?;
    Ok(text)
}

#[test]
fn a_region_has_at_most_512_rows_and_columns(rt: HostRuntime) -> Result<(), AllocError> {
    let large = Some(RegionFault::TooLarge);
    let cases: [(usize, usize, &[u8], Option<RegionFault>); 8] = [
        (512, 1, b"", None),
        (513, 1, b"", large),
        (1, 512, b"", None),
        (1, 513, b"", large),
        (1, 512, b".\n", large),
        (512, 512, b"", None),
        (
            513,
            1,
            b".x",
            Some(RegionFault::BadByte(Cell { r: 1, c: 1 })),
        ),
        (
            1,
            700,
            b"x",
            Some(RegionFault::BadByte(Cell { r: 700, c: 0 })),
        ),
    ];
    for (columns, rows, last, fault) in cases {
        let text = long_text(rt.alloc(), columns, rows, last)?;
        assert!(rt; text.len() <= 4194304);
        assert_eq!(rt;
            fault_of(rt.alloc(), text.as_slice()),
            fault,
            "{columns} {rows}"
        );
    }
    Ok(())
}

#[test]
fn rows_past_the_limit_have_their_bad_bytes_told(rt: HostRuntime) -> Result<(), AllocError> {
    let cases: [(usize, usize, &[u8], RegionFault); 5] = [
        (100000, 1, b"", RegionFault::TooLarge),
        (600, 2, b".. \n#", RegionFault::TooLarge),
        (1, 512, b"#.x", RegionFault::BadByte(Cell { r: 512, c: 2 })),
        (
            600,
            600,
            b"##\n#?x\nx",
            RegionFault::BadByte(Cell { r: 601, c: 1 }),
        ),
        (1, 600, b"\nx", RegionFault::TooLarge),
    ];
    for (columns, rows, last, fault) in cases {
        let text = long_text(rt.alloc(), columns, rows, last)?;
        assert!(rt; text.len() <= 4194304);
        assert_eq!(rt;
            fault_of(rt.alloc(), text.as_slice()),
            Some(fault),
            "{columns} {rows}"
        );
    }
    let mut wide = long_text(rt.alloc(), 0, 0, b"")?;
    for _ in 0..600 {
        wide.push(b'#')?;
    }
    wide.extend_from_slice(b"x#\ny\n")?;
    assert!(rt; wide.len() <= 4194304);
    let bad = RegionFault::BadByte(Cell { r: 0, c: 600 });
    assert_eq!(rt; fault_of(rt.alloc(), wide.as_slice()), Some(bad));
    Ok(())
}

#[test]
fn only_line_ends_may_be_left(rt: HostRuntime) {
    assert!(rt; rest_is_empty(b"\r\n\n"));
    assert!(rt; !rest_is_empty(b"\n#"));
}

#[test]
fn inner_corners_are_numbered_in_raster_order(rt: HostRuntime) -> Result<(), Fail> {
    let cases: [(&[u8], &[(u32, u32)]); 6] = [
        (b"square\n#\n", &[]),
        (b"square\n##\n##\n", &[(1, 1)]),
        (
            b"square\n.##\n####\n####\n.##\n",
            &[(1, 2), (2, 1), (2, 2), (2, 3), (3, 2)],
        ),
        (b"triangle\n##\n##\n", &[]),
        (b"triangle\n###\n###\n", &[(1, 2)]),
        (b"triangle\n.###\n.###\n", &[]),
    ];
    for (text, corners) in cases {
        assert!(rt; text.len() < 100);
        let (region, _) = read_region(rt.alloc(), text)?;
        assert_eq!(rt; region.inner_count() as usize, corners.len(), "{text:?}");
        for (i, (r, x)) in corners.iter().enumerate() {
            assert!(rt; (i as u32) < region.inner_count());
            assert_eq!(rt; region.inner(i as u32), Corner { r: *r, x: *x });
        }
        for r in 0..6u32 {
            for x in 0..7u32 {
                let number = corners.iter().position(|pair| *pair == (r, x));
                let corner = Corner { r, x };
                assert_eq!(rt;
                    region.index_of(corner).map(|i| i as usize),
                    number,
                    "{r} {x}"
                );
                assert_eq!(rt; region.is_inner(corner), number.is_some(), "{r} {x}");
            }
        }
        for far in [512u32, 513, 1048576, u32::MAX] {
            for corner in [
                Corner { r: far, x: 1 },
                Corner { r: 1, x: far },
                Corner { r: far, x: far },
            ] {
                assert_eq!(rt; region.index_of(corner), None);
                assert!(rt; !region.is_inner(corner));
            }
        }
    }
    Ok(())
}

#[test]
fn places_of_inner_corners_go_row_by_row(rt: HostRuntime) -> Result<(), Fail> {
    let text = b"square\n.##\n####\n####\n.##\n".as_slice();
    let (region, _) = read_region(rt.alloc(), text)?;
    assert_eq!(rt; region.inner_places(), [8u32, 13, 14, 15, 20].as_slice());
    Ok(())
}

#[test]
fn regions_with_bays_and_bridges_are_accepted(rt: HostRuntime) {
    let cases: [(&[u8], Option<RegionFault>); 12] = [
        (
            b"square
#
",
            None,
        ),
        (
            b"square
#.#
###
",
            None,
        ),
        (
            b"square
.#..
####
..#.
",
            None,
        ),
        (
            b"square
#####
....#
###.#
#...#
#####
",
            None,
        ),
        (
            b"square
#####
....#
###.#
#....
#####
",
            Some(RegionFault::Parts(Cell { r: 2, c: 0 })),
        ),
        (
            b"square
#.#
",
            Some(RegionFault::Parts(Cell { r: 0, c: 2 })),
        ),
        (
            b"square
#.#
..#
",
            Some(RegionFault::Parts(Cell { r: 0, c: 2 })),
        ),
        (
            b"square
#####
#...#
#.#.#
#.#.#
..#..
",
            Some(RegionFault::Parts(Cell { r: 2, c: 2 })),
        ),
        (
            b"triangle
.#
",
            None,
        ),
        (
            b"triangle
#.
#.
",
            None,
        ),
        (
            b"triangle
###
###
",
            None,
        ),
        (
            b"triangle
#...#
",
            Some(RegionFault::Parts(Cell { r: 0, c: 4 })),
        ),
    ];
    for (text, fault) in cases {
        assert!(rt; text.len() < 100);
        assert_eq!(rt; fault_of(rt.alloc(), text), fault, "{text:?}");
    }
}

#[test]
fn the_boundary_goes_round_with_the_region_on_its_left(rt: HostRuntime) -> Result<(), Fail> {
    let cases: [(&[u8], &[(u32, u32)]); 3] = [
        (
            b"square
.#
",
            &[(0, 1), (1, 1), (1, 2), (0, 2)],
        ),
        (
            b"square
##
#.
",
            &[
                (0, 0),
                (1, 0),
                (2, 0),
                (2, 1),
                (1, 1),
                (1, 2),
                (0, 2),
                (0, 1),
            ],
        ),
        (
            b"triangle
##
",
            &[(0, 1), (1, 0), (1, 2), (0, 3)],
        ),
    ];
    for (text, corners) in cases {
        assert!(rt; text.len() < 100);
        let (region, _) = read_region(rt.alloc(), text)?;
        let steps = region.boundary();
        assert_eq!(rt; steps.len(), corners.len(), "{text:?}");
        for (step, (r, x)) in steps.iter().zip(corners.iter()) {
            let side = step.side(region.kind());
            assert_eq!(rt; side.from, Corner { r: *r, x: *x });
            assert!(rt; region.has(side.cell));
        }
    }
    Ok(())
}

#[test]
fn a_row_has_a_flag_for_each_column(rt: HostRuntime) -> Result<(), Fail> {
    let (region, _) = read_region(
        rt.alloc(),
        b"square
.##
#####
",
    )?;
    assert!(rt; region.rows() == 2);
    assert_eq!(rt; region.row(0), [false, true, true, false, false].as_slice());
    Ok(())
}

// Only a type whose values threads may share and pass on can be put here.
fn may_go_to_threads<T: Send + Sync>() {}

#[test]
fn regions_may_go_to_threads() {
    may_go_to_threads::<Region>();
}

// The ends of a step, each as a row and a column.
type Ends = ((u32, u32), (u32, u32));

// The corner of this place among four rows of six.
fn corner_at(place: u32) -> Corner {
    Corner {
        r: place / 6,
        x: place % 6,
    }
}

#[test]
fn steps_go_along_edges_of_cells_in_one_direction(rt: HostRuntime) -> Result<(), Fail> {
    let square: [Ends; 10] = [
        ((0, 0), (1, 0)),
        ((0, 1), (0, 0)),
        ((0, 1), (0, 2)),
        ((0, 2), (1, 2)),
        ((1, 0), (1, 1)),
        ((1, 1), (0, 1)),
        ((1, 1), (2, 1)),
        ((1, 2), (1, 1)),
        ((2, 0), (1, 0)),
        ((2, 1), (2, 0)),
    ];
    let triangle: [Ends; 7] = [
        ((0, 1), (0, 3)),
        ((0, 1), (1, 0)),
        ((0, 3), (1, 2)),
        ((1, 0), (1, 2)),
        ((1, 2), (0, 1)),
        ((1, 2), (1, 4)),
        ((1, 4), (0, 3)),
    ];
    let cases: [(&[u8], &[Ends]); 2] = [
        (b"square\n##\n#.\n", &square),
        (b"triangle\n###\n", &triangle),
    ];
    for (text, steps) in cases {
        assert!(rt; text.len() < 100);
        let (region, _) = read_region(rt.alloc(), text)?;
        for place in 0..24u32 {
            let from = corner_at(place);
            for other in 0..24u32 {
                let to = corner_at(other);
                let wanted = steps.contains(&((from.r, from.x), (to.r, to.x)));
                assert_eq!(rt; region.is_step(from, to), wanted, "{place} {other}");
            }
            let far = Corner {
                r: u32::MAX,
                x: u32::MAX - place,
            };
            assert!(rt; !region.is_step(from, far) && !region.is_step(far, from));
        }
    }
    Ok(())
}
