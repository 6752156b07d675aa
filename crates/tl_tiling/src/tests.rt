//! Drawings that are tilings, and each way of being refused.

ghost use Rattle.std.specs.Prelude.{◌≤◌, ◌^◌, length};

use crate::{DrawFault, read_drawing};
use std::alloc::{AllocError, Global};
use tl_formats::INPUT_LIMIT;
use tl_lattice::Cell;
use tl_region::{Region, RegionFault, read_region};

// What refuses a drawing of the region that a text describes, or what refuses the region.
fn refusal(alloc: Global, text: &[u8], drawn: &[u8]) -> Result<Option<DrawFault>, RegionFault>
    requires text { length text.now ≤ INPUT_LIMIT }
    requires drawn { length drawn.now ≤ INPUT_LIMIT }
{
    let (region, _) = read_region(alloc, text)?;
    Ok(read_drawing(alloc, &region, drawn).err())
}

fn tall(alloc: Global) -> Option<Region> {
    read_region(alloc, b"square\n.#\n##\n##\n.#\n")
        .ok()
        .map(|p| p.0)
}

#[test]
fn a_drawing_is_read_and_printed_again(rt: HostRuntime) -> Result<(), AllocError> {
    let region = tall(rt.alloc());
    assert!(rt; region.is_some());
    if let Some(region) = region {
        let drawing = b"\n\r\n.v  .\r\nv^\n^v\n.^\n\n##\n".as_slice();
        let read = read_drawing(rt.alloc(), &region, drawing);
        assert!(rt; read.is_ok());
        if let Ok((tiling, taken)) = read {
            assert_eq!(rt; taken, drawing.len() - 3);
            let pairs = [
                ((0u32, 1u32), (1u32, 1u32)),
                ((1, 0), (2, 0)),
                ((2, 1), (3, 1)),
            ];
            for ((r, c), (s, d)) in pairs {
                let (first, second) = (Cell { r, c }, Cell { r: s, c: d });
                if tiling.region().has(first) && tiling.region().has(second) {
                    assert_eq!(rt; tiling.partner(first), second);
                    assert_eq!(rt; tiling.partner(second), first);
                }
            }
            let rows = tiling.region().rows() as usize;
            let columns = tiling.region().columns() as usize;
            assert_eq!(rt; rows, 4);
            assert_eq!(rt; columns, 2);
            let mut out = vec![in rt.alloc(); b'?'; rows * (columns + 1)]?;
            tiling.draw_into(&mut out);
            assert_eq!(rt; out.as_slice(), b".v\nv^\n^v\n.^\n".as_slice());
        }
    }
    Ok(())
}

#[test]
fn each_drawing_has_its_first_fault(rt: HostRuntime) {
    let bad = |r: u32, c: u32| Some(DrawFault::BadLetter(Cell { r, c }));
    let unmatched = |r: u32, c: u32| Some(DrawFault::Unmatched(Cell { r, c }));
    let square = b"square\n##\n##\n".as_slice();
    let notched = b"square\n.##.\n####\n".as_slice();
    let below = b"square\n##\n..\n".as_slice();
    let wide = b"square\n####################################\n".as_slice();
    let cases: [(&[u8], &[u8], Option<DrawFault>); 22] = [
        (square, b"><\n><\n", None),
        (square, b"vv\n^^", None),
        (square, b"", bad(0, 0)),
        (square, b"><\n", bad(1, 0)),
        (square, b"><\n>\n", bad(1, 1)),
        (square, b"><\n><\n..>\n", bad(2, 2)),
        (square, b"><v\n>x\n", bad(0, 2)),
        (square, b">>\n>x\n", bad(1, 1)),
        (square, b".<\n><\n", bad(0, 0)),
        (square, b" <\n><\n", bad(0, 0)),
        (square, b">>\n><\n", unmatched(0, 0)),
        (square, b"><\nv^\n", unmatched(1, 0)),
        (square, b"^<\n><\n", unmatched(0, 0)),
        (notched, b".><.  .\n><><\n", None),
        (notched, b"v><.\n><><\n", bad(0, 0)),
        (notched, b".><.\n>>><\n", unmatched(1, 0)),
        (below, b"><\n", None),
        (below, b"><\n.>\n", bad(1, 1)),
        (square, b"<>\n><\n", unmatched(0, 0)),
        (wide, b"><><><><><><><><><><><><><><><><><><\n", None),
        (wide, b"><><><><><><><><><><><><><><><><>.><\n", bad(0, 33)),
        (
            wide,
            b"><><><><><><><><><><><><><><><><>>><\n",
            unmatched(0, 32),
        ),
    ];
    for (text, drawn, wanted) in cases {
        if text.len() < 100 && drawn.len() < 100 {
            assert_eq!(rt; refusal(rt.alloc(), text, drawn), Ok(wanted), "{drawn:?}");
        }
    }
}

#[test]
fn triangles_that_point_down_have_no_cell_below(rt: HostRuntime) {
    let text = b"triangle\n###\n###\n".as_slice();
    let unmatched = Some(DrawFault::Unmatched(Cell { r: 0, c: 1 }));
    assert_eq!(rt; refusal(rt.alloc(), text, b"vvv\n^^^\n"), Ok(unmatched));
    assert_eq!(rt; refusal(rt.alloc(), text, b"><v\n><^\n"), Ok(None));
    let text = b"triangle\n#\n#\n".as_slice();
    assert_eq!(rt; refusal(rt.alloc(), text, b"v\n^\n"), Ok(None));
}
