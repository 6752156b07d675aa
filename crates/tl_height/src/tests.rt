//! The two height functions of the square of four cells, by hand, and tilings drawn again from their heights.

ghost use Rattle.std.specs.Prelude.{◌≡◌, ◌≤◌, ◌^◌, length};

use crate::{Heights, Standing, of_tiling};
use std::alloc::{AllocError, Global};
use tl_boundary::circuit;
use tl_formats::INPUT_LIMIT;
use tl_lattice::Corner;
use tl_region::read_region;
use tl_tiling::read_drawing;

// The letters and the numbers of the heights of a drawn tiling.
fn redrawn(alloc: Global, text: &[u8], drawing: &[u8]) -> Option<(Vec<u8>, Vec<i32>)>
    requires text { length text.now ≤ INPUT_LIMIT }
    requires drawing { length drawing.now ≤ INPUT_LIMIT }
{
    let (region, _) = read_region(alloc, text).ok()?;
    let (tiling, _) = read_drawing(alloc, &region, drawing).ok()?;
    let circuit = circuit(alloc, &region).ok()?;
    let heights = of_tiling(alloc, &region, &circuit, &tiling).ok()?;
    let size = region.rows() as usize * (region.columns() as usize + 1);
    let mut letters = vec![in alloc; b'?'; size].ok()?;
    heights.to_letters(&mut letters);
    let numbers = heights.copy(alloc).ok()?.into_numbers();
    Some((letters, numbers))
}

fn is_redrawn(alloc: Global, text: &[u8], drawing: &[u8]) -> bool
    requires text { length text.now ≤ INPUT_LIMIT }
    requires drawing { length drawing.now ≤ INPUT_LIMIT }
{
    match redrawn(alloc, text, drawing) {
        Some((letters, _)) => letters[..] == drawing[..],
        None => false,
    }
}

// Whether this drawing of the region has these heights.
fn has_numbers(alloc: Global, text: &[u8], drawing: &[u8], wanted: &[i32]) -> bool
    requires text { length text.now ≤ INPUT_LIMIT }
    requires drawing { length drawing.now ≤ INPUT_LIMIT }
{
    match redrawn(alloc, text, drawing) {
        Some((_, numbers)) => numbers[..] == wanted[..],
        None => false,
    }
}

#[test]
fn heights_draw_their_tiling_again(rt: HostRuntime) {
    let cases: [(&[u8], &[u8]); 8] = [
        (b"square\n##\n##\n", b"><\n><\n"),
        (b"square\n##\n##\n", b"vv\n^^\n"),
        (b"square\n###\n###\n", b"><v\n><^\n"),
        (b"triangle\n###\n###\n", b"><v\n><^\n"),
        (b"square\n##\n", b"><\n"),
        (b"triangle\n##\n", b"><\n"),
        (b"square\n.##\n##.\n", b".><\n><.\n"),
        (
            b"square\n.##.\n####\n####\n.##.\n",
            b".vv.\nv^^v\n^vv^\n.^^.\n",
        ),
    ];
    for (text, drawing) in cases {
        assert!(rt; is_redrawn(rt.alloc(), text, drawing));
    }
}

#[test]
fn a_square_of_512_rows_is_redrawn(rt: HostRuntime) -> Result<(), AllocError> {
    let mut text = Vec::from_slice(rt.alloc(), b"square\n")?;
    let mut drawing = Vec::new(rt.alloc());
    for _ in 0..512 {
        for _ in 0..256 {
            text.extend_from_slice(b"##")?;
            drawing.extend_from_slice(b"><")?;
        }
        text.push(b'\n')?;
        drawing.push(b'\n')?;
    }
    assert!(rt; text.len() <= INPUT_LIMIT);
    assert!(rt; drawing.len() <= INPUT_LIMIT);
    assert!(rt; is_redrawn(rt.alloc(), text.as_slice(), drawing.as_slice()));
    Ok(())
}

#[test]
fn the_middle_of_a_square_is_high_or_low(rt: HostRuntime) {
    let square = b"square\n##\n##\n".as_slice();
    let high = [0, -1, 0, 0, 1, 2, 1, 0, 0, -1, 0, 0];
    assert!(rt; has_numbers(rt.alloc(), square, b"><\n><\n", &high));
    assert!(rt; !has_numbers(rt.alloc(), square, b"vv\n^^\n", &high));
    let low = [0, -1, 0, 0, 1, -2, 1, 0, 0, -1, 0, 0];
    assert!(rt; has_numbers(rt.alloc(), square, b"vv\n^^\n", &low));
    assert!(rt; !has_numbers(rt.alloc(), square, b"><\n><\n", &low));
}

#[test]
fn the_middle_of_a_hexagon_is_high_or_low(rt: HostRuntime) {
    let hexagon = b"triangle\n###\n###\n".as_slice();
    let high = [0, 0, 0, 1, 0, 1, 0, 2, 0, 0, 0, 0, 0, 1, 0];
    assert!(rt; has_numbers(rt.alloc(), hexagon, b"><v\n><^\n", &high));
    let low = [0, 0, 0, 1, 0, 1, 0, -1, 0, 0, 0, 0, 0, 1, 0];
    assert!(rt; has_numbers(rt.alloc(), hexagon, b"v><\n^><\n", &low));
}

#[test]
fn a_square_has_two_height_functions(rt: HostRuntime) -> Result<(), AllocError> {
    let read = read_region(rt.alloc(), b"square\n##\n##\n");
    assert!(rt; read.is_ok());
    if let Ok((region, _)) = read {
        let level = vec![in rt.alloc(); 0i32, -1, 0, 0, 1, 2, 1, 0, 0, -1, 0, 0]?;
        let mut heights = Heights::of_numbers(&region, level);
        let mut out = [b'?'; 6];
        heights.to_letters(&mut out);
        assert_eq!(rt; out.as_slice(), b"><\n><\n".as_slice());
        assert_eq!(rt; heights.at(Corner { r: 1, x: 1 }), 2);
        assert_eq!(rt; heights.standing(0), Standing::High);

        let kept = heights.copy(rt.alloc())?;
        heights.put(5, &[-2]);
        heights.to_letters(&mut out);
        assert_eq!(rt; out.as_slice(), b"vv\n^^\n".as_slice());
        assert_eq!(rt; heights.standing(0), Standing::Low);

        heights.copy_from(&kept);
        assert_eq!(rt; heights.numbers(), kept.numbers());
        assert_eq!(rt; heights.region().cell_count(), 4);
        assert_eq!(rt;
            taken_back(heights).into_numbers().as_slice(),
            kept.numbers()
        );
    }
    Ok(())
}

// The same heights, after their numbers were given away and taken back.
fn taken_back<'a>(heights: Heights<'a>) -> Heights<'a>
    ensures { result ≡ heights.entry }
{
    let region = heights.region();
    Heights::of_numbers(region, heights.into_numbers())
}

// Only a type whose values threads may share and pass on can be put here.
fn may_go_to_threads<T: Send + Sync>() {}

#[test]
fn heights_may_go_to_threads() {
    may_go_to_threads::<Heights>();
}
