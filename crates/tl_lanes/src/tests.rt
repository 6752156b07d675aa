//! The kernels beside plain loops, at lengths about those of a vector, of two and of a word.

ghost use Rattle.std.specs.Prelude.{◌≤◌};

use crate::{Beside, lanes_blend, lanes_greatest, lanes_least, lanes_step};

const LENGTHS: [usize; 6] = [0, 1, 7, 8, 9, 33];

// From -24 to 26.
fn row(factor: usize) -> [i32; 33]
    requires { factor ≤ 100 }
{
    let mut row = [0; 33];
    for i in 0..33 {
        row[i] = ((i + 1) * factor % 51) as i32 - 24;
    }
    row
}

#[test]
fn three_places_by_the_bits_of_5(rt: HostRuntime) {
    let mut out = [0; 3];
    lanes_blend(&mut out, &[0; 3], &[4; 3], &[5]);
    assert_eq!(rt; out, [4, 0, 4]);
}

#[test]
fn the_lesser_and_the_greater_of_each_place(rt: HostRuntime) {
    let (a, b) = (row(37), row(23));
    for length in LENGTHS {
        let (mut least, mut greatest) = (a, a);
        lanes_least(&mut least[..length], &b[..length]);
        lanes_greatest(&mut greatest[..length], &b[..length]);
        for i in 0..33 {
            let (low, high) = if a[i] < b[i] {
                (a[i], b[i])
            } else {
                (b[i], a[i])
            };
            let wanted = if i < length {
                (low, high)
            } else {
                (a[i], a[i])
            };
            assert_eq!(rt; (least[i], greatest[i]), wanted, "{i} of {length}");
        }
    }
}

#[test]
fn a_choice_by_each_bit(rt: HostRuntime) {
    let (low, high) = (row(37), row(23));
    let bits = [0x8d3c_a591, 1];
    for length in LENGTHS {
        let mut out = [100; 33];
        lanes_blend(&mut out[..length], &low[..length], &high[..length], &bits);
        let mut word: u64 = 0x1_8d3c_a591;
        for i in 0..33 {
            let chosen = if word % 2 == 1 { high[i] } else { low[i] };
            let wanted = if i < length { chosen } else { 100 };
            assert_eq!(rt; out[i], wanted, "{i} of {length}");
            word /= 2;
        }
    }
}

// The places 0, 2, 3 and 4 are of the class, and the bits of 2 and 4 are 1.
#[test]
fn steps_at_four_of_five_places(rt: HostRuntime) {
    let mut out = [0; 5];
    let beside = Beside {
        from: &[1, 5, 2, 8, 3],
        from_other: &[4, 2, 6, 1, 9],
        to: &[-1, -5, 0, 3, 2],
        to_other: &[-2, 0, -4, 5, -3],
    };
    lanes_step(&mut out, &[7; 5], &beside, 0b10110, 0b11101);
    assert_eq!(rt; out, [-2, 7, 3, 4, 4]);
}
