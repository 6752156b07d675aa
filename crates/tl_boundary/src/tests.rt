//! Circuits of small regions.

ghost use Rattle.std.specs.Prelude.{◌≤◌, ◌^◌, length};

use crate::{Circuit, circuit};
use std::alloc::Global;
use tl_formats::INPUT_LIMIT;
use tl_lattice::Corner;
use tl_region::read_region;

// The circuit of the region that a text describes.
fn circuit_of(alloc: Global, text: &[u8]) -> Option<Circuit>
    requires { length text.now ≤ INPUT_LIMIT }
{
    let (region, _) = read_region(alloc, text).ok()?;
    circuit(alloc, &region).ok()
}

// Whether these are its corners with their prefixes, and this its total.
fn is_circuit(circuit: &Circuit, corners: &[(u32, u32, i64)], total: i64) -> bool {
    if circuit.len() as usize != corners.len() || circuit.total() != total {
        return false;
    }
    for k in 0..circuit.len() {
        let (r, x, prefix) = corners[k as usize];
        let corner = Corner { r, x };
        if circuit.corner(k) != corner || circuit.prefix(k) != prefix {
            return false;
        }
        if circuit.place_of(corner) != Some(k) {
            return false;
        }
    }
    circuit.prefix(circuit.len()) == total
}

#[test]
fn circuits_of_small_regions(rt: HostRuntime) {
    let cases: [(&[u8], &[(u32, u32, i64)], i64); 6] = [
        (
            b"square\n##\n##\n",
            &[
                (0, 0, 0),
                (1, 0, 1),
                (2, 0, 0),
                (2, 1, -1),
                (2, 2, 0),
                (1, 2, 1),
                (0, 2, 0),
                (0, 1, -1),
            ],
            0,
        ),
        (
            b"square\n#\n",
            &[(0, 0, 0), (1, 0, 1), (1, 1, 2), (0, 1, 3)],
            4,
        ),
        (
            b"square\n.#\n",
            &[(0, 1, 0), (1, 1, -1), (1, 2, -2), (0, 2, -3)],
            -4,
        ),
        (
            b"triangle\n##\n",
            &[(0, 1, 0), (1, 0, 1), (1, 2, 2), (0, 3, 1)],
            0,
        ),
        (b"triangle\n#\n", &[(0, 1, 0), (1, 0, 1), (1, 2, 2)], 3),
        (b"triangle\n.#\n", &[(0, 1, 0), (1, 2, -1), (0, 3, -2)], -3),
    ];
    for (text, corners, total) in cases {
        let circuit = circuit_of(rt.alloc(), text);
        assert!(rt; circuit.is_some());
        if let Some(circuit) = circuit {
            assert!(rt; is_circuit(&circuit, corners, total));
        }
    }
}

#[test]
fn places_of_a_region_without_a_tiling(rt: HostRuntime) {
    let circuit = circuit_of(rt.alloc(), b"square\n.#..\n####\n..#.\n");
    assert!(rt; circuit.is_some());
    if let Some(circuit) = circuit {
        assert_eq!(rt; circuit.len(), 14);
        assert_eq!(rt; circuit.total(), 0);
        assert_eq!(rt; circuit.place_of(Corner { r: 2, x: 2 }), Some(5));
        assert_eq!(rt; circuit.place_of(Corner { r: 1, x: 2 }), Some(12));
        if circuit.len() == 14 {
            assert_eq!(rt; circuit.prefix(5), -3);
            assert_eq!(rt; circuit.prefix(12), 2);
            assert_eq!(rt; circuit.rise_between(5, 12), 5);
            assert_eq!(rt; circuit.sign(3), -1);
            assert_eq!(rt; circuit.sign(4), 1);
        }
    }
}

#[test]
fn corners_off_the_circuit_have_no_place(rt: HostRuntime) {
    let circuit = circuit_of(rt.alloc(), b"square\n##\n##\n");
    assert!(rt; circuit.is_some());
    if let Some(circuit) = circuit {
        for (r, x) in [
            (1, 1),
            (0, 3),
            (3, 0),
            (3, u32::MAX),
            (u32::MAX, 0),
            (u32::MAX, u32::MAX),
        ] {
            assert_eq!(rt; circuit.place_of(Corner { r, x }), None);
        }
    }
}

// Only a type whose values threads may share and pass on can be put here.
fn may_go_to_threads<T: Send + Sync>() {}

#[test]
fn circuits_may_go_to_threads() {
    may_go_to_threads::<Circuit>();
}
