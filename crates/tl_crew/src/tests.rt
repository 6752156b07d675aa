//! Hands for cuts of a small region.

use crate::hands_of;
use std::alloc::Global;
use tl_bands::Cut;
use tl_bits::Numbered;
use tl_layout::{Layout, Pieces};
use tl_region::read_region;

// The Aztec diamond of order 2, with five rows of corners.
const DIAMOND: &[u8] = b"square\n.##\n####\n####\n.##\n";

// The number of its hand, and the first and the last row of words, of each band of this cut.
fn bands(alloc: Global, firsts: &[u32]) -> Option<Vec<(usize, usize, usize)>> {
    let (region, _) = read_region(alloc, DIAMOND).ok()?;
    let layout = Layout::of(&region);
    let words = Pieces::of(alloc, &region, &layout).ok()?.words;
    if words > 1 << 15 {
        return None;
    }
    let words = words as u32;
    let cut = Cut::of(alloc, firsts, region.rows() + 1).ok()?;
    let hands = hands_of(
        alloc,
        &region,
        &layout,
        &cut,
        Numbered::new(7, 0, words),
        Numbered::new(7, 0, words),
        words,
    )
    .ok()?;
    let mut all = Vec::new(alloc);
    for (number, hand) in hands.iter().enumerate() {
        for band in &hand.share.bands {
            all.push((number, band.upper.own, band.lower.own)).ok()?;
        }
    }
    Some(all)
}

#[test]
fn hands_of_cuts(rt: HostRuntime) {
    let cases: [(&[u32], &[(usize, usize, usize)]); 4] = [
        (&[0], &[(0, 1, 5)]),
        (&[0, 1], &[(0, 1, 1), (1, 2, 5)]),
        (&[0, 2, 3], &[(0, 1, 2), (0, 3, 3), (1, 4, 5)]),
        (
            &[0, 1, 2, 3, 4],
            &[(0, 1, 1), (0, 2, 2), (0, 3, 3), (1, 4, 4), (1, 5, 5)],
        ),
    ];
    for (firsts, wanted) in cases {
        let Some(rows) = bands(rt.alloc(), firsts) else {
            panic!(rt; "no hands")
        };
        assert!(rt; rows[..] == wanted[..]);
    }
}
