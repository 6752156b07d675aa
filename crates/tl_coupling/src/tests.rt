//! Samples of small regions, which were worked out by hand or gone through tiling by tiling.

ghost use Rattle.std.specs.Prelude.{◌≡◌, ◌≤◌, length, IfSome};
ghost use Rattle.tl_definitions.specs.Accepted.{IsCircuit};

use crate::{TilingChain, words_of};
use std::alloc::Global;
use tl_bits::Numbered;
use tl_boundary::{Circuit, circuit};
use tl_chain::{Drawn, draw};
use tl_extreme::{Verdict, extremes};
use tl_formats::INPUT_LIMIT;
use tl_height::Heights;
use tl_region::{Region, read_region};

fn drawing(alloc: Global, heights: &Heights) -> Option<Vec<u8>> {
    let region = heights.region();
    let size = region.rows() as usize * (region.columns() as usize + 1);
    let mut letters = vec![in alloc; b'?'; size].ok()?;
    heights.to_letters(&mut letters);
    Some(letters)
}

// The chain of heights of a region, where it has a tiling, with the bits of a sample.
fn chain_of_heights<'a>(
    alloc: Global,
    region: &'a Region,
    circuit: &Circuit,
    seed: u64,
    number: u32,
) -> Option<TilingChain<'a, Numbered>>
    requires { IsCircuit region.now circuit.now }
    ensures { IfSome result (λ chain. chain.low.region ≡ region.now) }
{
    match extremes(alloc, region, circuit).ok()? {
        Verdict::Pair { low, high } => {
            let bits = Numbered::new(seed, number, words_of(&low));
            TilingChain::new(alloc, low, high, bits).ok()
        }
        Verdict::Blocked(_) => None,
    }
}

// Draws sample 0 of seed 0, first with the bound 0 and then with this one. Gives what both came to, and the drawing of the
// sample.
fn drawn_twice(alloc: Global, text: &[u8], bound: u32) -> Option<(Drawn, Drawn, Vec<u8>)>
    requires text { length text.now ≤ INPUT_LIMIT }
    requires bound { bound ≤ 30 }
{
    let (region, _) = read_region(alloc, text).ok()?;
    let circuit = circuit(alloc, &region).ok()?;
    let mut chain = chain_of_heights(alloc, &region, &circuit, 0, 0)?;
    match extremes(alloc, &region, &circuit).ok()? {
        Verdict::Pair { mut low, mut high } => {
            let first = draw(&mut chain, &mut low, &mut high, 0);
            let second = draw(&mut chain, &mut low, &mut high, bound);
            Some((first, second, drawing(alloc, &low)?))
        }
        Verdict::Blocked(_) => None,
    }
}

fn is_drawn(
    alloc: Global,
    text: &[u8],
    bound: u32,
    first: Drawn,
    second: Drawn,
    letters: &[u8],
) -> bool
    requires text { length text.now ≤ INPUT_LIMIT }
    requires bound { bound ≤ 30 }
{
    match drawn_twice(alloc, text, bound) {
        Some((early, late, found)) => early == first && late == second && found[..] == letters[..],
        None => false,
    }
}

#[test]
fn samples_of_small_regions(rt: HostRuntime) {
    let cases: [(&[u8], Drawn, Drawn, &[u8]); 6] = [
        (b"square\n##\n", Drawn::At(1), Drawn::At(1), b"><\n"),
        (b"square\n##\n##\n", Drawn::At(1), Drawn::At(1), b"vv\n^^\n"),
        (
            b"square\n###\n###\n",
            Drawn::At(1),
            Drawn::At(1),
            b"vvv\n^^^\n",
        ),
        (
            b"triangle\n###\n###\n",
            Drawn::At(1),
            Drawn::At(1),
            b"v><\n^><\n",
        ),
        (
            b"square\n####\n####\n",
            Drawn::Late,
            Drawn::At(2),
            b"vvvv\n^^^^\n",
        ),
        (
            b"square\n.##.\n####\n####\n.##.\n",
            Drawn::Late,
            Drawn::At(4),
            b".><.\nvv><\n^^><\n.><.\n",
        ),
    ];
    for (text, first, second, letters) in cases {
        assert!(rt; is_drawn(rt.alloc(), text, 24, first, second, letters));
    }
}

// Only a type whose values threads may share and pass on can be put here.
fn may_go_to_threads<T: Send + Sync>() {}

#[test]
fn chains_may_go_to_threads() {
    may_go_to_threads::<TilingChain<Numbered>>();
}
