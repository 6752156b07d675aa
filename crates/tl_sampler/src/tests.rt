//! Samples of small regions, drawn by the sampler and by the chain of heights.

ghost use Rattle.std.specs.Prelude.{◌≡◌, ◌≤◌, length, IfSome};
ghost use Rattle.tl_definitions.specs.Accepted.{IsCircuit};

use crate::{Sampler, Sampling};
use std::alloc::Global;
use tl_bits::Numbered;
use tl_boundary::{Circuit, circuit};
use tl_chain::{Drawn, draw};
use tl_coupling::{TilingChain, words_of};
use tl_extreme::{Verdict, extremes};
use tl_formats::INPUT_LIMIT;
use tl_height::Heights;
use tl_region::{Region, read_region};

fn drawing(alloc: Global, heights: &Heights) -> Option<Vec<u8>> {
    let region = heights.region();
    let size = region.rows() as usize * (region.columns() as usize + 1);
    let mut letters = vec![in alloc; b'?'; size].ok()?;
    heights.to_letters(&mut letters);
    Some(letters)
}

// The sampler of a region, where it has a tiling.
fn sampler<'a>(alloc: Global, region: &'a Region, circuit: &Circuit) -> Option<Sampler<'a>>
    requires { IsCircuit region.now circuit.now }
{
    match extremes(alloc, region, circuit).ok()? {
        Verdict::Pair { low, high } => Sampler::new(alloc, low, &high).ok(),
        Verdict::Blocked(_) => None,
    }
}

// The chain of heights of a region, where it has a tiling, with the bits of a sample.
fn chain_of_heights<'a>(
    alloc: Global,
    region: &'a Region,
    circuit: &Circuit,
    seed: u64,
    number: u32,
) -> Option<TilingChain<'a, Numbered>>
    requires { IsCircuit region.now circuit.now }
    ensures { IfSome result (λ chain. chain.low.region ≡ region.now) }
{
    match extremes(alloc, region, circuit).ok()? {
        Verdict::Pair { low, high } => {
            let bits = Numbered::new(seed, number, words_of(&low));
            TilingChain::new(alloc, low, high, bits).ok()
        }
        Verdict::Blocked(_) => None,
    }
}

// Draws a sample by the chain of heights, and gives what it came to and the drawing.
fn drawn_by_heights(
    alloc: Global,
    text: &[u8],
    seed: u64,
    number: u32,
    bound: u32,
) -> Option<(Drawn, Vec<u8>)>
    requires text { length text.now ≤ INPUT_LIMIT }
    requires bound { bound ≤ 30 }
{
    let (region, _) = read_region(alloc, text).ok()?;
    let circuit = circuit(alloc, &region).ok()?;
    let mut chain = chain_of_heights(alloc, &region, &circuit, seed, number)?;
    match extremes(alloc, &region, &circuit).ok()? {
        Verdict::Pair { mut low, mut high } => {
            let drawn = draw(&mut chain, &mut low, &mut high, bound);
            Some((drawn, drawing(alloc, &low)?))
        }
        Verdict::Blocked(_) => None,
    }
}

// Draws these samples by the sampler, and tells whether each is what the chain of heights draws. A late one is no sample,
// but what both ends came to is still compared.
fn are_the_same(alloc: Global, text: &[u8], seed: u64, count: u32, bound: u32) -> Option<bool>
    requires text { length text.now ≤ INPUT_LIMIT }
    requires bound { bound ≤ 30 }
{
    let (region, _) = read_region(alloc, text).ok()?;
    let circuit = circuit(alloc, &region).ok()?;
    let mut sampler = sampler(alloc, &region, &circuit)?;
    for number in 0..count {
        let drawn = sampler.draw(seed, number, bound);
        let letters = drawing(alloc, sampler.sample())?;
        let (wanted, others) = drawn_by_heights(alloc, text, seed, number, bound)?;
        if drawn != wanted || letters[..] != others[..] {
            return Some(false);
        }
    }
    Some(true)
}

#[test]
fn both_chains_draw_the_same(rt: HostRuntime) {
    let texts: [&[u8]; 4] = [
        b"square\n########\n########\n########\n########\n",
        b"square\n..##..\n.####.\n######\n######\n.####.\n..##..\n",
        b"triangle\n..#####..\n.#######.\n.#######.\n..#####..\n",
        b"triangle\n###\n###\n",
    ];
    for text in texts {
        assert!(rt; are_the_same(rt.alloc(), text, 7, 5, 24) == Some(true));
        assert!(rt; are_the_same(rt.alloc(), text, 7, 5, 1) == Some(true));
    }
}

// Only a type whose values threads may share and pass on can be put here.
fn may_go_to_threads<T: Send + Sync>() {}

#[test]
fn samplers_may_go_to_threads() {
    may_go_to_threads::<Sampler>();
}
