//! Samples of small regions, drawn by hands.

ghost use Rattle.std.specs.Prelude.{◌<◌, ◌≤◌, IfSome, length};
ghost use Rattle.tl_extreme.specs.Verdicts.{AreBottomHeights, AreTopHeights};
ghost use Rattle.tl_formats.specs.declared.TheConstants.{INPUT_LIMIT};

use crate::{BandedChain, Company};
use std::alloc::{AllocError, Global};
use std::sync::Wait;
use std::thread::Threads;
use tl_bands::Cut;
use tl_boundary::circuit;
use tl_chain::Drawn;
use tl_extreme::{Verdict, extremes};
use tl_height::Heights;
use tl_io::FreeGate;
use tl_region::{Region, read_region};

// Draws sample 0 of seed 0 by hands, whose bands have even shares of the rows.
fn draw_by_hands<R: Threads + Wait + Sync>(
    rt: &R,
    alloc: Global,
    low: &Heights,
    high: &Heights,
    bands: u32,
    bound: u32,
) -> Result<Drawn, AllocError>
    requires bottom { AreBottomHeights low.now.region low.now }
    requires top { AreTopHeights low.now.region high.now }
    requires some { 0 < bands }
    requires in_range { bound ≤ 30 }
{
    let cut = Cut::even(alloc, low.region().rows() + 1, bands)?;
    let company = Company {
        rt,
        alloc,
        worker: 0,
    };
    let mut chain = BandedChain::new(company, low, high, &cut)?;
    let mut first = chain.state(alloc)?;
    let mut second = chain.state(alloc)?;
    chain.set_sample(0, 0);
    Ok(chain.draw(&FreeGate, &mut first, &mut second, bound))
}

// The bottom and the top tiling of a region, where it has any.
fn ends<'a>(alloc: Global, region: &'a Region) -> Option<(Heights<'a>, Heights<'a>)>
    ensures bottom { IfSome result (λ p. AreBottomHeights p.0.region p.0) }
    ensures top { IfSome result (λ p. AreTopHeights p.0.region p.1) }
{
    let Ok(circuit) = circuit(alloc, region) else {
        return None;
    };
    let Ok(verdict) = extremes(alloc, region, &circuit) else {
        return None;
    };
    match verdict {
        Verdict::Pair { low, high } => Some((low, high)),
        Verdict::Blocked(_) => None,
    }
}

// Draws sample 0 of seed 0 of a region by hands.
fn drawn<R: Threads + Wait + Sync>(
    rt: &R,
    alloc: Global,
    text: &[u8],
    bands: u32,
    bound: u32,
) -> Option<Drawn>
    requires text { length text.now ≤ INPUT_LIMIT }
    requires some { 0 < bands }
    requires in_range { bound ≤ 30 }
{
    let (region, _) = read_region(alloc, text).ok()?;
    let (low, high) = ends(alloc, &region)?;
    draw_by_hands(rt, alloc, &low, &high, bands, bound).ok()
}

#[test]
fn hands_draw_what_one_thread_draws(rt: HostRuntime) {
    let text = b"square\n####\n####\n";
    for bands in [1, 2, 3] {
        assert!(rt; drawn(&rt, rt.alloc(), text, bands, 24) == Some(Drawn::At(2)));
        assert!(rt; drawn(&rt, rt.alloc(), text, bands, 0) == Some(Drawn::Late));
    }
}
