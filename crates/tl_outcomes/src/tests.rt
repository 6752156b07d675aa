//! Samples that are drawn beside each other, and in turn.

ghost use Rattle.std.specs.Prelude.{◌≡◌, ◌≤◌, length, IfSome};
ghost use Rattle.tl_extreme.specs.Verdicts.{AreBottomHeights, AreTopHeights};
ghost use Rattle.tl_formats.specs.declared.TheConstants.{INPUT_LIMIT};
ghost use Rattle.tl_outcomes.specs.Outcomes.{IsWithin};

use super::*;
use std::alloc::{AllocError, Global};
use std::thread::Threads;
use tl_boundary::circuit;
use tl_chain::Drawn;
use tl_extreme::{Verdict, extremes};
use tl_height::Heights;
use tl_io::FreeGate;
use tl_region::{Region, read_region};
use tl_text::SampleJob;
use tl_workers::Worker;

// The bottom and the top tiling of a region, where it has any.
fn ends<'a>(alloc: Global, region: &'a Region) -> Option<(Heights<'a>, Heights<'a>)>
    ensures bottom { IfSome result (λ p. AreBottomHeights p.0.region p.0) }
    ensures top { IfSome result (λ p. AreTopHeights p.0.region p.1) }
{
    let Ok(circuit) = circuit(alloc, region) else {
        return None;
    };
    let Ok(verdict) = extremes(alloc, region, &circuit) else {
        return None;
    };
    match verdict {
        Verdict::Pair { low, high } => Some((low, high)),
        Verdict::Blocked(_) => None,
    }
}

// Draws the samples of a job by one drawer, in the order of their numbers.
fn draw_in_turn<'a>(
    alloc: Global,
    low: &'a Heights<'a>,
    high: &Heights<'a>,
    job: &'a SampleJob,
    is_ranked: bool,
) -> Result<Vec<Outcome<'a>>, AllocError>
    requires bottom { AreBottomHeights low.now.region low.now }
    requires top { AreTopHeights low.now.region high.now }
    requires bound { job.now.bound ≤ 30 }
{
    let mut drawer = Drawer::new(alloc, low, high)?;
    let mut all = Vec::new(alloc);
    for number in 0..job.count {
        let blank = Outcome::blank(alloc, low.region(), job, is_ranked)?;
        all.push(drawer.fill(number, blank))?;
    }
    Ok(all)
}

fn are_the_same(outcome: &Outcome, other: &Outcome) -> bool {
    outcome.drawn == other.drawn
        && match (&outcome.noted, &other.noted) {
            (Noted::Drawing(letters), Noted::Drawing(others)) => letters[..] == others[..],
            (Noted::Rank(rank), Noted::Rank(another)) => rank == another,
            _ => false,
        }
}

fn agree(outcomes: &[Outcome], others: &[Outcome]) -> bool {
    outcomes.len() == others.len()
        && outcomes
            .iter()
            .zip(others)
            .all(|(outcome, other)| are_the_same(outcome, other))
}

// Whether the samples of a region that are drawn beside each other are those that are drawn in turn.
fn draws_the_same<R: Threads + Sync>(
    rt: &R,
    alloc: Global,
    text: &[u8],
    job: &SampleJob,
    is_ranked: bool,
) -> Option<bool>
    requires text { length text.now ≤ INPUT_LIMIT }
    requires within { IsWithin job.now }
{
    let (region, _) = read_region(alloc, text).ok()?;
    let (low, high) = ends(alloc, &region)?;
    let drawers = drawers(alloc, &low, &high, job.workers).ok()?;
    let apart = draw_apart(rt, alloc, low.region(), job, is_ranked, drawers, &FreeGate).ok()?;
    let in_turn = draw_in_turn(alloc, &low, &high, job, is_ranked).ok()?;
    Some(agree(apart.as_slice(), in_turn.as_slice()))
}

fn job_of_two_workers(bound: u32) -> SampleJob
    requires { bound ≤ 30 }
    ensures { IsWithin result }
{
    SampleJob {
        seed: 0,
        count: 5,
        bound,
        workers: 2,
        bands: 1,
    }
}

const DIAMOND: &[u8] = b"square\n.##.\n####\n####\n.##.\n";

#[test]
fn two_workers_draw_what_one_draws(rt: HostRuntime) {
    for is_ranked in [false, true] {
        let job = job_of_two_workers(24);
        assert!(rt; draws_the_same(&rt, rt.alloc(), DIAMOND, &job, is_ranked) == Some(true));
        let late = job_of_two_workers(1);
        assert!(rt; draws_the_same(&rt, rt.alloc(), DIAMOND, &late, is_ranked) == Some(true));
    }
}

// What the last sample of a region was drawn from, and its letters.
fn last_drawing<R: Threads + Sync>(
    rt: &R,
    alloc: Global,
    text: &[u8],
    job: &SampleJob,
) -> Option<(Drawn, Vec<u8>)>
    requires text { length text.now ≤ INPUT_LIMIT }
    requires within { IsWithin job.now }
{
    let (region, _) = read_region(alloc, text).ok()?;
    let (low, high) = ends(alloc, &region)?;
    let drawers = drawers(alloc, &low, &high, job.workers).ok()?;
    let mut apart = draw_apart(rt, alloc, low.region(), job, false, drawers, &FreeGate).ok()?;
    let Outcome {
        region: _,
        job: _,
        drawn,
        noted,
    } = apart.pop()?;
    match noted {
        Noted::Drawing(letters) => Some((drawn, letters)),
        Noted::Rank(_) => None,
    }
}

#[test]
fn a_rectangle_has_its_sample(rt: HostRuntime) {
    let job = SampleJob {
        seed: 0,
        count: 1,
        bound: 24,
        workers: 2,
        bands: 1,
    };
    let text = b"square\n####\n####\n";
    let Some((drawn, letters)) = last_drawing(&rt, rt.alloc(), text, &job) else {
        panic!(rt; "no sample")
    };
    assert!(rt; drawn == Drawn::At(2));
    assert!(rt; letters[..] == b"vvvv\n^^^^\n"[..]);
}
