//! Samples that are drawn beside each other.

ghost use Rattle.std.specs.Prelude.{◌≡◌, ◌≤◌, length, All, IfOk};
ghost use Rattle.tl_extreme.specs.Verdicts.{AreBottomHeights};
ghost use Rattle.tl_outcomes.specs.Outcomes.{AreOutcomesOf, draw_of, IsWithin};

use crate::drawer::Drawer;
use crate::outcome::Outcome;
use std::alloc::{AllocError, Global};
use std::thread::Threads;
use tl_io::Gate;
use tl_region::Region;
use tl_sampler::Sampling;
use tl_text::SampleJob;
use tl_workers::fill_all;

// An outcome for each number, before anything is drawn.
fn blanks<'a>(
    alloc: Global,
    region: &'a Region,
    job: &'a SampleJob,
    is_ranked: bool,
) -> Result<Vec<Outcome<'a>>, AllocError>
    ensures count { IfOk result (λ all. length all.items ≡ job.now.count) }
    ensures each { IfOk result (λ all. All
        (λ o. draw_of o ≡ record { region = region.now; job = job.now; is_ranked = is_ranked }) all.items) }
{
    let mut all = Vec::with_capacity(alloc, job.count as usize)?;
    for number in 0..job.count {
        all.push(Outcome::blank(alloc, region, job, is_ranked)?)?;
    }
    Ok(all)
}

/// Draws the samples of a job by these drawers beside each other, and gives their outcomes in the order of their numbers.
///
/// # Errors
/// Want of memory, before or after samples are drawn. A drawer of a sampler takes none while it draws.
pub fn draw_apart<'a, R: Threads + Sync, E: Sampling + Send + Drop, G: Gate + Sync>(
    rt: &R,
    alloc: Global,
    region: &'a Region,
    job: &'a SampleJob,
    is_ranked: bool,
    drawers: Vec<Drawer<'a, E>>,
    gate: &G,
) -> Result<Vec<Outcome<'a>>, AllocError>
    requires some { 1 ≤ length drawers.items }
    requires few { length drawers.items ≤ 64 }
    requires of_region { All (λ d. (E.drawn d.sampler).region ≡ region.now) drawers.items }
    requires bottom { All (λ d. AreBottomHeights region.now d.bottom.now) drawers.items }
    requires ready { All (λ d. E.can_draw d.sampler) drawers.items }
    requires within { IsWithin job.now }
    ensures count { IfOk result (λ all. length all.items ≡ job.now.count) }
    ensures each { IfOk result (λ all. AreOutcomesOf
        (record { region = region.now; job = job.now; is_ranked = is_ranked }) all.items) }
{
    let blanks = blanks(alloc, region, job, is_ranked)?;
    fill_all(rt, alloc, blanks, drawers, gate)
}
