//! The command `gen` with its flag.

ghost use Rattle.std.specs.Prelude.{◌≡◌, ◌≤◌, ◌++◌, true, IfOk, IfErr};
ghost use Rattle.std.specs.String.{string_bytes};
ghost use Rattle.tl_extreme.specs.Verdicts.{AreBottomHeights, AreTopHeights, IsReason};
ghost use Rattle.tl_obstruction.specs.Told.{told_by};
ghost use Rattle.tl_outcomes.specs.Outcomes.{IsWithin};
ghost use Rattle.tl_text.specs.Shapes.{shape_text as text_of};
ghost use Rattle.tl_text.specs.Words.{max_order};
ghost use Rattle.tl_run.specs.Replying.{answer_of, IfRefused};
ghost use Rattle.tl_run.specs.Samples.{IsSampledText, RefusesSampled};
ghost use Rattle.tl_run.specs.Statuses.{code_of};
ghost use Rattle.tl_run.specs.Summary.{counts_text, IsSummaryHead, IsUntiled, reason_line, SummaryReply};
ghost use Rattle.tl_run.specs.Writing.{Writing};

use crate::draws::write_draws;
use crate::reply::{Reply, Stop};
use crate::sample::{region_to_sample, verdict};
use crate::status::Status;
use crate::writers::write_made;
use std::alloc::{AllocError, Global};
use std::thread::Threads;
use tl_extreme::Verdict;
use tl_flip::distance;
use tl_height::Heights;
use tl_io::{Gate, Sink};
use tl_obstruction::Obstruction;
use tl_region::Region;
use tl_text::{GenJob, shape_text};

// The region of a shape, whose samples aren't too large.
fn region_of_shape(alloc: Global, job: &GenJob) -> Result<Region, Stop>
    requires { job.now.order ≤ max_order job.now.shape }
    ensures region { IfOk result (IsSampledText job.now.job (text_of job.now.shape job.now.order)) }
    ensures refused { IfErr result (λ stop. IfRefused stop
        (RefusesSampled job.now.job (text_of job.now.shape job.now.order))) }
{
    let text = shape_text(alloc, job.shape, job.order)?;
    region_to_sample(alloc, &job.job, text.as_slice())
}

// The counts of the region's cells and of its inner corners.
fn counts(alloc: Global, region: &Region) -> Result<String, AllocError>
    ensures { IfOk result (λ text. string_bytes text ≡ counts_text region.now) }
{
    let cells = region.cell_count();
    let corners = region.inner_count();
    format!(in alloc; "cells {cells}\ncorners {corners}\n")
}

// The counts, and of what kind the reason is why there is no tiling.
fn untiled_text(alloc: Global, region: &Region, told: &Obstruction) -> Result<String, AllocError>
    ensures { IfOk result (λ text. string_bytes text ≡ counts_text region.now ++ reason_line (told_by told.now)) }
{
    let counts = counts(alloc, region)?;
    match told {
        Obstruction::Open { total } => format!(in alloc; "{counts}none open {total}\n"),
        Obstruction::Gap { .. } => format!(in alloc; "{counts}none gap\n"),
    }
}

fn untiled_reply(alloc: Global, region: &Region, told: &Obstruction) -> Result<Reply, AllocError>
    requires { IsReason region.now (told_by told.now) }
    ensures { IfOk result (λ reply. IsUntiled region.now (answer_of reply)) }
{
    let text = untiled_text(alloc, region, told)?;
    Ok(Reply::made(text, Status::Refuted))
}

// The bottom and the top tiling of the region. Why it has none is a reply.
fn bounds<'r>(alloc: Global, region: &'r Region) -> Result<(Heights<'r>, Heights<'r>), Stop>
    ensures low { IfOk result (λ p. AreBottomHeights region.now p.0) }
    ensures high { IfOk result (λ p. AreTopHeights region.now p.1) }
    ensures refused { IfErr result (λ stop. IfRefused stop (IsUntiled region.now)) }
{
    match verdict(alloc, region)? {
        Verdict::Pair { low, high } => Ok((low, high)),
        Verdict::Blocked(told) => Err(Stop::Refused(untiled_reply(alloc, region, &told)?)),
    }
}

// The counts, and the span: how many flips lead from the bottom to the top tiling.
fn head_text(
    alloc: Global,
    region: &Region,
    low: &Heights,
    high: &Heights,
) -> Result<String, AllocError>
    requires low { AreBottomHeights region.now low.now }
    requires high { AreTopHeights region.now high.now }
    ensures { IfOk result (λ text. IsSummaryHead region.now (string_bytes text)) }
{
    let counts = counts(alloc, region)?;
    let span = distance(low, high);
    format!(in alloc; "{counts}span {span}\n")
}

// What the summary of the region begins with, and its bottom and its top tiling.
fn prepare<'r>(
    alloc: Global,
    region: &'r Region,
) -> Result<(String, Heights<'r>, Heights<'r>), Stop>
    ensures head { IfOk result (λ p. IsSummaryHead region.now (string_bytes p.0)) }
    ensures low { IfOk result (λ p. AreBottomHeights region.now p.1) }
    ensures high { IfOk result (λ p. AreTopHeights region.now p.2) }
    ensures refused { IfErr result (λ stop. IfRefused stop (IsUntiled region.now)) }
{
    let (low, high) = bounds(alloc, region)?;
    let head = head_text(alloc, region, &low, &high)?;
    Ok((head, low, high))
}

/// Answers a shape and its order: writes the summary of that region.
pub fn summary<R: Threads + Sync, K: Sink, G: Gate + Sync>(
    rt: &R,
    alloc: Global,
    job: GenJob,
    gate: &G,
    sink: &mut K,
) -> Status
    requires order { job.order ≤ max_order job.shape }
    requires within { IsWithin job.job }
    ensures { Writing (SummaryReply job) true (K.state sink.old) (K.state sink.new) (code_of result) }
{
    let region = match region_of_shape(alloc, &job) {
        Ok(region) => region,
        Err(stop) => return write_made(sink, &Err(stop)),
    };
    match prepare(alloc, &region) {
        Ok((head, low, high)) => write_draws(
            rt,
            alloc,
            &low,
            &high,
            &job.job,
            true,
            head.as_bytes(),
            gate,
            sink,
        ),
        Err(stop) => write_made(sink, &Err(stop)),
    }
}
