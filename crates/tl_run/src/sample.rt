//! The command `sample`.

ghost use Rattle.std.specs.Prelude.{◌≡◌, ◌≤◌, ◌+◌, ◌*◌, false, true, nat_lt, length, IfOk, IfErr, OnOk};
ghost use Rattle.tl_extreme.specs.Verdicts.{AreBottomHeights, AreTopHeights, IsVerdict};
ghost use Rattle.tl_outcomes.specs.Outcomes.{IsWithin};
ghost use Rattle.tl_run.specs.Decide.{IsBlocked};
ghost use Rattle.tl_run.specs.Replying.{answer_of, IfRefused};
ghost use Rattle.tl_run.specs.Samples as samples;
ghost use Rattle.tl_run.specs.Samples.{IsSampledText, RefusesSampled, RefusesSize, SampleReply, samples_size};
ghost use Rattle.tl_run.specs.Statuses.{code_of};
ghost use Rattle.tl_run.specs.Writing.{Writing};

use crate::decide::reason_reply;
use crate::draws::write_draws;
use crate::readers::{at_end, region_of};
use crate::reply::{Reply, Stop};
use crate::status::Status;
use crate::writers::write_made;
use std::alloc::{AllocError, Global};
use std::thread::Threads;
use tl_boundary::circuit;
use tl_extreme::{Verdict, extremes};
use tl_formats::INPUT_LIMIT;
use tl_height::Heights;
use tl_io::{Gate, Sink};
use tl_region::Region;
use tl_text::SampleJob;

/// The most bytes that the drawings of all samples may have: 64 MiB.
pub const SAMPLES_LIMIT: u64 = 1 << 26;

fn too_large(alloc: Global, size: u64) -> Result<Reply, AllocError>
    ensures { IfOk result (λ reply. answer_of reply ≡ samples.too_large size) }
{
    let text = format!(in alloc; "too large {size}\n")?;
    Ok(Reply::made(text, Status::TooLarge))
}

// How many bytes the drawings of so many samples have.
fn size_of_drawings(region: &Region, count: u32) -> u64
    ensures { result ≡ count * region.now.rows * (region.now.columns + 1) }
{
    let width = u64::from(region.columns()) + 1;
    u64::from(count) * u64::from(region.rows()) * width
}

// The drawings of all samples aren't too large together.
fn within_limit(alloc: Global, region: &Region, job: &SampleJob) -> Result<(), Stop>
    ensures within { OnOk result (nat_lt SAMPLES_LIMIT (samples_size region.now job.now) ≡ false) }
    ensures refused { IfErr result (λ stop. IfRefused stop (RefusesSize region.now job.now)) }
{
    let size = size_of_drawings(region, job.count);
    if size > SAMPLES_LIMIT {
        return Err(Stop::Refused(too_large(alloc, size)?));
    }
    Ok(())
}

/// The region of a text that nothing follows, and whose samples aren't too large.
pub fn region_to_sample(alloc: Global, job: &SampleJob, text: &[u8]) -> Result<Region, Stop>
    requires { length text.now ≤ INPUT_LIMIT }
    ensures region { IfOk result (IsSampledText job.now text.now) }
    ensures refused { IfErr result (λ stop. IfRefused stop (RefusesSampled job.now text.now)) }
{
    let (region, rest) = region_of(alloc, text)?;
    at_end(rest)?;
    within_limit(alloc, &region, job)?;
    Ok(region)
}

/// The bottom and the top tiling of a region, or why it has none.
pub fn verdict<'r>(alloc: Global, region: &'r Region) -> Result<Verdict<'r>, AllocError>
    ensures { IfOk result (IsVerdict region.now) }
{
    let circuit = circuit(alloc, region)?;
    extremes(alloc, region, &circuit)
}

// The bottom and the top tiling of the region. Why it has none is a reply.
fn bounds<'r>(alloc: Global, region: &'r Region) -> Result<(Heights<'r>, Heights<'r>), Stop>
    ensures low { IfOk result (λ p. AreBottomHeights region.now p.0) }
    ensures high { IfOk result (λ p. AreTopHeights region.now p.1) }
    ensures refused { IfErr result (λ stop. IfRefused stop (IsBlocked region.now)) }
{
    match verdict(alloc, region)? {
        Verdict::Pair { low, high } => Ok((low, high)),
        Verdict::Blocked(told) => Err(Stop::Refused(reason_reply(alloc, region, &told)?)),
    }
}

/// Answers an input: draws and writes the samples of its region, or writes why there are none.
pub fn sample<R: Threads + Sync, K: Sink, G: Gate + Sync>(
    rt: &R,
    alloc: Global,
    job: SampleJob,
    input: &[u8],
    gate: &G,
    sink: &mut K,
) -> Status
    requires input { length input.now ≤ INPUT_LIMIT }
    requires within { IsWithin job }
    ensures { Writing (SampleReply job input.now) true (K.state sink.old) (K.state sink.new) (code_of result) }
{
    let region = match region_to_sample(alloc, &job, input) {
        Ok(region) => region,
        Err(stop) => return write_made(sink, &Err(stop)),
    };
    match bounds(alloc, &region) {
        Ok((low, high)) => write_draws(rt, alloc, &low, &high, &job, false, &[], gate, sink),
        Err(stop) => write_made(sink, &Err(stop)),
    }
}
