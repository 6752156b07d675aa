//! The commands `flips` and `distance`, which read a region and two drawings.

ghost use Rattle.std.specs.Prelude.{◌≡◌, ◌≤◌, length, IfOk, IfErr, IsTrue};
ghost use Rattle.tl_definitions.specs.Tiling.{is_tiling};
ghost use Rattle.tl_formats.specs.Texts.{line, corner_words};
ghost use Rattle.tl_flip.specs.Flips.{IsTilingOf};
ghost use Rattle.tl_run.specs.Flips as answers;
ghost use Rattle.tl_run.specs.Flips.{AreDrawn, RefusesDrawings};
ghost use Rattle.tl_run.specs.Replying.{answer_of, IfMade, IfRefused};

use crate::path_text::path_text;
use crate::readers::{at_end, drawing_of, region_of};
use crate::reply::{Reply, Stop};
use crate::status::Status;
use std::alloc::{AllocError, Global};
use tl_boundary::circuit;
use tl_flip::{PathFault, distance as distance_between, path as path_between};
use tl_formats::INPUT_LIMIT;
use tl_height::{Heights, of_tiling};
use tl_region::Region;
use tl_tiling::Tiling;

// The tilings of two drawings, which nothing follows.
fn two_tilings<'r>(
    alloc: Global,
    region: &'r Region,
    bytes: &[u8],
) -> Result<(Tiling<'r>, Tiling<'r>), Stop>
    requires { length bytes.now ≤ INPUT_LIMIT }
    ensures first { IfOk result (λ p. p.0.region ≡ region.now) }
    ensures second { IfOk result (λ p. p.1.region ≡ region.now) }
    ensures drawn { IfOk result (λ p. AreDrawn region.now bytes.now p.0.tiles p.1.tiles) }
    ensures refused { IfErr result (λ stop. IfRefused stop (RefusesDrawings region.now bytes.now)) }
{
    let (first, rest) = drawing_of(alloc, region, 1, bytes)?;
    let (second, end) = drawing_of(alloc, region, 2, rest)?;
    at_end(end)?;
    Ok((first, second))
}

// The heights of two tilings of one region.
fn two_heights<'r>(
    alloc: Global,
    first: &Tiling<'r>,
    second: &Tiling<'r>,
) -> Result<(Heights<'r>, Heights<'r>), AllocError>
    requires { second.now.region ≡ first.now.region }
    ensures first { IfOk result (λ p. p.0.region ≡ first.now.region) }
    ensures second { IfOk result (λ p. p.1.region ≡ first.now.region) }
    ensures from { IfOk result (λ p. IsTilingOf first.now.region p.0.numbers first.now.tiles) }
    ensures to { IfOk result (λ p. IsTilingOf first.now.region p.1.numbers second.now.tiles) }
{
    let circuit = circuit(alloc, first.region())?;
    let from = of_tiling(alloc, first.region(), &circuit, first)?;
    let to = of_tiling(alloc, second.region(), &circuit, second)?;
    Ok((from, to))
}

fn too_long(alloc: Global, flips: u64) -> Result<Reply, AllocError>
    ensures { IfOk result (λ reply. answer_of reply ≡ answers.too_long flips) }
{
    let text = format!(in alloc; "too long {flips}\n")?;
    Ok(Reply::made(text, Status::PathTooLong))
}

// A shortest flip path from the first tiling to the second.
fn path_reply(alloc: Global, first: &Tiling, second: &Tiling) -> Result<Reply, AllocError>
    requires { second.now.region ≡ first.now.region }
    ensures { IfOk result (λ reply. answers.IsPathAnswer first.now.region first.now.tiles second.now.tiles
        (answer_of reply)) }
{
    let (from, to) = two_heights(alloc, first, second)?;
    match path_between(alloc, &from, &to) {
        Ok(path) => Ok(Reply::of_bytes(path_text(alloc, path.as_slice())?, Status::Answered)),
        Err(PathFault::TooLong(flips)) => too_long(alloc, flips),
        Err(PathFault::OutOfMemory) => Err(AllocError),
    }
}

// The least number of flips from the first tiling to the second.
fn distance_reply(alloc: Global, first: &Tiling, second: &Tiling) -> Result<Reply, AllocError>
    requires { second.now.region ≡ first.now.region }
    ensures { IfOk result (λ reply. answers.IsDistanceAnswer first.now.region first.now.tiles second.now.tiles
        (answer_of reply)) }
{
    let (from, to) = two_heights(alloc, first, second)?;
    let flips = distance_between(&from, &to);
    let text = format!(in alloc; "distance {flips}\n")?;
    Ok(Reply::made(text, Status::Answered))
}

/// The reply to an input: a shortest flip path from its first tiling to its second.
pub fn flips(alloc: Global, input: &[u8]) -> Result<Reply, Stop>
    requires { length input.now ≤ INPUT_LIMIT }
    ensures { IfMade result (answers.FlipsReply input.now) }
{
    let (region, rest) = region_of(alloc, input)?;
    let (first, second) = two_tilings(alloc, &region, rest)?;
    Ok(path_reply(alloc, &first, &second)?)
}

/// The reply to an input: how many flips lead from its first tiling to its second, at least.
pub fn distance(alloc: Global, input: &[u8]) -> Result<Reply, Stop>
    requires { length input.now ≤ INPUT_LIMIT }
    ensures { IfMade result (answers.DistanceReply input.now) }
{
    let (region, rest) = region_of(alloc, input)?;
    let (first, second) = two_tilings(alloc, &region, rest)?;
    Ok(distance_reply(alloc, &first, &second)?)
}
