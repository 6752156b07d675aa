//! The command `decide`.

ghost use Rattle.std.specs.Prelude.{◌≡◌, ◌≤◌, ◌+◌, ◌*◌, length, IfOk, List, [], ◌∷◌, ◌++◌, codes};
ghost use Rattle.tl_definitions.specs.declared.Tile.{Tile};
ghost use Rattle.tl_definitions.specs.Flip.{IsTop};
ghost use Rattle.tl_definitions.specs.Heights.{AreHeights};
ghost use Rattle.tl_extreme.specs.Verdicts.{AreTopHeights, IsReason};
ghost use Rattle.tl_obstruction.specs.Told.{told_by};
ghost use Rattle.tl_run.specs.Decide.{Decided, DecideReply, IsBlocked};
ghost use Rattle.tl_run.specs.Replying.{answer_of, IfMade};

use crate::readers::{at_end, region_of};
use crate::reply::{Reply, Stop};
use crate::status::Status;
use std::alloc::{AllocError, Global};
use tl_boundary::circuit;
use tl_extreme::{Decision, decide as verdict_of};
use tl_formats::INPUT_LIMIT;
use tl_height::Heights;
use tl_obstruction::{Obstruction, write_obstruction};
use tl_region::Region;

const HEAD: &[u8] = b"tiling\n";

// The drawing of the top tiling, after a line that says that there is one.
fn tiling_reply(alloc: Global, region: &Region, heights: &Heights) -> Result<Reply, AllocError>
    requires { AreTopHeights region.now heights.now }
    ensures { IfOk result (λ reply. Decided region.now (answer_of reply)) }
{
    let size = region.rows() as usize * (region.columns() as usize + 1);
    let mut text = vec![in alloc; b'.'; HEAD.len() + size]?;
    let (head, drawing) = text.split_at_mut(HEAD.len());
    head.copy_from_slice(HEAD);
    heights.to_letters(drawing);
    Ok(Reply::of_bytes(text, Status::Answered))
}

/// The reply that tells why the region has no tiling.
pub fn reason_reply(alloc: Global, region: &Region, told: &Obstruction) -> Result<Reply, AllocError>
    requires { IsReason region.now (told_by told.now) }
    ensures { IfOk result (λ reply. IsBlocked region.now (answer_of reply)) }
{
    Ok(Reply::of_bytes(write_obstruction(alloc, told)?, Status::Refuted))
}

// The top tiling of the region, or why it has none.
fn settle(alloc: Global, region: &Region) -> Result<Reply, AllocError>
    ensures { IfOk result (λ reply. Decided region.now (answer_of reply)) }
{
    let circuit = circuit(alloc, region)?;
    match verdict_of(alloc, region, &circuit)? {
        Decision::Tiled(heights) => tiling_reply(alloc, region, &heights),
        Decision::Blocked(told) => reason_reply(alloc, region, &told),
    }
}

/// The reply to an input: the top tiling of its region, or why it has none.
pub fn decide(alloc: Global, input: &[u8]) -> Result<Reply, Stop>
    requires { length input.now ≤ INPUT_LIMIT }
    ensures { IfMade result (DecideReply input.now) }
{
    let (region, rest) = region_of(alloc, input)?;
    at_end(rest)?;
    Ok(settle(alloc, &region)?)
}
