//! The command `check`.

ghost use Rattle.std.specs.Prelude.{◌≤◌, length};
ghost use Rattle.tl_run.specs.Check.{CheckReply};
ghost use Rattle.tl_run.specs.Replying.{IfMade};

use crate::readers::{at_end, region_of};
use crate::refusals::check_refused;
use crate::reply::{Reply, Stop};
use crate::status::Status;
use std::alloc::Global;
use tl_formats::INPUT_LIMIT;
use tl_tiling::read_drawing;

/// The reply to an input: whether its drawing draws a tiling of its region.
pub fn check(alloc: Global, input: &[u8]) -> Result<Reply, Stop>
    requires { length input.now ≤ INPUT_LIMIT }
    ensures { IfMade result (CheckReply input.now) }
{
    let (region, rest) = region_of(alloc, input)?;
    let taken = match read_drawing(alloc, &region, rest) {
        Ok((_, taken)) => taken,
        Err(fault) => return Err(check_refused(alloc, fault)),
    };
    at_end(rest.split_at(taken).1)?;
    Ok(Reply::fixed("yes\n", Status::Answered))
}
