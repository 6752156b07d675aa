//! The command `refute`.

ghost use Rattle.std.specs.Prelude.{◌≡◌, ◌≤◌, length};
ghost use Rattle.tl_obstruction.specs.Told.{told_by};
ghost use Rattle.tl_run.specs.Refute.{Judged, RefuteReply};
ghost use Rattle.tl_run.specs.Replying.{IfMade};

use crate::readers::{at_end, obstruction_of, region_of};
use crate::reply::{Reply, Stop};
use crate::status::Status;
use std::alloc::Global;
use tl_boundary::circuit;
use tl_formats::INPUT_LIMIT;
use tl_obstruction::{Obstruction, check as holds};
use tl_region::Region;

// Whether the reason holds of the region.
fn judge(alloc: Global, region: &Region, told: &Obstruction) -> Result<Reply, Stop>
    ensures { IfMade result (Judged region.now (told_by told.now)) }
{
    let Ok(circuit) = circuit(alloc, region) else {
        return Err(Stop::Memory);
    };
    if holds(region, &circuit, told) {
        Ok(Reply::fixed("refuted\n", Status::Answered))
    } else {
        Ok(Reply::fixed("not refuted\n", Status::Refuted))
    }
}

/// The reply to an input: whether its obstruction is one of its region, which then has no tiling.
pub fn refute(alloc: Global, input: &[u8]) -> Result<Reply, Stop>
    requires { length input.now ≤ INPUT_LIMIT }
    ensures { IfMade result (RefuteReply input.now) }
{
    let (region, rest) = region_of(alloc, input)?;
    let (told, end) = obstruction_of(alloc, rest)?;
    at_end(end)?;
    judge(alloc, &region, &told)
}
