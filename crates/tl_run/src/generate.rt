//! The command `gen`, without its flag.

ghost use Rattle.std.specs.Prelude.{◌≤◌};
ghost use Rattle.tl_text.specs.Words.{max_order};
ghost use Rattle.tl_run.specs.Generate.{ShapeReply};
ghost use Rattle.tl_run.specs.Replying.{IfMade};

use crate::reply::{Reply, Stop};
use crate::status::Status;
use std::alloc::Global;
use tl_text::{GenJob, shape_text};

/// The reply to a shape and its order: the text of that region.
pub fn generate(alloc: Global, job: GenJob) -> Result<Reply, Stop>
    requires { job.order ≤ max_order job.shape }
    ensures { IfMade result (ShapeReply job) }
{
    let text = shape_text(alloc, job.shape, job.order)?;
    Ok(Reply::of_bytes(text, Status::Answered))
}
