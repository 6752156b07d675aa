//! Writing replies that were made whole.

ghost use Rattle.std.specs.Prelude.{true};
ghost use Rattle.tl_run.specs.Answers.{Is};
ghost use Rattle.tl_run.specs.Replying.{answer_of, Makes};
ghost use Rattle.tl_run.specs.Statuses.{code_of};
ghost use Rattle.tl_run.specs.Writing.{Writing};

use crate::reply::{Reply, Stop};
use crate::status::Status;
use tl_io::{Sink, write_all};

/// Writes a reply.
pub fn write_reply<K: Sink>(sink: &mut K, reply: &Reply) -> Status
    ensures { Writing (Is (answer_of reply.now)) true (K.state sink.old) (K.state sink.new) (code_of result) }
{
    match write_all(sink, reply.text.as_slice()) {
        Ok(()) => reply.status,
        Err(_) => Status::WriteFault,
    }
}

/// Writes what a command came to, be it a refusal. For want of memory nothing is written.
pub fn write_made<K: Sink>(sink: &mut K, made: &Result<Reply, Stop>) -> Status
    ensures { Writing (Makes made.now) true (K.state sink.old) (K.state sink.new) (code_of result) }
{
    match made {
        Ok(reply) => write_reply(sink, reply),
        Err(Stop::Refused(reply)) => write_reply(sink, reply),
        Err(Stop::Memory) => Status::OutOfMemory,
    }
}
