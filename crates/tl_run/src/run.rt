//! One run of the program.

ghost use Rattle.std.specs.Prelude.{◌≡◌, ◌≤◌, length, map, false, true, IsTrue};
ghost use Rattle.tl_outcomes.specs.Outcomes.{IsWithin};
ghost use Rattle.tl_text.specs.Words.{max_order};
ghost use Rattle.tl_run.specs.Generate.{GenReply};
ghost use Rattle.tl_run.specs.Ranges.{IsWithinRanges};
ghost use Rattle.tl_run.specs.Replies.{Answers, asked, meaning_of, reads_input, takes_memory_first};
ghost use Rattle.tl_run.specs.Runs.{IsRun, Runs};
ghost use Rattle.tl_run.specs.Statuses.{code_of};
ghost use Rattle.tl_run.specs.Writing.{Writing};

use crate::check::check;
use crate::decide::decide;
use crate::flips::{distance, flips};
use crate::generate::generate;
use crate::refusals::{input_too_long, read_fault, usage};
use crate::refute::refute;
use crate::sample::sample;
use crate::status::Status;
use crate::summary::summary;
use crate::writers::{write_made, write_reply};
use std::alloc::Global;
use std::thread::Threads;
use tl_formats::INPUT_LIMIT;
use tl_io::{Gate, InFault, Sink, Source, read_all};
use tl_text::{Command, GenJob, WordsFault, read_words};

// Answers `gen`.
fn answer_gen<R: Threads + Sync, K: Sink, G: Gate + Sync>(
    rt: &R,
    alloc: Global,
    job: GenJob,
    gate: &G,
    sink: &mut K,
) -> Status
    requires order { job.order ≤ max_order job.shape }
    requires within { IsWithin job.job }
    ensures { Writing (GenReply job) true (K.state sink.old) (K.state sink.new) (code_of result) }
{
    if job.summary {
        summary(rt, alloc, job, gate, sink)
    } else {
        write_made(sink, &generate(alloc, job))
    }
}

// Answers an input: an arm for each command.
fn answer_input<R: Threads + Sync, K: Sink, G: Gate + Sync>(
    rt: &R,
    alloc: Global,
    command: Command,
    input: &[u8],
    gate: &G,
    sink: &mut K,
) -> Status
    requires input { length input.now ≤ INPUT_LIMIT }
    requires reads { IsTrue (reads_input (meaning_of command)) }
    requires ranges { IsWithinRanges command }
    ensures { Writing (Answers (meaning_of command) input.now) (takes_memory_first command)
        (K.state sink.old) (K.state sink.new) (code_of result) }
{
    match command {
        Command::Check => write_made(sink, &check(alloc, input)),
        Command::Decide => write_made(sink, &decide(alloc, input)),
        Command::Refute => write_made(sink, &refute(alloc, input)),
        Command::Flips => write_made(sink, &flips(alloc, input)),
        Command::Distance => write_made(sink, &distance(alloc, input)),
        Command::Sample(job) => sample(rt, alloc, job, input, gate, sink),
        Command::Gen(_) => unreachable!(),
    }
}

// Reads the input, and answers it.
fn hear<R: Threads + Sync, S: Source, K: Sink, G: Gate + Sync>(
    rt: &R,
    alloc: Global,
    command: Command,
    source: &mut S,
    gate: &G,
    sink: &mut K,
) -> Status
    requires reads { IsTrue (reads_input (meaning_of command)) }
    requires ranges { IsWithinRanges command }
    ensures { Runs (meaning_of command) (takes_memory_first command) (S.state source.old)
        (S.state source.new) (K.state sink.old) (K.state sink.new) (code_of result) }
{
    match read_all(alloc, source, INPUT_LIMIT) {
        Ok(input) => answer_input(rt, alloc, command, input.as_slice(), gate, sink),
        Err(InFault::ReadFault) => write_reply(sink, &read_fault()),
        Err(InFault::InputTooLong) => write_reply(sink, &input_too_long()),
        Err(InFault::OutOfMemory) => Status::OutOfMemory,
    }
}

// Answers a command. `gen` alone reads nothing.
fn answer_command<R: Threads + Sync, S: Source, K: Sink, G: Gate + Sync>(
    rt: &R,
    alloc: Global,
    command: Command,
    source: &mut S,
    gate: &G,
    sink: &mut K,
) -> Status
    requires ranges { IsWithinRanges command }
    ensures run { Runs (meaning_of command) (takes_memory_first command) (S.state source.old)
        (S.state source.new) (K.state sink.old) (K.state sink.new) (code_of result) }
    ensures untouched { reads_input (meaning_of command) ≡ false → source.new ≡ source.old }
{
    match command {
        Command::Gen(job) => answer_gen(rt, alloc, job, gate, sink),
        _ => hear(rt, alloc, command, source, gate, sink),
    }
}

/// Runs the program on these words, which are those after its name: reads the source, where the words are a
/// command that does, and writes the reply to the sink. It returns whatever comes.
///
/// The statuses 0 to 3 and 7 to 9 are those of a whole reply. 4 is a failed read, 5 a failed write, where the
/// reply is cut, and 6 is want of memory, where nothing is written, or the beginning of samples that several
/// workers or bands draw.
pub fn run_quiet<R: Threads + Sync, S: Source, K: Sink + Send, G: Gate + Sync>(
    rt: &R,
    alloc: Global,
    words: &[&str],
    source: &mut S,
    sink: &mut K,
    gate: &G,
) -> Status
    ensures run { IsRun (map (λ w. w.now) words.now) (S.state source.old) (S.state source.new)
        (K.state sink.old) (K.state sink.new) (code_of result) }
    ensures untouched { reads_input (asked (map (λ w. w.now) words.now)) ≡ false → source.new ≡ source.old }
{
    match read_words(alloc, words) {
        Ok(command) => answer_command(rt, alloc, command, source, gate, sink),
        Err(WordsFault::Usage) => write_reply(sink, &usage()),
        Err(WordsFault::OutOfMemory) => Status::OutOfMemory,
    }
}
