//! The words of the command line: the arguments of the process after its name.

ghost use Rattle.std.specs.Prelude.{◌≡◌, ℕ, List, map, IfOk};
ghost use Rattle.std.specs.String.{string_bytes};
ghost use Rattle.tl_run.specs.Runs.{IsRun};
ghost use Rattle.tl_run.specs.Statuses.{code_of};

use crate::run::run_quiet;
use crate::status::Status;
use std::alloc::{AllocError, Global};
use std::env::{self, Env, FillError};
use std::io;
use std::process::ExitCode;
use std::thread::Threads;
use tl_io::{FreeGate, Gate, Sink, Source, StdSink, StdSource};

// The arguments after the first, which is the program's name. That one is never read, so it need not be UTF-8.
#[derive(Drop)]
struct AfterName<'a, R: Env>(&'a R);

impl<'a, R: Env> Env for AfterName<'a, R> {
    fn arg(&self, i: usize, buf: &mut [u8]) -> Result<usize, FillError> {
        match i.checked_add(1) {
            Some(next) => self.0.arg(next, buf),
            None => Err(FillError::NotPresent),
        }
    }

    fn var(&self, name: &str, buf: &mut [u8]) -> Result<usize, FillError> {
        self.0.var(name, buf)
    }

    fn var_at(&self, i: usize, buf: &mut [u8]) -> Result<usize, FillError> {
        self.0.var_at(i, buf)
    }
}

// No words, and so no command, where one of them isn't UTF-8.
pub fn words_of<R: Env>(rt: &R, alloc: Global) -> Result<Vec<String>, AllocError> {
    match env::args(&(AfterName(rt), alloc)) {
        Ok(words) => words.collect(alloc),
        Err(fault) if fault.kind() == io::ErrorKind::OutOfMemory => Err(AllocError),
        Err(_) => Ok(Vec::new(alloc)),
    }
}

// The words, borrowed.
fn borrowed(alloc: Global, words: &[String]) -> Result<Vec<&str>, AllocError>
    ensures { IfOk result (λ all. map (λ w. w.now) all.items ≡ map string_bytes words.now) }
{
    let mut all = Vec::with_capacity(alloc, words.len())?;
    for word in words {
        all.push(word.as_str())?;
    }
    Ok(all)
}

// Runs the program on the words of the command line, as `run_quiet` does. That it does so with some words is proved:
// the runtime promises nothing of its arguments.
fn run_command_line<R: Env + Threads + Sync, S: Source, K: Sink + Send, G: Gate + Sync>(
    rt: &R,
    alloc: Global,
    source: &mut S,
    sink: &mut K,
    gate: &G,
) -> Status
    ensures run { (words : List (List ℕ)) × IsRun words (S.state source.old) (S.state source.new)
        (K.state sink.old) (K.state sink.new) (code_of result) }
{
    let Ok(line) = words_of(rt, alloc) else {
        return Status::OutOfMemory;
    };
    match borrowed(alloc, &line) {
        Ok(words) => run_quiet(rt, alloc, &words, source, sink, gate),
        Err(AllocError) => Status::OutOfMemory,
    }
}

/// All that a process does: runs the program on its command line, its standard input and its standard output, and ends
/// with the number of the status.
pub fn run_process<R>(rt: R) -> ExitCode
where
    R: Env + Threads + Input + Print + AllocGlobal + Copy + Drop + Send + Sync,
{
    let mut source = StdSource::new(rt);
    let mut sink = StdSink::new(rt);
    run_command_line(&rt, rt.alloc(), &mut source, &mut sink, &FreeGate).exit_code()
}
