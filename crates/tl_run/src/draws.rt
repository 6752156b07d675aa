//! Samples drawn and written.

ghost use Rattle.std.specs.Prelude.{◌≡◌, ◌≤◌, ◌++◌, true, length, All, Some, None, OnOk, OnErr, if◌then◌else◌};
ghost use Rattle.tl_definitions.specs.Accepted.{Accepted};
ghost use Rattle.tl_extreme.specs.Verdicts.{AreBottomHeights, AreTopHeights};
ghost use Rattle.tl_height.specs.HeightFunction.{HeightFunction};
ghost use Rattle.tl_outcomes.specs.Outcomes.{AreOutcomesOf, draw_of, EntriesOf, entry_of, IsWithin};
ghost use Rattle.tl_outcomes.specs.declared.draw_job.DrawJob.{DrawJob};
ghost use Rattle.tl_text.specs.SampleLine.{sample_line};
ghost use Rattle.tl_run.specs.Draws.{is_late_draw};
ghost use Rattle.tl_run.specs.InEntries.{IsInEntries};
ghost use Rattle.tl_run.specs.Pages.{Gathers};
ghost use Rattle.tl_run.specs.Statuses.{code_of};
ghost use Rattle.tl_run.specs.Writing.{Cuts, Writing};

use crate::page::Page;
use crate::status::Status;
use std::alloc::{AllocError, Global};
use std::thread::Threads;
use tl_chain::Drawn;
use tl_height::Heights;
use tl_io::{Gate, Sink, WriteFault};
use tl_outcomes::{Drawer, Noted, Outcome, draw_apart, drawers};
use tl_sampler::Sampling;
use tl_text::{SampleJob, sample_head};
use tl_workers::Worker;

// Puts the head line of a sample into the page.
fn put_head<K: Sink>(
    number: u32,
    start: Option<u64>,
    rank: Option<u64>,
    page: &mut Page,
    sink: &mut K,
) -> Result<(), WriteFault>
    ensures whole { OnOk result (Gathers page.old (sample_line number start rank) page.new (K.state sink.old) (K.state sink.new)) }
    ensures cut { OnErr result (Cuts (page.old ++ sample_line number start rank) (K.state sink.old) (K.state sink.new)) }
{
    let mut line = [0u8; 80];
    let end = sample_head(number, start, rank, &mut line);
    page.put(&line[..end], sink)
}

// Puts the head line of a sample and its drawing into the page.
fn put_drawing<K: Sink>(
    number: u32,
    start: u64,
    letters: &[u8],
    page: &mut Page,
    sink: &mut K,
) -> Result<(), WriteFault>
    ensures whole { OnOk result (Gathers page.old (sample_line number (Some start) None ++ letters.now) page.new
        (K.state sink.old) (K.state sink.new)) }
    ensures cut { OnErr result (Cuts (page.old ++ (sample_line number (Some start) None ++ letters.now))
        (K.state sink.old) (K.state sink.new)) }
{
    put_head(number, Some(start), None, page, sink)?;
    page.put(letters, sink)
}

// Puts what came of the draw of a number into the page: its head line, and its drawing where it has one.
fn put_outcome<K: Sink>(
    number: u32,
    outcome: &Outcome,
    page: &mut Page,
    sink: &mut K,
) -> Result<(), WriteFault>
    ensures whole { OnOk result (Gathers page.old (entry_of outcome.now.drawn outcome.now.noted number).text page.new
        (K.state sink.old) (K.state sink.new)) }
    ensures cut { OnErr result (Cuts (page.old ++ (entry_of outcome.now.drawn outcome.now.noted number).text)
        (K.state sink.old) (K.state sink.new)) }
{
    let Drawn::At(start) = outcome.drawn else {
        return put_head(number, None, None, page, sink);
    };
    match &outcome.noted {
        Noted::Drawing(letters) => put_drawing(number, start, letters, page, sink),
        Noted::Rank(rank) => put_head(number, Some(start), Some(*rank), page, sink),
    }
}

// The status of the samples with one more.
fn status_with(status: Status, drawn: Drawn) -> Status
    ensures { code_of result ≡ (if is_late_draw drawn then 7 else code_of status) }
{
    match drawn {
        Drawn::At(_) => status,
        Drawn::Late => Status::Late,
    }
}

// Draws the samples of all numbers below the count, one after the other, and writes them in order, gathered to pages.
// After a failed write none is drawn. With a drawer of a sampler it takes no memory.
fn write_in_turn<'a, E: Sampling, K: Sink, G: Gate>(
    count: u32,
    blank: Outcome<'a>,
    drawer: &mut Drawer<'a, E>,
    head: &[u8],
    gate: &G,
    sink: &mut K,
) -> Status
    requires region { (E.drawn drawer.old.sampler).region ≡ blank.region.now }
    requires bottom { AreBottomHeights blank.region.now drawer.old.bottom.now }
    requires ready { E.can_draw drawer.old.sampler }
    requires bound { blank.job.now.bound ≤ 30 }
    requires accepted { Accepted blank.region.now }
    ensures { Writing (IsInEntries (EntriesOf (draw_of blank.entry)) head.now count) true
        (K.state sink.old) (K.state sink.new) (code_of result) }
{
    let mut page = Page::new();
    let Ok(()) = page.put(head, sink) else {
        return Status::WriteFault;
    };
    let mut status = Status::Answered;
    let mut outcome = blank;
    for number in 0..count {
        gate.pass(0, number);
        outcome = drawer.fill(number, outcome);
        gate.posted(0, number);
        let Ok(()) = put_outcome(number, &outcome, &mut page, sink) else {
            return Status::WriteFault;
        };
        status = status_with(status, outcome.drawn);
    }
    let Ok(()) = page.flush(sink) else {
        return Status::WriteFault;
    };
    status
}

// Writes what came of all draws, in order, gathered to pages.
fn write_outcomes<K: Sink>(outcomes: &[Outcome], head: &[u8], sink: &mut K) -> Status
    requires { length outcomes.now ≤ 65536 }
    ensures { (draw : DrawJob) (low : HeightFunction) → AreBottomHeights draw.region low → Accepted draw.region
        → AreOutcomesOf draw outcomes.now
        → Writing (IsInEntries (EntriesOf draw) head.now (length outcomes.now)) true (K.state sink.old) (K.state sink.new) (code_of result) }
{
    let mut page = Page::new();
    let Ok(()) = page.put(head, sink) else {
        return Status::WriteFault;
    };
    let mut status = Status::Answered;
    for number in 0..outcomes.len() {
        let outcome = &outcomes[number];
        let Ok(()) = put_outcome(number as u32, outcome, &mut page, sink) else {
            return Status::WriteFault;
        };
        status = status_with(status, outcome.drawn);
    }
    let Ok(()) = page.flush(sink) else {
        return Status::WriteFault;
    };
    status
}

/// Draws the samples that a job asks for by these drawers and writes them behind the head, in order. One drawer draws and
/// writes them in turn. Several draw them beside each other, and they are written when all are drawn.
pub fn write_drawn<'a, R: Threads + Sync, E: Sampling + Send + Drop, K: Sink, G: Gate + Sync>(
    rt: &R,
    alloc: Global,
    low: &'a Heights<'a>,
    job: &'a SampleJob,
    is_ranked: bool,
    mut drawers: Vec<Drawer<'a, E>>,
    head: &[u8],
    gate: &G,
    sink: &mut K,
) -> Status
    requires bottom { AreBottomHeights low.now.region low.now }
    requires within { IsWithin job.now }
    requires some { 1 ≤ length drawers.items }
    requires few { length drawers.items ≤ 64 }
    requires of_region { All (λ d. (E.drawn d.sampler).region ≡ low.now.region) drawers.items }
    requires from_bottom { All (λ d. d.bottom.now ≡ low.now) drawers.items }
    requires ready { All (λ d. E.can_draw d.sampler) drawers.items }
    ensures { Writing
        (IsInEntries (EntriesOf (record { region = low.now.region; job = job.now; is_ranked = is_ranked })) head.now job.now.count)
        true (K.state sink.old) (K.state sink.new) (code_of result) }
{
    let region = low.region();
    if drawers.len() == 1 {
        match Outcome::blank(alloc, region, job, is_ranked) {
            Ok(blank) => write_in_turn(job.count, blank, &mut drawers[0], head, gate, sink),
            Err(AllocError) => Status::OutOfMemory,
        }
    } else {
        match draw_apart(rt, alloc, region, job, is_ranked, drawers, gate) {
            Ok(outcomes) => write_outcomes(&outcomes, head, sink),
            Err(AllocError) => Status::OutOfMemory,
        }
    }
}

// How many drawers draw the samples of a job: a lone sample takes one.
fn drawers_for(job: &SampleJob) -> u32
    requires { IsWithin job.now }
    ensures some { 1 ≤ result }
    ensures few { result ≤ 16 }
{
    if job.count == 1 { 1 } else { job.workers }
}

/// Draws the samples that a job asks for by its workers, each with a sampler, and writes them behind the head, in order.
pub fn write_draws<'a, R: Threads + Sync, K: Sink, G: Gate + Sync>(
    rt: &R,
    alloc: Global,
    low: &'a Heights<'a>,
    high: &Heights<'a>,
    job: &'a SampleJob,
    is_ranked: bool,
    head: &[u8],
    gate: &G,
    sink: &mut K,
) -> Status
    requires bottom { AreBottomHeights low.now.region low.now }
    requires top { AreTopHeights low.now.region high.now }
    requires within { IsWithin job.now }
    ensures { Writing
        (IsInEntries (EntriesOf (record { region = low.now.region; job = job.now; is_ranked = is_ranked })) head.now job.now.count)
        true (K.state sink.old) (K.state sink.new) (code_of result) }
{
    match drawers(alloc, low, high, drawers_for(job)) {
        Ok(drawers) => write_drawn(rt, alloc, low, job, is_ranked, drawers, head, gate, sink),
        Err(AllocError) => Status::OutOfMemory,
    }
}
