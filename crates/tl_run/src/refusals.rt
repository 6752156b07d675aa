//! The replies that refuse words or an input: all their texts.

ghost use Rattle.std.specs.Prelude.{◌≡◌, IfOk, IsSomeAnd, ◌∷◌, codes, decimal};
ghost use Rattle.std.specs.String.{string_bytes};
ghost use Rattle.tl_formats.specs.Texts.{line, cell_words};
ghost use Rattle.tl_formats.specs.RegionText;
ghost use Rattle.tl_formats.specs.Drawing;
ghost use Rattle.tl_region.specs.Refusals.{refusal_by as region_refusal_by};
ghost use Rattle.tl_obstruction.specs.Lines.{line_by};
ghost use Rattle.tl_tiling.specs.Refusals.{refusal_by as drawing_refusal_by};
ghost use Rattle.tl_run.specs.Answers.{Is};
ghost use Rattle.tl_run.specs.Refusals as answers;
ghost use Rattle.tl_run.specs.Replying.{answer_of, IfRefused};

use crate::reply::{Reply, Stop};
use crate::status::Status;
use std::alloc::{AllocError, Global};
use tl_lattice::{Cell, Corner};
use tl_obstruction::TextFault;
use tl_region::RegionFault;
use tl_tiling::DrawFault;

const USAGE: &str = "usage: tilings check | decide | refute | flips | distance
       tilings sample [--seed S] [--count N] [--bound B] [--workers W] [--bands K]
       tilings gen --shape aztec|hexagon|staircase|hourglass --order N [--summary] [options of sample]
";

/// The words are no command.
pub fn usage() -> Reply
    ensures { answer_of result ≡ answers.usage }
{
    Reply::fixed(USAGE, Status::Usage)
}

/// A read failed.
pub fn read_fault() -> Reply
    ensures { answer_of result ≡ answers.read_fault }
{
    Reply::fixed("read fault\n", Status::ReadFault)
}

/// The input has too many bytes.
pub fn input_too_long() -> Reply
    ensures { answer_of result ≡ answers.input_too_long }
{
    Reply::fixed("input too long\n", Status::Input)
}

/// Something other than line ends follows the last section.
pub fn extra_text() -> Reply
    ensures { answer_of result ≡ answers.extra_text }
{
    Reply::fixed("extra text\n", Status::Input)
}

fn bad_byte(alloc: Global, cell: Cell) -> Result<Reply, AllocError>
    ensures { IfOk result (λ reply. answer_of reply ≡ answers.region_refused (RegionText.bad_byte cell)) }
{
    let Cell { r, c } = cell;
    Ok(Reply::made(format!(in alloc; "bad byte {r} {c}\n")?, Status::Input))
}

fn parts(alloc: Global, cell: Cell) -> Result<Reply, AllocError>
    ensures { IfOk result (λ reply. answer_of reply ≡ answers.region_refused (RegionText.parts cell)) }
{
    let Cell { r, c } = cell;
    Ok(Reply::made(format!(in alloc; "parts {r} {c}\n")?, Status::Input))
}

fn pinch(alloc: Global, corner: Corner) -> Result<Reply, AllocError>
    ensures { IfOk result (λ reply. answer_of reply ≡ answers.region_refused (RegionText.pinch corner)) }
{
    let Corner { r, x } = corner;
    Ok(Reply::made(format!(in alloc; "pinch {r} {x}\n")?, Status::Input))
}

fn region_reply(alloc: Global, fault: RegionFault) -> Result<Reply, AllocError>
    ensures { IfOk result (λ reply. IsSomeAnd (region_refusal_by fault)
        (λ f. answer_of reply ≡ answers.region_refused f)) }
{
    match fault {
        RegionFault::BadHeader => Ok(Reply::fixed("bad header\n", Status::Input)),
        RegionFault::BadByte(cell) => bad_byte(alloc, cell),
        RegionFault::TooLarge => Ok(Reply::fixed("region too large\n", Status::Input)),
        RegionFault::Empty => Ok(Reply::fixed("empty region\n", Status::Input)),
        RegionFault::Parts(cell) => parts(alloc, cell),
        RegionFault::Pinch(corner) => pinch(alloc, corner),
        RegionFault::Hole => Ok(Reply::fixed("hole\n", Status::Input)),
        RegionFault::OutOfMemory => Err(AllocError),
    }
}

/// The region is refused.
pub fn region_refused(alloc: Global, fault: RegionFault) -> Stop
    ensures { IfRefused result (λ a. IsSomeAnd (region_refusal_by fault)
        (λ f. Is (answers.region_refused f) a)) }
{
    match region_reply(alloc, fault) {
        Ok(reply) => Stop::Refused(reply),
        Err(AllocError) => Stop::Memory,
    }
}

fn bad_obstruction(alloc: Global, line: u32) -> Result<Reply, AllocError>
    ensures { IfOk result (λ reply. answer_of reply ≡ answers.bad_obstruction line) }
{
    Ok(Reply::made(
        format!(in alloc; "bad obstruction {line}\n")?,
        Status::Input,
    ))
}

fn obstruction_reply(alloc: Global, fault: TextFault) -> Result<Reply, AllocError>
    ensures { IfOk result (λ reply. IsSomeAnd (line_by fault)
        (λ i. answer_of reply ≡ answers.bad_obstruction i)) }
{
    match fault {
        TextFault::BadLine(line) => bad_obstruction(alloc, line),
        TextFault::OutOfMemory => Err(AllocError),
    }
}

/// The text of the obstruction is refused.
pub fn obstruction_refused(alloc: Global, fault: TextFault) -> Stop
    ensures { IfRefused result (λ a. IsSomeAnd (line_by fault) (λ i. Is (answers.bad_obstruction i) a)) }
{
    match obstruction_reply(alloc, fault) {
        Ok(reply) => Stop::Refused(reply),
        Err(AllocError) => Stop::Memory,
    }
}

// Where a drawing is wrong, and why.
fn wrong_at(alloc: Global, drawing: u32, cause: &str, cell: Cell) -> Result<String, AllocError>
    ensures { IfOk result (λ text. string_bytes text
        ≡ line (codes "drawing" ∷ decimal drawing ∷ cause.now ∷ cell_words cell)) }
{
    let Cell { r, c } = cell;
    Ok(format!(in alloc; "drawing {drawing} {cause} {r} {c}\n")?)
}

fn bad_letter(alloc: Global, drawing: u32, cell: Cell) -> Result<Reply, AllocError>
    ensures { IfOk result (λ reply. answer_of reply
        ≡ answers.drawing_refused drawing (Drawing.bad_letter cell)) }
{
    let text = wrong_at(alloc, drawing, "bad letter", cell)?;
    Ok(Reply::made(text, Status::Input))
}

fn unmatched(alloc: Global, drawing: u32, cell: Cell) -> Result<Reply, AllocError>
    ensures { IfOk result (λ reply. answer_of reply
        ≡ answers.drawing_refused drawing (Drawing.unmatched cell)) }
{
    let text = wrong_at(alloc, drawing, "unmatched", cell)?;
    Ok(Reply::made(text, Status::Input))
}

fn drawing_reply(alloc: Global, drawing: u32, fault: DrawFault) -> Result<Reply, AllocError>
    ensures { IfOk result (λ reply. IsSomeAnd (drawing_refusal_by fault)
        (λ f. answer_of reply ≡ answers.drawing_refused drawing f)) }
{
    match fault {
        DrawFault::BadLetter(cell) => bad_letter(alloc, drawing, cell),
        DrawFault::Unmatched(cell) => unmatched(alloc, drawing, cell),
        DrawFault::OutOfMemory => Err(AllocError),
    }
}

/// The drawing of this number is refused.
pub fn drawing_refused(alloc: Global, drawing: u32, fault: DrawFault) -> Stop
    ensures { IfRefused result (λ a. IsSomeAnd (drawing_refusal_by fault)
        (λ f. Is (answers.drawing_refused drawing f) a)) }
{
    match drawing_reply(alloc, drawing, fault) {
        Ok(reply) => Stop::Refused(reply),
        Err(AllocError) => Stop::Memory,
    }
}

// The answer of `check` to a drawing in which a cell isn't matched.
fn no(alloc: Global, cell: Cell) -> Result<Reply, AllocError>
    ensures { IfOk result (λ reply. answer_of reply ≡ answers.check_refused (Drawing.unmatched cell)) }
{
    let Cell { r, c } = cell;
    Ok(Reply::made(format!(in alloc; "no {r} {c}\n")?, Status::Refuted))
}

fn check_reply(alloc: Global, fault: DrawFault) -> Result<Reply, AllocError>
    ensures { IfOk result (λ reply. IsSomeAnd (drawing_refusal_by fault)
        (λ f. answer_of reply ≡ answers.check_refused f)) }
{
    match fault {
        DrawFault::BadLetter(cell) => bad_letter(alloc, 1, cell),
        DrawFault::Unmatched(cell) => no(alloc, cell),
        DrawFault::OutOfMemory => Err(AllocError),
    }
}

/// The drawing of `check` is refused.
pub fn check_refused(alloc: Global, fault: DrawFault) -> Stop
    ensures { IfRefused result (λ a. IsSomeAnd (drawing_refusal_by fault)
        (λ f. Is (answers.check_refused f) a)) }
{
    match check_reply(alloc, fault) {
        Ok(reply) => Stop::Refused(reply),
        Err(AllocError) => Stop::Memory,
    }
}
