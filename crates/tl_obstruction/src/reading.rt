//! Reading an obstruction.

ghost use Rattle.std.specs.Prelude.{◌≡◌, ◌≤◌, ◌^◌, ◌∷◌, [], length, option_map, IfOk, OnOk, IfErr, IfSome, None, Some, ℤ};
ghost use Rattle.std.specs.List.{filter_map};
ghost use Rattle.std.specs.Str.{bytes_eq};
ghost use Rattle.tl_formats.specs.Input.{further_section, taken};
ghost use Rattle.tl_formats.specs.ObstructionText.{gap_head, head_of_words, words_of, corner_of_line, first_bad_after, first_bad_line, told_after, told};
ghost use Rattle.tl_lines.specs.Lines.{section_at};
ghost use Rattle.tl_obstruction.specs.Told.{told_by};
ghost use Rattle.tl_obstruction.specs.Lines.{head_by, line_by};

use crate::fault::TextFault;
use crate::numbers::{cut_word, plain, signed};
use crate::obstruction_type::Obstruction;
use std::alloc::Global;
use tl_formats::INPUT_LIMIT;
use tl_lattice::Corner;
use tl_lines::{next_line, skip_empty_lines};

// What the first line of a section says.
#[derive(Clone, Copy)]
enum Head {
    Open { total: i64 },
    Gap { rise: i64, steps: u32 },
}

fn is_word(word: &[u8], name: &[u8]) -> bool
    ensures { result ≡ bytes_eq word.now name.now }
{
    word == name
}

fn open_head(kind: &[u8], form: &[u8], total: &[u8]) -> Option<Head>
    ensures { option_map head_by result ≡ head_of_words (kind.now ∷ form.now ∷ total.now ∷ []) }
{
    if !is_word(kind, b"none") || !is_word(form, b"open") {
        return None;
    }
    match signed(total) {
        Some(total) => Some(Head::Open { total }),
        None => None,
    }
}

fn gap_head(kind: &[u8], form: &[u8], rise: &[u8], steps: &[u8]) -> Option<Head>
    ensures { option_map head_by result ≡ head_of_words (kind.now ∷ form.now ∷ rise.now ∷ steps.now ∷ []) }
{
    if !is_word(kind, b"none") || !is_word(form, b"gap") {
        return None;
    }
    match (signed(rise), plain(steps)) {
        (Some(rise), Some(steps)) => Some(Head::Gap { rise, steps }),
        _ => None,
    }
}

fn read_head(line: &[u8]) -> Option<Head>
    ensures { option_map head_by result ≡ head_of_words (words_of line.now) }
{
    let (kind, rest) = cut_word(line);
    let Some(rest) = rest else {
        return None;
    };
    let (form, rest) = cut_word(rest);
    let Some(rest) = rest else {
        return None;
    };
    let (number, rest) = cut_word(rest);
    let Some(rest) = rest else {
        return open_head(kind, form, number);
    };
    let (steps, rest) = cut_word(rest);
    if let Some(_) = rest {
        return None;
    }
    gap_head(kind, form, number, steps)
}

fn read_corner(line: &[u8]) -> Option<Corner>
    ensures { result ≡ corner_of_line line.now }
{
    let (r, rest) = cut_word(line);
    let Some(rest) = rest else {
        return None;
    };
    let (x, rest) = cut_word(rest);
    if let Some(_) = rest {
        return None;
    }
    match (plain(r), plain(x)) {
        (Some(r), Some(x)) => Some(Corner { r, x }),
        _ => None,
    }
}

// Reads the corners of a path of so many steps, and gives what follows the section.
fn read_path<'t>(
    alloc: Global,
    steps: u32,
    text: &'t [u8],
) -> Result<(Vec<Corner>, &'t [u8]), TextFault>
    requires { length text.now ≤ INPUT_LIMIT }
    ensures good { OnOk result ((rise : ℤ)
        → first_bad_after (gap_head rise steps) (section_at text.now).lines ≡ None) }
    ensures path { IfOk result (λ p. p.0.items ≡ filter_map corner_of_line (section_at text.now).lines) }
    ensures rest { IfOk result (λ p. p.1.now ≡ (section_at text.now).rest) }
    ensures within { IfOk result (λ p. length p.1.now ≤ length text.now) }
    ensures bad { IfErr result (λ fault. IfSome (line_by fault) (λ i. (rise : ℤ)
        → first_bad_after (gap_head rise steps) (section_at text.now).lines ≡ Some i)) }
{
    let mut path = Vec::new(alloc);
    let mut rest = text;
    let mut count = 0;
    loop {
        let (line, after) = next_line(rest);
        rest = after;
        let Some(line) = line else {
            if count > steps {
                return Ok((path, rest));
            }
            return Err(TextFault::BadLine(count + 2));
        };
        if count > steps {
            return Err(TextFault::BadLine(count + 2));
        }
        let Some(corner) = read_corner(line) else {
            return Err(TextFault::BadLine(count + 2));
        };
        if path.push(corner).is_err() {
            return Err(TextFault::OutOfMemory);
        }
        count += 1;
    }
}

// Reads what follows the first line, and gives what follows the section.
fn read_after<'t>(
    alloc: Global,
    head: Head,
    text: &'t [u8],
) -> Result<(Obstruction, &'t [u8]), TextFault>
    requires { length text.now ≤ INPUT_LIMIT }
    ensures good { OnOk result (first_bad_after (head_by head) (section_at text.now).lines ≡ None) }
    ensures told { IfOk result (λ p. told_by p.0 ≡ told_after (head_by head) (section_at text.now).lines) }
    ensures rest { IfOk result (λ p. p.1.now ≡ (section_at text.now).rest) }
    ensures within { IfOk result (λ p. length p.1.now ≤ length text.now) }
    ensures bad { IfErr result (λ fault. IfSome (line_by fault)
        (λ i. first_bad_after (head_by head) (section_at text.now).lines ≡ Some i)) }
{
    match head {
        Head::Open { total } => {
            let (line, rest) = next_line(text);
            if let Some(_) = line {
                return Err(TextFault::BadLine(2));
            }
            Ok((Obstruction::Open { total }, rest))
        }
        Head::Gap { rise, steps } => match read_path(alloc, steps, text) {
            Ok((path, rest)) => Ok((Obstruction::Gap { rise, path }, rest)),
            Err(fault) => Err(fault),
        },
    }
}

/// Reads the obstruction that the next section tells, and gives the number of bytes taken, the empty lines
/// before the section and the one that closes it included. There are at most `INPUT_LIMIT` bytes.
///
/// # Errors
/// The first line of the section that is wrong, missing or too much.
pub fn read_obstruction(alloc: Global, bytes: &[u8]) -> Result<(Obstruction, usize), TextFault>
    requires { length bytes.now ≤ INPUT_LIMIT }
    ensures good { OnOk result (first_bad_line (further_section bytes.now).lines ≡ None) }
    ensures told { IfOk result (λ p. told (further_section bytes.now).lines ≡ Some (told_by p.0)) }
    ensures taken { IfOk result (λ p. p.1 ≡ taken bytes.now (further_section bytes.now)) }
    ensures bad { IfErr result (λ fault. IfSome (line_by fault)
        (λ i. first_bad_line (further_section bytes.now).lines ≡ Some i)) }
{
    let (line, rest) = next_line(skip_empty_lines(bytes));
    let Some(line) = line else {
        return Err(TextFault::BadLine(1));
    };
    let Some(head) = read_head(line) else {
        return Err(TextFault::BadLine(1));
    };
    match read_after(alloc, head, rest) {
        Ok((told, rest)) => Ok((told, bytes.len() - rest.len())),
        Err(fault) => Err(fault),
    }
}
