//! The letters of a drawing, one for each place of the region's rows and columns.

ghost use Rattle.std.specs.Prelude.{◌≡◌, ◌*◌, ◌<◌, ◌≤◌, ◌^◌, ℕ, true, false, not, nat_le, length, find, slice_get, slice_index, slice_index_or, if◌then◌else◌, IfOk, IfErr, IfSome, MatchOption, None, Some};
ghost use Rattle.tl_definitions.specs.Lattice.{cell};
ghost use Rattle.tl_definitions.specs.Region.{has};
ghost use Rattle.tl_formats.specs.RegionText.{is_blank as is_blank_byte};
ghost use Rattle.tl_formats.specs.Drawing.{is_letter as is_letter_byte, first_bad_letter};
ghost use Rattle.tl_grid.specs.Grid.{IsGrid};
ghost use Rattle.tl_tiling.specs.Letters.{is_allowed_in, IsFirstBadIn, ReadsLine, AreReadBefore, AreReadLetters, IsFirstBadLetter};
ghost use Rattle.tl_tiling.specs.Refusals.{refusal_by};
ghost use Rattle.tl_lines.specs.Lines.{section_at};

use crate::fault::DrawFault;
use std::alloc::Global;
use tl_formats::INPUT_LIMIT;
use tl_lattice::Cell;
use tl_lines::next_line;
use tl_region::Region;

fn is_letter(byte: u8) -> bool
    ensures { result ≡ is_letter_byte (Some byte) }
{
    (byte == b'>') | (byte == b'<') | (byte == b'v') | (byte == b'^')
}

fn is_blank(byte: u8) -> bool
    ensures { result ≡ is_blank_byte (Some byte) }
{
    (byte == b'.') | (byte == b' ')
}

fn is_allowed(inside: bool, byte: Option<u8>) -> bool
    ensures { result ≡ (if inside then is_letter_byte byte else is_blank_byte byte) }
{
    match byte {
        Some(byte) if inside => is_letter(byte),
        Some(byte) => is_blank(byte),
        None => !inside,
    }
}

// The flags of a row, one for each column.
fn flags_of(region: &Region, r: u32) -> &[bool]
    requires { r < region.now.rows }
    ensures len { length result.now ≡ region.now.columns }
    ensures flags { (c : ℕ) → c < region.now.columns
        → slice_index_or result.now c false ≡ has region.now (cell r c) }
    ensures is_grid { IsGrid region.now }
{
    region.row(r)
}

// Whether each byte is allowed, in the part that a line and its row both have. A loop with no branch in it
// looks at many bytes at a time.
fn are_allowed_in_both(region: &Region, r: u32, line: &[u8]) -> bool
    requires { r < region.now.rows }
    ensures { result ≡ true → (c : ℕ) → c < length line.now → c < region.now.columns
        → is_allowed_in region.now line.now (cell r c) ≡ true }
{
    let flags = flags_of(region, r);
    let mut fine = true;
    for c in 0..line.len().min(flags.len()) {
        fine &= is_allowed(flags[c], Some(line[c]));
    }
    fine
}

// Whether the bytes of a line from a column on are blank.
fn are_blank(line: &[u8], from: usize) -> bool
    ensures { result ≡ true → (c : ℕ) → from ≤ c → is_blank_byte (slice_get line.now c) ≡ true }
{
    let mut fine = true;
    for c in from..line.len() {
        fine &= is_blank(line[c]);
    }
    fine
}

// Whether a row has no cell from a column on.
fn is_empty(region: &Region, r: u32, from: usize) -> bool
    requires { r < region.now.rows }
    ensures { result ≡ true → (c : ℕ) → from ≤ c → has region.now (cell r c) ≡ false }
{
    let flags = flags_of(region, r);
    let mut empty = true;
    for c in from..flags.len() {
        empty &= !flags[c];
    }
    empty
}

// Whether each byte of a line is allowed.
fn are_allowed(region: &Region, r: u32, line: &[u8]) -> bool
    ensures { result ≡ true → (c : ℕ) → is_allowed_in region.now line.now (cell r c) ≡ true }
{
    if r >= region.rows() {
        return are_blank(line, 0);
    }
    if !are_blank(line, region.columns() as usize) {
        return false;
    }
    are_allowed_in_both(region, r, line) && is_empty(region, r, line.len())
}

// The first place of a row whose byte isn't allowed. All lines but the one that is refused have none, so
// what comes after the first test need not be quick.
fn first_bad(region: &Region, r: u32, line: &[u8]) -> Option<Cell>
    requires { length line.now ≤ INPUT_LIMIT }
    ensures { MatchOption result ((c : ℕ) → is_allowed_in region.now line.now (cell r c) ≡ true)
        (IsFirstBadIn region.now r line.now) }
{
    if are_allowed(region, r, line) {
        return None;
    }
    for c in 0..region.columns().max(line.len() as u32) {
        let place = Cell { r, c };
        if !is_allowed(region.has(place), line.get(c as usize).copied()) {
            return Some(place);
        }
    }
    None
}

// Puts the letters of a line into its row, where the row has cells.
fn put_letters(region: &Region, r: u32, line: &[u8], row: &mut [u8])
    requires row { r < region.now.rows }
    requires size { length row.old ≡ region.now.columns }
    ensures put { (c : ℕ) → c < length line.now → has region.now (cell r c) ≡ true
        → slice_index row.new c ≡ slice_index line.now c }
    ensures kept { (c : ℕ) → has region.now (cell r c) ≡ false → slice_index row.new c ≡ slice_index row.old c }
{
    let flags = flags_of(region, r);
    for c in 0..line.len().min(flags.len()) {
        if flags[c] {
            row[c] = line[c];
        }
    }
}

// Puts the letters of a line into its row, or gives its first place whose byte isn't allowed.
fn read_line(region: &Region, r: u32, line: &[u8], letters: &mut [u8]) -> Option<Cell>
    requires size { length letters.old ≡ region.now.rows * region.now.columns }
    requires short { length line.now ≤ INPUT_LIMIT }
    ensures bad { MatchOption result ((c : ℕ) → is_allowed_in region.now line.now (cell r c) ≡ true)
        (IsFirstBadIn region.now r line.now) }
    ensures read { result ≡ None → ReadsLine region.now r line.now letters.old letters.new }
    ensures is_grid { IsGrid region.now }
{
    let columns = region.columns() as usize;
    if let Some(cell) = first_bad(region, r, line) {
        return Some(cell);
    }
    if r >= region.rows() {
        return None;
    }
    let start = r as usize * columns;
    put_letters(region, r, line, &mut letters[start..start + columns]);
    None
}

// Reads the lines of a section into the letters, and gives their number and what follows the section, or the
// first place whose byte isn't allowed.
fn read_lines<'t>(
    region: &Region,
    text: &'t [u8],
    letters: &mut [u8],
) -> Result<(u32, &'t [u8]), Cell>
    requires dots { AreReadBefore region.now (section_at text.now).lines 0 letters.old }
    requires short { length text.now ≤ INPUT_LIMIT }
    ensures read { IfOk result (λ p. AreReadBefore region.now
        (section_at text.now).lines p.0 letters.new) }
    ensures count { IfOk result (λ p. p.0 ≡ length (section_at text.now).lines) }
    ensures rest { IfOk result (λ p. p.1.now ≡ (section_at text.now).rest) }
    ensures within { IfOk result (λ p. length p.1.now ≤ length text.now) }
    ensures bad { IfErr result (λ a. first_bad_letter region.now (section_at text.now).lines ≡ Some a) }
{
    let mut rest = text;
    let mut r = 0;
    loop {
        let (line, after) = next_line(rest);
        rest = after;
        let Some(line) = line else {
            return Ok((r, rest));
        };
        if let Some(cell) = read_line(region, r, line, letters) {
            return Err(cell);
        }
        r += 1;
    }
}

// The first cell of the region in the rows from one on.
fn first_cell_from(region: &Region, from: u32) -> Option<Cell>
    ensures { result ≡ find (λ a. nat_le from a.r) region.now.cells }
{
    if from >= region.rows() {
        return None;
    }
    for i in 0..region.cell_count() {
        let cell = region.cell(i);
        if cell.r >= from {
            return Some(cell);
        }
    }
    None
}

/// Reads the letters of a section whose lines stand before the text, and gives what follows the section.
pub fn read_letters<'t>(
    alloc: Global,
    region: &Region,
    text: &'t [u8],
) -> Result<(Vec<u8>, &'t [u8]), DrawFault>
    requires { length text.now ≤ INPUT_LIMIT }
    ensures read { IfOk result (λ p. AreReadLetters region.now (section_at text.now).lines p.0.items) }
    ensures rest { IfOk result (λ p. p.1.now ≡ (section_at text.now).rest) }
    ensures within { IfOk result (λ p. length p.1.now ≤ length text.now) }
    ensures refused { IfErr result (λ fault. IfSome (refusal_by fault)
        (IsFirstBadLetter region.now (section_at text.now).lines)) }
    ensures is_grid { IsGrid region.now }
{
    let size = region.rows() as usize * region.columns() as usize;
    let Ok(mut letters) = vec![in alloc; b'.'; size] else {
        return Err(DrawFault::OutOfMemory);
    };
    let (count, rest) = match read_lines(region, text, &mut letters) {
        Ok(read) => read,
        Err(cell) => return Err(DrawFault::BadLetter(cell)),
    };
    match first_cell_from(region, count) {
        Some(cell) => Err(DrawFault::BadLetter(cell)),
        None => Ok((letters, rest)),
    }
}
