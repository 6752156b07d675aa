//! The text of a flip path.

ghost use Rattle.std.specs.Prelude.{◌≡◌, ◌≤◌, ◌++◌, length, IfOk};
ghost use Rattle.tl_formats.specs.Texts.{line, corner_words};
ghost use Rattle.tl_run.specs.Flips.{flips_text};

use itoa::write_digits;
use std::alloc::{AllocError, Global};
use tl_flip::FLIP_LIMIT;
use tl_lattice::Corner;

// The bytes of two numbers of 32 bits, a space and a line feed.
const LONGEST_LINE: usize = 22;

// The bytes of a line in a region with at most 512 rows and columns.
const USUAL_LINE: usize = 8;

// Appends the line of a corner. There may be a million of them: the line is made at its place in a buffer, from its end.
fn push_corner(text: &mut Vec<u8>, corner: Corner) -> Result<(), AllocError>
    ensures { IfOk result (λ _. text.new.items ≡ text.old.items ++ line (corner_words corner)) }
{
    let mut bytes = [b'\n'; LONGEST_LINE];
    let space = write_digits(u64::from(corner.x), &mut bytes, LONGEST_LINE - 1) - 1;
    bytes[space] = b' ';
    let start = write_digits(u64::from(corner.r), &mut bytes, space);
    text.extend_from_slice(&bytes[start..])
}

/// The text of a flip path: how many flips it has, and a line for each corner.
pub fn path_text(alloc: Global, path: &[Corner]) -> Result<Vec<u8>, AllocError>
    requires { length path.now ≤ FLIP_LIMIT }
    ensures { IfOk result (λ text. text.items ≡ flips_text path.now) }
{
    let head = format!(in alloc; "flips {}\n", path.len())?;
    let mut text = Vec::with_capacity(alloc, head.len() + path.len() * USUAL_LINE)?;
    text.extend_from_slice(head.as_bytes())?;
    for corner in path {
        push_corner(&mut text, *corner)?;
    }
    Ok(text)
}
