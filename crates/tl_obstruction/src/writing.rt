//! Writing an obstruction.

ghost use Rattle.std.specs.Prelude.{◌≡◌, ◌-◌, ◌<◌, List, ◌∷◌, [], ◌++◌, length, map, flat_map, codes, decimal, IfOk, OnErr};
ghost use Rattle.std.specs.String.{string_bytes};
ghost use Rattle.std.specs.Fmt.{signed_decimal};
ghost use Rattle.tl_formats.specs.Texts.{line, corner_words};
ghost use Rattle.tl_formats.specs.ObstructionText.{obstruction_text};
ghost use Rattle.tl_obstruction.specs.Told.{told_by};

use crate::obstruction_type::Obstruction;
use std::alloc::{AllocError, Global};
use tl_lattice::Corner;

fn open_line(alloc: Global, total: i64) -> Result<String, AllocError>
    ensures { IfOk result (λ text. string_bytes text
        ≡ line (codes "none" ∷ codes "open" ∷ signed_decimal total ∷ [])) }
{
    Ok(format!(in alloc; "none open {total}\n")?)
}

fn gap_line(alloc: Global, rise: i64, steps: usize) -> Result<String, AllocError>
    ensures { IfOk result (λ text. string_bytes text
        ≡ line (codes "none" ∷ codes "gap" ∷ signed_decimal rise ∷ decimal steps ∷ [])) }
{
    Ok(format!(in alloc; "none gap {rise} {steps}\n")?)
}

fn corner_line(alloc: Global, corner: Corner) -> Result<String, AllocError>
    ensures { IfOk result (λ text. string_bytes text ≡ line (corner_words corner)) }
{
    let Corner { r, x } = corner;
    Ok(format!(in alloc; "{r} {x}\n")?)
}

// Appends a line for each corner.
fn write_corners(alloc: Global, path: &[Corner], text: &mut Vec<u8>) -> Result<(), AllocError>
    ensures { IfOk result (λ _. text.new.items
        ≡ text.old.items ++ flat_map (λ v. line (corner_words v)) path.now) }
{
    for corner in path {
        let line = corner_line(alloc, *corner)?;
        text.extend_from_slice(line.as_str().as_bytes())?;
    }
    Ok(())
}

/// The text of an obstruction: a line of its kind and its numbers, and for a gap a line for each corner of its
/// path.
pub fn write_obstruction(alloc: Global, told: &Obstruction) -> Result<Vec<u8>, AllocError>
    ensures { IfOk result (λ text. text.items ≡ obstruction_text (told_by told.now)) }
{
    let mut text = Vec::new(alloc);
    match told {
        Obstruction::Open { total } => {
            let line = open_line(alloc, *total)?;
            text.extend_from_slice(line.as_str().as_bytes())?;
        }
        Obstruction::Gap { rise, path } => {
            let line = gap_line(alloc, *rise, path.len().saturating_sub(1))?;
            text.extend_from_slice(line.as_str().as_bytes())?;
            write_corners(alloc, path.as_slice(), &mut text)?;
        }
    }
    Ok(text)
}
