//! Reading a drawing.

ghost use Rattle.std.specs.Prelude.{◌≡◌, ◌≤◌, ◌^◌, ℕ, List, ◌++◌, length, IfOk, OnOk, IfErr, IfSome, None, Some, IsTrue};
ghost use Rattle.tl_formats.specs.Input.{further_section, taken};
ghost use Rattle.tl_definitions.specs.declared.Tile.{Tile};
ghost use Rattle.tl_definitions.specs.Tiling.{is_tiling};
ghost use Rattle.tl_formats.specs.Drawing.{Draws, drawing, drawing_refusal};
ghost use Rattle.tl_tiling.specs.Printed.{BeginsNoLine};
ghost use Rattle.tl_tiling.specs.Refusals.{refusal_by};

use crate::fault::DrawFault;
use crate::letters::read_letters;
use crate::matching::first_unmatched;
use crate::tiling::Tiling;
use std::alloc::Global;
use tl_formats::INPUT_LIMIT;
use tl_lines::skip_empty_lines;
use tl_region::Region;

/// Reads the tiling that the next section draws, and tells the number of bytes taken, the empty lines before
/// the section and the one that closes it included. There are at most `INPUT_LIMIT` bytes.
///
/// A drawing has one line per row. The letter of a cell names its partner: `>` the cell to its right, `<` to
/// its left, `v` below and `^` above. A printed drawing that a line feed or the end of the bytes follows is read
/// as the same tiling.
///
/// # Errors
/// The first cause in the order of `DrawFault`.
pub fn read_drawing<'a>(
    alloc: Global,
    region: &'a Region,
    bytes: &[u8],
) -> Result<(Tiling<'a>, usize), DrawFault>
    requires { length bytes.now ≤ INPUT_LIMIT }
    ensures region { IfOk result (λ p. p.0.region ≡ region.now) }
    ensures drawn { IfOk result (λ p. Draws region.now (further_section bytes.now).lines p.0.tiles) }
    ensures taken { IfOk result (λ p. p.1 ≡ taken bytes.now (further_section bytes.now)) }
    ensures allowed { OnOk result (drawing_refusal region.now (further_section bytes.now).lines ≡ None) }
    ensures refused { IfErr result (λ fault. IfSome (refusal_by fault)
        (λ f. drawing_refusal region.now (further_section bytes.now).lines ≡ Some f)) }
    ensures again { IfOk result (λ p. (A : List Tile) → (rest : List ℕ) → IsTrue (is_tiling region.now A)
        → BeginsNoLine rest → bytes.now ≡ drawing region.now A ++ rest → p.0.tiles ≡ A) }
    ensures printed { IfErr result (λ fault. (A : List Tile) → (rest : List ℕ)
        → IsTrue (is_tiling region.now A) → BeginsNoLine rest → bytes.now ≡ drawing region.now A ++ rest
        → refusal_by fault ≡ None) }
{
    let (letters, rest) = read_letters(alloc, region, skip_empty_lines(bytes))?;
    if let Some(cell) = first_unmatched(region, letters.as_slice()) {
        return Err(DrawFault::Unmatched(cell));
    }
    let taken = bytes.len() - rest.len();
    Ok((Tiling::of(region, letters), taken))
}
