//! What is noted of a sample.

ghost use Rattle.std.specs.Prelude.{◌≡◌, IfOk};
ghost use Rattle.tl_height.specs.HeightFunction.{HeightFunction};
ghost use Rattle.tl_outcomes.specs.Noted.{HasRoom, is_rank};
ghost use Rattle.tl_outcomes.specs.Notes.{IsNoteOf};

use std::alloc::{AllocError, Global};
use tl_flip::distance;
use tl_height::Heights;
use tl_region::Region;

/// What is noted of a sample that isn't late.
#[derive(Drop)]
pub enum Noted {
    /// The letters of its drawing, and a line end after each row.
    Drawing(Vec<u8>),
    /// How many flips lead to it from the bottom tiling.
    Rank(u64),
}

// Where nothing is noted yet. It takes the memory of a drawing.
pub(crate) fn blank_note(
    alloc: Global,
    region: &Region,
    is_ranked: bool,
) -> Result<Noted, AllocError>
    ensures is_rank { IfOk result (λ noted. is_rank noted ≡ is_ranked) }
    ensures room { IfOk result (HasRoom region.now) }
{
    if is_ranked {
        return Ok(Noted::Rank(0));
    }
    let size = region.rows() as usize * (region.columns() as usize + 1);
    Ok(Noted::Drawing(vec![in alloc; b'.'; size]?))
}

// Notes what is asked of the sample of these heights.
pub(crate) fn note(bottom: &Heights, sample: &Heights, noted: Noted) -> Noted
    requires region { bottom.now.region ≡ sample.now.region }
    requires room { HasRoom sample.now.region noted }
    ensures note { IsNoteOf bottom.now sample.now result }
    ensures is_rank { is_rank result ≡ is_rank noted }
    ensures room { HasRoom sample.now.region result }
{
    match noted {
        Noted::Drawing(mut letters) => {
            sample.to_letters(&mut letters);
            Noted::Drawing(letters)
        }
        Noted::Rank(_) => Noted::Rank(distance(bottom, sample)),
    }
}
