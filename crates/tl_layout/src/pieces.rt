//! The pieces of the inner corners of a region, and how their bits come to the slots.

ghost use Rattle.std.specs.Prelude.{◌≡◌, ◌+◌, ◌*◌, ◌^◌, ◌<◌, length, All, IfOk, IsTrue, bit_or};
ghost use Rattle.tl_definitions.specs.Region.{Region as RegionShape};
ghost use Rattle.tl_layout.specs.declared.layout.Layout.{Layout as LayoutShape};
ghost use Rattle.tl_layout.specs.Layouts.{IsLayoutOf, StandsBy};
ghost use Rattle.tl_layout.specs.Coins.{AreLaidOut, ArePiecesAt, ArePiecesOf};

use crate::cutting::put;
use crate::layout::Layout;
use crate::piece::{Piece, Pieces};
use crate::spots::Spot;
use std::alloc::{AllocError, Global};
use tl_region::Region;

impl Piece {
    // The piece of one bit, for the inner corner of this number.
    fn of_one(number: usize, spot: Spot) -> Piece
        requires { number < 2 ^ 63 }
        ensures place { result.place ≡ spot.word }
        ensures source { 32 * result.from + result.shift + spot.bit ≡ number + 128 }
        ensures mask { result.mask ≡ 2 ^ spot.bit }
    {
        let start = number + 128 - spot.bit as usize;
        Piece {
            place: spot.word,
            from: start / 32,
            shift: (start % 32) as u32,
            mask: 1 << spot.bit,
        }
    }

    // Whether the bits of two pieces go to one word and are as far from each other there.
    fn joins(&self, other: &Piece) -> bool
        ensures { IsTrue result → (other.now.place ≡ self.now.place) × (other.now.from ≡ self.now.from)
            × (other.now.shift ≡ self.now.shift) }
    {
        self.place == other.place && self.from == other.from && self.shift == other.shift
    }

    // The piece with more bits in its mask.
    fn with(&self, mask: u64) -> Piece
        ensures place { result.place ≡ self.now.place }
        ensures from { result.from ≡ self.now.from }
        ensures shift { result.shift ≡ self.now.shift }
        ensures mask { result.mask ≡ bit_or self.now.mask mask }
    {
        Piece {
            place: self.place,
            from: self.from,
            shift: self.shift,
            mask: self.mask | mask,
        }
    }
}

// The pieces of the corners at these places, which are numbered in this order.
fn pieces_at(alloc: Global, layout: &Layout, places: &[u32]) -> Result<Vec<Piece>, AllocError>
    requires { All (StandsBy layout.now) places.now }
    ensures { IfOk result (λ pieces. ArePiecesAt layout.now places.now pieces.items) }
{
    let mut pieces = Vec::new(alloc);
    if places.is_empty() {
        return Ok(pieces);
    }
    // The first corner comes once more in the loop, which changes nothing.
    let mut current = Piece::of_one(0, layout.spot(places[0]));
    for (number, place) in places.iter().enumerate() {
        let next = Piece::of_one(number, layout.spot(*place));
        if current.joins(&next) {
            current = current.with(next.mask);
        } else {
            pieces.push(current)?;
            current = next;
        }
    }
    pieces.push(current)?;
    Ok(pieces)
}

impl Pieces {
    /// The pieces of the inner corners of a region.
    pub fn of(alloc: Global, region: &Region, layout: &Layout) -> Result<Pieces, AllocError>
        requires { IsLayoutOf region.now layout.now }
        ensures { IfOk result (λ pieces. ArePiecesOf region.now layout.now pieces) }
    {
        let places = region.inner_places();
        Ok(Pieces {
            pieces: pieces_at(alloc, layout, places)?,
            words: places.len().div_ceil(32),
            size: layout.size(),
        })
    }

    /// Puts the bit of each inner corner into its slot. The words of the time stand behind four others, and four more
    /// stand behind them. What comes into other slots is not told.
    pub fn lay_out(&self, raw: &[u32], words: &mut [u64])
        requires raw { length raw.now ≡ self.now.words + 8 }
        requires words { length words.old ≡ self.now.size }
        ensures { (R : RegionShape) (l : LayoutShape) → ArePiecesOf R l self.now → AreLaidOut R l raw.now words.new }
    {
        put(self.pieces.as_slice(), raw, words);
    }
}
