//! The coins of one time in the slots of a string.

ghost use Rattle.std.specs.Prelude.{◌≡◌, ◌≤◌, ◌^◌, IfOk, length};
ghost use Rattle.tl_definitions.specs.Region.{Region as RegionShape, inner_corners};
ghost use Rattle.tl_bits.specs.Bits.{bit_at, words_for};
ghost use Rattle.tl_layout.specs.declared.layout.Layout.{Layout as LayoutShape};
ghost use Rattle.tl_layout.specs.Coins.{ArePiecesOf};
ghost use Rattle.tl_layout.specs.Layouts.{IsLayoutOf, size_of};
ghost use Rattle.tl_packing.specs.Packing.{HasCoins};

use std::alloc::{AllocError, Global};
use tl_bits::Bits;
use tl_kept::Kept;
use tl_layout::{Layout, Pieces};
use tl_region::Region;

/// The random bits of a sample, and those of one time laid out as coins.
#[derive(Drop)]
pub struct Coins<B: Bits> {
    pub(crate) kept: Kept<B>,
    pub(crate) pieces: Pieces,
    pub(crate) words: Vec<u64>,
    // the time whose coins are laid out, and 0 before the first
    pub(crate) laid: u64,
    ghost one_count: { pieces.words ≡ B.words kept.bits },
    ghost size: { length words.items ≡ pieces.size },
    ghost laid_out: { (R : RegionShape) (l : LayoutShape) → ArePiecesOf R l pieces → 1 ≤ laid
        → HasCoins R l.height l.first (bit_at (B.word_at kept.bits) laid) words.items },
}

impl<B: Bits> Coins<B> {
    /// Room for the coins of a region, with these bits.
    ///
    /// # Errors
    /// Want of memory.
    pub fn new(
        alloc: Global,
        region: &Region,
        layout: &Layout,
        bits: B,
        words: u32,
    ) -> Result<Coins<B>, AllocError>
        requires layout { IsLayoutOf region.now layout.now }
        requires count { words ≡ B.words bits }
        requires few { words ≤ 2 ^ 15 }
        requires words { B.words bits ≡ words_for (length (inner_corners region.now)) }
        ensures pieces { IfOk result (λ coins. ArePiecesOf region.now layout.now coins.pieces) }
        ensures bits { IfOk result (λ coins. coins.kept.bits ≡ bits) }
    {
        let pieces = Pieces::of(alloc, region, layout)?;
        Ok(Coins {
            kept: Kept::new(alloc, bits, words)?,
            words: vec![in alloc; 0u64; layout.size()]?,
            pieces,
            laid: 0,
        })
    }

    /// Sets other bits.
    pub fn set_bits(&mut self, bits: B)
        requires { B.words bits ≡ B.words self.old.kept.bits }
        ensures bits { self.new.kept.bits ≡ bits }
        ensures pieces { self.new.pieces ≡ self.old.pieces }
    {
        self.kept.set_bits(bits);
        self.laid = 0;
    }

    /// Keeps the words of the times from -1 to this one, as far as there is room.
    pub fn keep(&mut self, last: u64)
        requires { last ≤ 2 ^ 30 }
        ensures words { B.words self.new.kept.bits ≡ B.words self.old.kept.bits }
        ensures function { B.word_at self.new.kept.bits ≡ B.word_at self.old.kept.bits }
        ensures pieces { self.new.pieces ≡ self.old.pieces }
    {
        self.kept.keep(last);
    }

    /// Lays out the coins of the time `-time`, where they aren't there yet.
    pub(crate) fn lay_out(&mut self, time: u64)
        requires first_time { 1 ≤ time }
        requires last_time { time ≤ 2 ^ 30 }
        ensures laid { self.new.laid ≡ time }
        ensures words { B.words self.new.kept.bits ≡ B.words self.old.kept.bits }
        ensures function { B.word_at self.new.kept.bits ≡ B.word_at self.old.kept.bits }
        ensures pieces { self.new.pieces ≡ self.old.pieces }
    {
        if self.laid != time {
            self.kept.lay_out(&self.pieces, time, &mut self.words);
            self.laid = time;
        }
    }
}
