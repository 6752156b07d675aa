//! Hands for a cut of a region's rows.

ghost use Rattle.std.specs.Prelude.{◌≡◌, ◌+◌, ◌<◌, ◌≤◌, ◌^◌, All, IfOk, length, map};
ghost use Rattle.std.specs.List.{flat_map};
ghost use Rattle.tl_definitions.specs.Region.{inner_corners};
ghost use Rattle.tl_bits.specs.Bits.{bit_at, words_for};
ghost use Rattle.tl_layout.specs.Layouts.{IsLayoutOf};
ghost use Rattle.tl_bands.specs.Cuts.{IsCut};
ghost use Rattle.tl_crew.specs.Bands.{AreSharesIn, IsShareIn};
ghost use Rattle.tl_crew.specs.Cuts.{AreBandsOf, IsBandOf, bands_by_hand, first_row};
ghost use Rattle.tl_crew.specs.Hands.{AreCoinsOf};

use crate::apart::Hand;
use crate::share::Share;
use std::alloc::{AllocError, Global};
use tl_band::{Band, Coins};
use tl_bands::Cut;
use tl_bits::Bits;
use tl_layout::Layout;
use tl_region::Region;

// The row of words with which band `j` begins, and for the number of bands the row behind the last one.
fn row_at(layout: &Layout, cut: &Cut, j: u32) -> usize
    requires rows { layout.now.height ≡ cut.now.rows + 3 }
    requires band { j ≤ length cut.now.firsts }
    ensures row { result ≡ first_row cut.now j }
    ensures is_cut { IsCut cut.now.rows cut.now.firsts }
{
    if j < cut.count() {
        cut.first(j) as usize + 1
    } else {
        layout.height - 2
    }
}

// Room for band `j`.
fn band_of(alloc: Global, layout: &Layout, cut: &Cut, j: u32) -> Result<Band, AllocError>
    requires rows { layout.now.height ≡ cut.now.rows + 3 }
    requires band { j < length cut.now.firsts }
    ensures { IfOk result (IsBandOf layout.now cut.now j) }
{
    let first = row_at(layout, cut, j);
    let end = row_at(layout, cut, j + 1);
    Band::new(alloc, layout, first, end)
}

// Room for the bands from `from` to before `to`.
fn bands_of(
    alloc: Global,
    layout: &Layout,
    cut: &Cut,
    from: u32,
    to: u32,
) -> Result<Vec<Band>, AllocError>
    requires rows { layout.now.height ≡ cut.now.rows + 3 }
    requires some { from < to }
    requires within { to ≤ length cut.now.firsts }
    ensures count { IfOk result (λ bands. from + length bands.items ≡ to) }
    ensures bands { IfOk result (λ bands. AreBandsOf layout.now cut.now from bands.items) }
{
    let mut bands = Vec::new(alloc);
    for j in from..to {
        bands.push(band_of(alloc, layout, cut, j)?)?;
    }
    Ok(bands)
}

// The rows of the bands from `from` to before `to`, with room for these bands.
fn share_of(
    alloc: Global,
    layout: &Layout,
    cut: &Cut,
    from: u32,
    to: u32,
) -> Result<Share, AllocError>
    requires rows { layout.now.height ≡ cut.now.rows + 3 }
    requires some { from < to }
    requires within { to ≤ length cut.now.firsts }
    ensures share { IfOk result (IsShareIn layout.now) }
    ensures first { IfOk result (λ share. share.first ≡ first_row cut.now from) }
    ensures end { IfOk result (λ share. share.end ≡ first_row cut.now to) }
    ensures count { IfOk result (λ share. from + length share.bands.items ≡ to) }
    ensures bands { IfOk result (λ share. AreBandsOf layout.now cut.now from share.bands.items) }
    ensures is_cut { IsCut cut.now.rows cut.now.firsts }
{
    let first = row_at(layout, cut, from);
    let end = row_at(layout, cut, to);
    Ok(Share {
        first,
        end,
        bands: bands_of(alloc, layout, cut, from, to)?,
    })
}

// A hand that sweeps the bands from `from` to before `to`, by these bits.
fn hand_of<B: Bits + Drop>(
    alloc: Global,
    region: &Region,
    layout: &Layout,
    cut: &Cut,
    from: u32,
    to: u32,
    bits: B,
    words: u32,
) -> Result<Hand<B>, AllocError>
    requires layout { IsLayoutOf region.now layout.now }
    requires rows { layout.now.height ≡ cut.now.rows + 3 }
    requires some { from < to }
    requires within { to ≤ length cut.now.firsts }
    requires few { words ≤ 2 ^ 15 }
    requires enough { words ≡ words_for (length (inner_corners region.now)) }
    requires of_bits { B.words bits ≡ words }
    ensures share { IfOk result (λ hand. IsShareIn layout.now hand.share) }
    ensures first { IfOk result (λ hand. hand.share.first ≡ first_row cut.now from) }
    ensures end { IfOk result (λ hand. hand.share.end ≡ first_row cut.now to) }
    ensures count { IfOk result (λ hand. from + length hand.share.bands.items ≡ to) }
    ensures bands { IfOk result (λ hand. AreBandsOf layout.now cut.now from hand.share.bands.items) }
    ensures coins { IfOk result (λ hand. AreCoinsOf region.now layout.now (bit_at (B.word_at bits))
        hand.coins.pieces (B.words hand.coins.kept.bits) (B.word_at hand.coins.kept.bits)) }
    ensures is_cut { IsCut cut.now.rows cut.now.firsts }
{
    let share = share_of(alloc, layout, cut, from, to)?;
    let coins = Coins::new(alloc, region, layout, bits, words)?;
    Ok(Hand { coins, share })
}

/// The hands that sweep a region whose corner rows are cut so: the first has the first half of the bands, rounded up, and
/// the second, where there is more than one band, has the rest.
///
/// # Errors
/// Want of memory.
pub fn hands_of<B: Bits + Drop>(
    alloc: Global,
    region: &Region,
    layout: &Layout,
    cut: &Cut,
    first: B,
    second: B,
    words: u32,
) -> Result<Vec<Hand<B>>, AllocError>
    requires layout { IsLayoutOf region.now layout.now }
    requires rows { cut.now.rows ≡ region.now.rows + 1 }
    requires few { words ≤ 2 ^ 15 }
    requires enough { words ≡ words_for (length (inner_corners region.now)) }
    requires of_first { B.words first ≡ words }
    requires of_second { B.words second ≡ words }
    requires same { B.word_at second ≡ B.word_at first }
    ensures shares { IfOk result (λ hands. AreSharesIn (λ hand. hand.share) layout.now hands.items) }
    ensures coins { IfOk result (λ hands. All (λ hand. AreCoinsOf region.now layout.now (bit_at (B.word_at first))
        hand.coins.pieces (B.words hand.coins.kept.bits) (B.word_at hand.coins.kept.bits)) hands.items) }
    ensures count { IfOk result (λ hands. length hands.items ≤ 2) }
    ensures bands { IfOk result (λ hands. AreBandsOf layout.now cut.now 0 (flat_map (λ hand. hand.share.bands.items) hands.items)) }
    ensures halves { IfOk result (λ hands. map (λ hand. length hand.share.bands.items) hands.items ≡ bands_by_hand (length cut.now.firsts)) }
{
    let bands = cut.count();
    let half = bands - bands / 2;
    let upper = hand_of(alloc, region, layout, cut, 0, half, first, words)?;
    let mut hands = Vec::new(alloc);
    hands.push(upper)?;
    if half < bands {
        let lower = hand_of(alloc, region, layout, cut, half, bands, second, words)?;
        hands.push(lower)?;
    }
    Ok(hands)
}
