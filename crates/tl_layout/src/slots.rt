//! Planes of slots: which slots are those of inner corners.

ghost use Rattle.std.specs.Prelude.{◌≡◌, ℕ, ◌*◌, ◌<◌, ◌==◌, length, All, IfOk, slice_index};
ghost use Rattle.std.specs.Int.{bit_at};
ghost use Rattle.std.specs.List.{list_any};
ghost use Rattle.tl_layout.specs.Layouts.{IsLayoutOf, size_of, StandsBy};
ghost use Rattle.tl_layout.specs.Slots.{AreFree, AreSlotsOf, is_at_bit};

use crate::layout::Layout;
use std::alloc::{AllocError, Global};
use tl_region::Region;

// Words with the bits of the corners of a class at these places, all others 0.
fn marked(alloc: Global, layout: &Layout, places: &[u32], class: u8) -> Result<Vec<u64>, AllocError>
    requires { All (StandsBy layout.now) places.now }
    ensures size { IfOk result (λ words. length words.items ≡ size_of layout.now) }
    ensures bits { IfOk result (λ words. (word x : ℕ) → x < 64
        → (bit_at (slice_index words.items word) x == 1) ≡ list_any (is_at_bit layout.now class word x) places.now) }
{
    let mut words = vec![in alloc; 0u64; layout.size()]?;
    for place in places {
        if layout.class_at(*place) == class {
            let spot = layout.spot(*place);
            words[spot.word] |= 1 << spot.bit;
        }
    }
    Ok(words)
}

/// The plane of a class: the slots of its inner corners.
pub fn mark_slots(
    alloc: Global,
    region: &Region,
    layout: &Layout,
    class: u8,
) -> Result<Vec<u64>, AllocError>
    requires { IsLayoutOf region.now layout.now }
    ensures { IfOk result (λ words. AreSlotsOf region.now layout.now class words.items) }
{
    marked(alloc, layout, region.inner_places(), class)
}

/// The slots of a plane, and of each the slot after it.
pub fn free_slots(alloc: Global, lows: &[u64], height: usize) -> Result<Vec<u64>, AllocError>
    ensures { IfOk result (λ words. AreFree height lows.now words.items) }
{
    let mut words = Vec::with_capacity(alloc, lows.len())?;
    for (place, low) in lows.iter().enumerate() {
        let before = if place < height {
            0
        } else {
            lows[place - height] >> 63
        };
        words.push(*low | (*low << 1) | before)?;
    }
    Ok(words)
}
