//! The slots that a sweep steps at.

ghost use Rattle.std.specs.Prelude.{◌≡◌, IfOk};
ghost use Rattle.tl_layout.specs.Layouts.{IsLayoutOf};
ghost use Rattle.tl_packed.specs.OfClasses.{AreLows};
ghost use Rattle.tl_string_sweep.specs.Slots.{AreFreeOf};

use std::alloc::{AllocError, Global};
use tl_lattice::Kind;
use tl_layout::{Layout, free_slots, mark_slots};
use tl_packed::Strings;
use tl_region::Region;
use tl_strings::Planes;

/// The slots of the inner corners of each class, and the free slots: these, and of each the slot after it.
#[derive(Drop)]
pub struct Slots {
    pub lows: Strings,
    pub free: Strings,
}

impl Slots {
    ghost use Rattle.tl_string_sweep.specs.Slots.{AreSlots};

    /// The slots of the inner corners of a region.
    ///
    /// # Errors
    /// Want of memory.
    pub fn of(alloc: Global, region: &Region, layout: &Layout) -> Result<Slots, AllocError>
        requires layout { IsLayoutOf region.now layout.now }
        ensures { IfOk result (λ slots. AreSlots region.now layout.now slots) }
    {
        let lows = lows_of(alloc, region, layout)?;
        let free = free_of(alloc, &lows, layout.height)?;
        Ok(Slots { lows, free })
    }

    /// What the steps of class 0 read besides the strings.
    pub fn first<'a>(&'a self, coins: &'a [u64]) -> Planes<'a>
        ensures coins { result.coins.now ≡ coins.now }
        ensures lows { result.lows.now ≡ self.now.lows.first.items }
        ensures free { result.free.now ≡ self.now.free.first.items }
    {
        Planes {
            coins,
            lows: &self.lows.first,
            free: &self.free.first,
        }
    }

    /// The same of class 1.
    pub fn second<'a>(&'a self, coins: &'a [u64]) -> Planes<'a>
        ensures coins { result.coins.now ≡ coins.now }
        ensures lows { result.lows.now ≡ self.now.lows.second.items }
        ensures free { result.free.now ≡ self.now.free.second.items }
    {
        Planes {
            coins,
            lows: &self.lows.second,
            free: &self.free.second,
        }
    }

    /// The same of class 2.
    pub fn third<'a>(&'a self, coins: &'a [u64]) -> Planes<'a>
        ensures coins { result.coins.now ≡ coins.now }
        ensures lows { result.lows.now ≡ self.now.lows.third.items }
        ensures free { result.free.now ≡ self.now.free.third.items }
    {
        Planes {
            coins,
            lows: &self.lows.third,
            free: &self.free.third,
        }
    }
}

fn lows_of(alloc: Global, region: &Region, layout: &Layout) -> Result<Strings, AllocError>
    requires { IsLayoutOf region.now layout.now }
    ensures { IfOk result (λ lows. AreLows region.now layout.now lows) }
{
    let third = match layout.kind {
        Kind::Square => Vec::new(alloc),
        Kind::Triangle => mark_slots(alloc, region, layout, 2)?,
    };
    Ok(Strings {
        first: mark_slots(alloc, region, layout, 0)?,
        second: mark_slots(alloc, region, layout, 1)?,
        third,
    })
}

fn free_of(alloc: Global, lows: &Strings, height: usize) -> Result<Strings, AllocError>
    ensures { IfOk result (λ free. AreFreeOf height lows.now free) }
{
    Ok(Strings {
        first: free_slots(alloc, &lows.first, height)?,
        second: free_slots(alloc, &lows.second, height)?,
        third: free_slots(alloc, &lows.third, height)?,
    })
}
