//! Packed tilings.

ghost use Rattle.std.specs.Prelude.{◌≡◌, ◌↔◌, IfOk, IsTrue};
ghost use Rattle.tl_definitions.specs.Accepted.{Accepted};
ghost use Rattle.tl_definitions.specs.Heights.{AreLawful};
ghost use Rattle.tl_layout.specs.Layouts.{IsLayoutOf};
ghost use Rattle.tl_packed.specs.OfClasses.{AreLows, AreOfLayout};
ghost use Rattle.tl_packed.specs.Packs.{IsPacked, Packs};
ghost use Rattle.tl_packed.specs.OneTiling.{IsPacked-prop};

use crate::masked::classes_agree_under;
use crate::strings::Strings;
use std::alloc::{AllocError, Global};
use std::marker::Model;
use tl_height::Heights;
use tl_lattice::Kind;
use tl_layout::Layout;
use tl_pack::{pack, unpack};
use tl_region::Region;

/// A tiling of a region: one mark for each corner, in the strings of a layout of the region.
#[derive(Drop)]
pub struct Packed<'a> {
    region: &'a Region,
    layout: Layout,
    pub(crate) strings: Strings,
    ghost packs: { IsPacked region.now layout strings } by { IsPacked-prop region.now layout strings },
}

impl<'a> Model for Packed<'a> {
    ghost use Rattle.tl_packed.specs.PackedTiling.{PackedTiling};
    ghost use Rattle.tl_packed.specs.Packs.{IsFramed};

    ghost Value = { PackedTiling };

    ghost view = { λ s. record { layout = s.layout; heights = record { region = s.region.now; numbers = s.packs.0 } } };

    ghost invariant = { λ s. IsFramed s.region.now s.layout };
}

// Overwrites the strings by the marks of heights.
fn pack_classes(heights: &Heights, layout: &Layout, strings: &mut Strings)
    requires layout { IsLayoutOf heights.now.region layout.now }
    requires size { AreOfLayout layout.now strings.old }
    ensures { Packs heights.now.region layout.now strings.new heights.now.numbers }
{
    // the call tells that the region is accepted and the heights are lawful
    let _region = heights.region();
    pack(heights, layout, 0, &mut strings.first);
    pack(heights, layout, 1, &mut strings.second);
    match layout.kind {
        Kind::Square => {}
        Kind::Triangle => pack(heights, layout, 2, &mut strings.third),
    }
}

impl<'a> Packed<'a> {
    /// The tiling with these heights.
    ///
    /// # Errors
    /// Want of memory.
    pub fn of(
        alloc: Global,
        heights: &Heights<'a>,
        layout: Layout,
    ) -> Result<Packed<'a>, AllocError>
        requires layout { IsLayoutOf heights.now.region layout }
        ensures { IfOk result (λ packed. packed ≡ record { layout = layout; heights = heights.now }) }
    {
        let mut strings = Strings::new(alloc, &layout)?;
        pack_classes(heights, &layout, &mut strings);
        Ok(Packed {
            region: heights.region(),
            layout,
            strings,
        })
    }

    /// The layout.
    pub fn layout(&self) -> Layout
        ensures layout { result ≡ self.now.layout }
        ensures of_region { IsLayoutOf self.now.heights.region self.now.layout }
        ensures accepted { Accepted self.now.heights.region }
        ensures lawful { AreLawful self.now.heights.region self.now.heights.numbers }
    {
        self.layout
    }

    /// A copy.
    ///
    /// # Errors
    /// Want of memory.
    pub fn copy(&self, alloc: Global) -> Result<Packed<'a>, AllocError>
        ensures { IfOk result (λ packed. packed ≡ self.now) }
    {
        let strings = self.strings.copy(alloc)?;
        Ok(Packed {
            region: self.region,
            layout: self.layout,
            strings,
        })
    }

    /// Takes over another tiling of the same region, in strings of the same layout.
    pub fn copy_from(&mut self, other: &Packed)
        requires layout { other.now.layout ≡ self.old.layout }
        requires region { other.now.heights.region ≡ self.old.heights.region }
        ensures { self.new ≡ other.now }
    {
        self.strings.copy_from(&self.layout, &other.strings);
    }

    /// Whether both are the same tiling. `lows` are the slots of the inner corners.
    pub fn is_same(&self, other: &Packed, lows: &Strings) -> bool
        requires layout { other.now.layout ≡ self.now.layout }
        requires region { other.now.heights.region ≡ self.now.heights.region }
        requires lows { AreLows self.now.heights.region self.now.layout lows.now }
        ensures { IsTrue result ↔ (self.now ≡ other.now) }
    {
        classes_agree_under(lows, &self.strings, &other.strings, self.layout.height())
    }

    /// Overwrites heights by those of the tiling. `spare` is room for their numbers, and holds those of some tiling.
    pub fn unpack(&self, heights: &mut Heights<'a>, spare: &mut Vec<i32>)
        requires region { heights.old.region ≡ self.now.heights.region }
        requires spare { AreLawful self.now.heights.region spare.old.items }
        ensures heights { heights.new ≡ self.now.heights }
        ensures spare { AreLawful self.now.heights.region spare.new.items }
    {
        // the call tells that the heights are lawful
        let _region = heights.region();
        unpack(
            self.region,
            &self.layout,
            &self.strings.first,
            &self.strings.second,
            &self.strings.third,
            0,
            spare,
        );
        heights.put(0, spare);
    }
}
