//! The heights whose marks strings of bits hold.

ghost use Rattle.std.specs.Prelude.{◌≡◌, ◌+◌, ◌%◌, ◌<◌, ◌≤◌, List, ℤ, ◌≤ℤ◌, pos, negsuc};
ghost use Rattle.tl_definitions.specs.declared.TheConstants.{COORDINATE_LIMIT};
ghost use Rattle.tl_definitions.specs.Lattice.{class_of as class_number, classes as class_count};
ghost use Rattle.tl_definitions.specs.Heights.{AreLawful};
ghost use Rattle.tl_marks.specs.Marks.{xor};
ghost use Rattle.tl_layout.specs.Layouts.{IsLayoutOf, size_of, Stands};
ghost use Rattle.tl_pack.specs.Packs.{AreHeld, AreOfSize, leads_left, rise_in, strings_of};

use crate::spots::{bit, slot, string_of};
use tl_lattice::{Corner, Kind, cell_width, class_of, rise};
use tl_layout::Layout;
use tl_region::Region;

// Whether exactly one of the two holds.
fn differ(one: bool, other: bool) -> bool
    ensures { result ≡ xor one other }
{
    if one { !other } else { other }
}

// The class of the left neighbour of a corner of this class.
fn class_to_the_left(kind: Kind, class: u8) -> u8
    requires { class < class_count kind }
    ensures { result ≡ (class + 1) % class_count kind }
{
    match kind {
        Kind::Square => 1 - class,
        Kind::Triangle => (class + 1) % 3,
    }
}

// The height of a corner less that of its left neighbour, by the marks of both.
fn rise_from_left(
    layout: &Layout,
    first: &[u64],
    second: &[u64],
    third: &[u64],
    shift: usize,
    corner: Corner,
) -> i32
    requires row { corner.r ≤ COORDINATE_LIMIT }
    requires place { corner.x ≤ COORDINATE_LIMIT }
    requires stands { Stands layout.now.kind layout.now.first layout.now.height (size_of layout.now) corner }
    requires size { AreOfSize layout.now first.now second.now third.now }
    requires shift { shift ≤ 1 }
    ensures rise { result ≡ rise_in layout.now (strings_of first.now second.now third.now) shift corner }
    ensures low { negsuc 3 ≤ℤ result }
    ensures high { result ≤ℤ pos 3 }
{
    let kind = layout.kind;
    let class = class_of(kind, corner);
    let row = corner.r as usize + 1;
    let slot = slot(layout, corner) + shift;
    let here = bit(
        string_of(class, first, second, third),
        layout.height,
        row,
        slot,
    );
    let beside = string_of(class_to_the_left(kind, class), first, second, third);
    let left = bit(beside, layout.height, row, slot - 1);
    let leads_left = match kind {
        Kind::Square => class == 1,
        Kind::Triangle => false,
    };
    let climb = if differ(differ(here, left), class == 0) {
        1 - rise(kind)
    } else {
        1
    };
    if leads_left { -climb } else { climb }
}

/// Overwrites lawful heights by those whose marks the strings of the classes 0, 1 and 2 hold, each mark so many slots on
/// as `shift` tells. On the square lattice the third string may be empty.
///
/// The numbers lie as `Heights::numbers` gives them. Only those of the inner corners change.
pub fn unpack(
    region: &Region,
    layout: &Layout,
    first: &[u64],
    second: &[u64],
    third: &[u64],
    shift: usize,
    numbers: &mut [i32],
)
    requires layout { IsLayoutOf region.now layout.now }
    requires size { AreOfSize layout.now first.now second.now third.now }
    requires shift { shift ≤ 1 }
    requires lawful { AreLawful region.now numbers.old }
    requires held { (heights : List ℤ) × AreHeld region.now layout.now (strings_of first.now second.now third.now) shift heights }
    ensures { (heights : List ℤ) → AreHeld region.now layout.now (strings_of first.now second.now third.now) shift heights
        → numbers.new ≡ heights }
{
    let width = region.columns() as usize + 2;
    let back = cell_width(region.kind()) as usize;
    // the region's calls tell that it is accepted
    prove!(numbers.len() == (region.rows() as usize + 1) * width);
    // the left neighbour is on the boundary, or an inner corner of a lower number
    for i in 0..region.inner_count() {
        let corner = region.inner(i);
        let place = corner.r as usize * width + corner.x as usize;
        let climb = rise_from_left(layout, first, second, third, shift, corner);
        numbers[place] = numbers[place - back] + climb;
    }
}
