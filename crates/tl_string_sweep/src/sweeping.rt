//! Sweeps.

ghost use Rattle.std.specs.Prelude.{◌≡◌, ◌+◌, ◌*◌, ◌≤◌, ℕ, Bool, List, ℤ, length};
ghost use Rattle.tl_definitions.specs.Region.{Region};
ghost use Rattle.tl_definitions.specs.Accepted.{Accepted};
ghost use Rattle.tl_layout.specs.Layouts.{IsLayoutOf, size_of};
ghost use Rattle.tl_packing.specs.Packing.{AreSteppedSquares, AreSteppedTriangles, HasCoins};
ghost use Rattle.tl_packed.specs.OfClasses.{AreOfLayout};
ghost use Rattle.tl_packed.specs.Packs.{HoldEnds};
ghost use Rattle.tl_coupling.specs.Carried.{swept};
ghost use Rattle.tl_string_sweep.specs.Slots.{AreSlots};
ghost use Rattle.tl_string_sweep.specs.Sweeps.{AreInside, AreSweptBoth};

use crate::slots::Slots;
use tl_lattice::Kind;
use tl_layout::Layout;
use tl_packed::Strings;
use tl_strings::{Planes, step_squares, step_triangles};

/// Sweeps both ends of a pair of tilings with the same coins: class 0 first, then class 1, and on the triangular lattice
/// class 2.
pub fn sweep_both(layout: &Layout, slots: &Slots, coins: &[u64], both: &mut Strings)
    requires height { 1 ≤ layout.now.height }
    requires size { AreOfLayout layout.now both.old }
    requires lows { AreOfLayout layout.now slots.now.lows }
    requires free { AreOfLayout layout.now slots.now.free }
    requires coins { length coins.now ≡ size_of layout.now }
    ensures size { AreOfLayout layout.now both.new }
    ensures swept { (R : Region) (bits : ℕ → Bool) (low high : List ℤ) → Accepted R → IsLayoutOf R layout.now
        → AreSlots R layout.now slots.now → HasCoins R layout.now.height layout.now.first bits coins.now
        → HoldEnds R layout.now both.old low high
        → HoldEnds R layout.now both.new (swept R bits low) (swept R bits high) }
{
    // Smaller strings have no inner corner.
    if coins.len() >= 2 * layout.height + 5 {
        match layout.kind {
            Kind::Square => sweep_squares(layout, slots, coins, both),
            Kind::Triangle => sweep_triangles(layout, slots, coins, both),
        }
    }
}

fn sweep_squares(layout: &Layout, slots: &Slots, coins: &[u64], both: &mut Strings)
    requires kind { layout.now.kind ≡ Kind.Square }
    requires height { 1 ≤ layout.now.height }
    requires size { AreOfLayout layout.now both.old }
    requires lows { AreOfLayout layout.now slots.now.lows }
    requires free { AreOfLayout layout.now slots.now.free }
    requires coins { length coins.now ≡ size_of layout.now }
    requires room { 2 * layout.now.height + 5 ≤ size_of layout.now }
    ensures size { AreOfLayout layout.now both.new }
    ensures swept { AreSweptBoth layout.now slots.now coins.now both.old both.new }
{
    let height = layout.height;
    let (first, second) = (&mut both.first, &mut both.second);
    square_class(first, second, slots.first(coins), height, false);
    square_class(second, first, slots.second(coins), height, true);
}

fn sweep_triangles(layout: &Layout, slots: &Slots, coins: &[u64], both: &mut Strings)
    requires kind { layout.now.kind ≡ Kind.Triangle }
    requires height { 1 ≤ layout.now.height }
    requires size { AreOfLayout layout.now both.old }
    requires lows { AreOfLayout layout.now slots.now.lows }
    requires free { AreOfLayout layout.now slots.now.free }
    requires coins { length coins.now ≡ size_of layout.now }
    requires room { 2 * layout.now.height + 5 ≤ size_of layout.now }
    ensures size { AreOfLayout layout.now both.new }
    ensures swept { AreSweptBoth layout.now slots.now coins.now both.old both.new }
{
    let height = layout.height;
    let (first, second, third) = (&mut both.first, &mut both.second, &mut both.third);
    triangle_class(first, second, third, slots.first(coins), height, 0);
    triangle_class(second, third, first, slots.second(coins), height, 1);
    triangle_class(third, first, second, slots.third(coins), height, 2);
}

// Steps at all free slots of a class, by the strings of the other one.
fn square_class(
    strings: &mut [u64],
    others: &[u64],
    planes: Planes<'_>,
    height: usize,
    is_odd: bool,
)
    requires others { length others.now ≡ length strings.old }
    requires coins { length planes.coins.now ≡ length strings.old }
    requires lows { length planes.lows.now ≡ length strings.old }
    requires free { length planes.free.now ≡ length strings.old }
    requires height { 1 ≤ height }
    requires room { 2 * height + 5 ≤ length strings.old }
    ensures len { length strings.new ≡ length strings.old }
    ensures stepped { AreInside height planes.entry.free.now
        → AreSteppedSquares height others.now planes.entry.coins.now planes.entry.lows.now planes.entry.free.now is_odd strings.old strings.new }
{
    let first = height + 2;
    let end = strings.len() - (height + 3);
    step_squares(strings, others, planes, height, first, end, is_odd);
}

// Steps at all free slots of a class, by the strings of the class after it and of the class after that.
fn triangle_class(
    strings: &mut [u64],
    from: &[u64],
    to: &[u64],
    planes: Planes<'_>,
    height: usize,
    class: u8,
)
    requires from { length from.now ≡ length strings.old }
    requires to { length to.now ≡ length strings.old }
    requires coins { length planes.coins.now ≡ length strings.old }
    requires lows { length planes.lows.now ≡ length strings.old }
    requires free { length planes.free.now ≡ length strings.old }
    requires height { 1 ≤ height }
    requires room { 2 * height + 5 ≤ length strings.old }
    ensures len { length strings.new ≡ length strings.old }
    ensures stepped { AreInside height planes.entry.free.now
        → AreSteppedTriangles height class from.now to.now planes.entry.coins.now planes.entry.lows.now planes.entry.free.now strings.old strings.new }
{
    let first = height + 2;
    let end = strings.len() - (height + 3);
    step_triangles(strings, from, to, planes, height, first, end, class);
}
