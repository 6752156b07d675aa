//! Steps of one class of the triangular lattice in some rows.

ghost use Rattle.std.specs.Prelude.{◌≡◌, ◌+◌, ◌%◌, ◌<◌, ◌≤◌, length};
ghost use Rattle.tl_layout.specs.Layouts.{size_of};
ghost use Rattle.tl_packing.specs.Packing.{AreSteppedTrianglesIn};
ghost use Rattle.tl_packed.specs.OfClasses.{AreOfLayout, of_class};
ghost use Rattle.tl_string_sweep.specs.Sweeps.{AreInside};
ghost use Rattle.tl_row_sweep.specs.Rows.{AreKeptBeside, AreOthersKept};

use tl_lattice::Kind;
use tl_layout::Layout;
use tl_packed::Strings;
use tl_string_sweep::Slots;
use tl_strings::{Planes, step_triangles};

// Steps of a class at all its free slots in these rows.
pub(crate) fn sweep_triangles(
    layout: &Layout,
    slots: &Slots,
    coins: &[u64],
    both: &mut Strings,
    class: u8,
    first: usize,
    end: usize,
)
    requires kind { layout.now.kind ≡ Kind.Triangle }
    requires size { AreOfLayout layout.now both.old }
    requires lows { AreOfLayout layout.now slots.now.lows }
    requires free { AreOfLayout layout.now slots.now.free }
    requires coins { length coins.now ≡ size_of layout.now }
    requires class { class < 3 }
    requires first { 1 ≤ first }
    requires range { first ≤ end }
    requires end { end + 1 ≤ layout.now.height }
    ensures size { AreOfLayout layout.now both.new }
    ensures others { AreOthersKept class both.old both.new }
    ensures outside { AreKeptBeside layout.now.height first end (of_class both.old class) (of_class both.new class) }
    ensures stepped { AreInside layout.now.height (of_class slots.now.free class)
        → AreSteppedTrianglesIn layout.now.height first end class
        (of_class both.old ((class + 1) % 3)) (of_class both.old ((class + 2) % 3)) coins.now
        (of_class slots.now.lows class) (of_class slots.now.free class)
        (of_class both.old class) (of_class both.new class) }
{
    let (class_0, class_1, class_2) = (&mut both.first, &mut both.second, &mut both.third);
    match class {
        0 => triangle_rows(
            layout,
            class_0,
            class_1,
            class_2,
            slots.first(coins),
            first,
            end,
            0,
        ),
        1 => triangle_rows(
            layout,
            class_1,
            class_2,
            class_0,
            slots.second(coins),
            first,
            end,
            1,
        ),
        _ => triangle_rows(
            layout,
            class_2,
            class_0,
            class_1,
            slots.third(coins),
            first,
            end,
            2,
        ),
    }
}

// Steps at the free slots of these rows of a class, by the strings of the class after it and of the class after that.
fn triangle_rows(
    layout: &Layout,
    strings: &mut [u64],
    from: &[u64],
    to: &[u64],
    planes: Planes<'_>,
    first: usize,
    end: usize,
    class: u8,
)
    requires size { length strings.old ≡ size_of layout.now }
    requires from { length from.now ≡ size_of layout.now }
    requires to { length to.now ≡ size_of layout.now }
    requires coins { length planes.coins.now ≡ size_of layout.now }
    requires lows { length planes.lows.now ≡ size_of layout.now }
    requires free { length planes.free.now ≡ size_of layout.now }
    requires first { 1 ≤ first }
    requires range { first ≤ end }
    requires end { end + 1 ≤ layout.now.height }
    ensures len { length strings.new ≡ length strings.old }
    ensures outside { AreKeptBeside layout.now.height first end strings.old strings.new }
    ensures stepped { AreInside layout.now.height planes.entry.free.now
        → AreSteppedTrianglesIn layout.now.height first end class from.now to.now planes.entry.coins.now
        planes.entry.lows.now planes.entry.free.now strings.old strings.new }
{
    let height = layout.height;
    for strip in 1..layout.strips.saturating_sub(1) {
        let start = strip * height;
        step_triangles(
            strings,
            from,
            to,
            planes,
            height,
            start + first,
            start + end,
            class,
        );
    }
}
