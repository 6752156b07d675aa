//! Steps of one class of the square lattice in some rows.

ghost use Rattle.std.specs.Prelude.{◌≡◌, ◌+◌, ◌%◌, ◌<◌, ◌≤◌, ◌==◌, length};
ghost use Rattle.tl_layout.specs.Layouts.{size_of};
ghost use Rattle.tl_packing.specs.Packing.{AreSteppedSquaresIn};
ghost use Rattle.tl_packed.specs.OfClasses.{AreOfLayout, of_class};
ghost use Rattle.tl_string_sweep.specs.Sweeps.{AreInside};
ghost use Rattle.tl_row_sweep.specs.Rows.{AreKeptBeside, AreOthersKept};

use tl_lattice::Kind;
use tl_layout::Layout;
use tl_packed::Strings;
use tl_string_sweep::Slots;
use tl_strings::{Planes, step_squares};

// Steps of a class at all its free slots in these rows.
pub(crate) fn sweep_squares(
    layout: &Layout,
    slots: &Slots,
    coins: &[u64],
    both: &mut Strings,
    class: u8,
    first: usize,
    end: usize,
)
    requires kind { layout.now.kind ≡ Kind.Square }
    requires size { AreOfLayout layout.now both.old }
    requires lows { AreOfLayout layout.now slots.now.lows }
    requires free { AreOfLayout layout.now slots.now.free }
    requires coins { length coins.now ≡ size_of layout.now }
    requires class { class < 2 }
    requires first { 1 ≤ first }
    requires range { first ≤ end }
    requires end { end + 1 ≤ layout.now.height }
    ensures size { AreOfLayout layout.now both.new }
    ensures others { AreOthersKept class both.old both.new }
    ensures outside { AreKeptBeside layout.now.height first end (of_class both.old class) (of_class both.new class) }
    ensures stepped { AreInside layout.now.height (of_class slots.now.free class)
        → AreSteppedSquaresIn layout.now.height first end (of_class both.old ((class + 1) % 2)) coins.now
        (of_class slots.now.lows class) (of_class slots.now.free class) (class == 1)
        (of_class both.old class) (of_class both.new class) }
{
    let (one, other) = (&mut both.first, &mut both.second);
    match class {
        0 => square_rows(layout, one, other, slots.first(coins), first, end, false),
        _ => square_rows(layout, other, one, slots.second(coins), first, end, true),
    }
}

// Steps at the free slots of these rows of a class, by the strings of the other one.
fn square_rows(
    layout: &Layout,
    strings: &mut [u64],
    others: &[u64],
    planes: Planes<'_>,
    first: usize,
    end: usize,
    is_odd: bool,
)
    requires size { length strings.old ≡ size_of layout.now }
    requires others { length others.now ≡ size_of layout.now }
    requires coins { length planes.coins.now ≡ size_of layout.now }
    requires lows { length planes.lows.now ≡ size_of layout.now }
    requires free { length planes.free.now ≡ size_of layout.now }
    requires first { 1 ≤ first }
    requires range { first ≤ end }
    requires end { end + 1 ≤ layout.now.height }
    ensures len { length strings.new ≡ length strings.old }
    ensures outside { AreKeptBeside layout.now.height first end strings.old strings.new }
    ensures stepped { AreInside layout.now.height planes.entry.free.now
        → AreSteppedSquaresIn layout.now.height first end others.now planes.entry.coins.now planes.entry.lows.now
        planes.entry.free.now is_odd strings.old strings.new }
{
    let height = layout.height;
    for strip in 1..layout.strips.saturating_sub(1) {
        let start = strip * height;
        step_squares(
            strings,
            others,
            planes,
            height,
            start + first,
            start + end,
            is_odd,
        );
    }
}
