//! Steps of one class in some rows.

ghost use Rattle.std.specs.Prelude.{◌≡◌, ◌+◌, ◌%◌, ◌<◌, ◌≤◌, ◌==◌, length};
ghost use Rattle.tl_definitions.specs.Lattice.{classes};
ghost use Rattle.tl_layout.specs.Layouts.{size_of};
ghost use Rattle.tl_packing.specs.Packing.{AreSteppedSquaresIn, AreSteppedTrianglesIn};
ghost use Rattle.tl_packed.specs.OfClasses.{AreOfLayout, of_class};
ghost use Rattle.tl_string_sweep.specs.Sweeps.{AreInside};
ghost use Rattle.tl_row_sweep.specs.Rows.{AreKeptBeside, AreOthersKept};

use crate::squares::sweep_squares;
use crate::triangles::sweep_triangles;
use tl_lattice::Kind;
use tl_layout::Layout;
use tl_packed::Strings;
use tl_string_sweep::Slots;

/// Steps of a class at all its free slots in the rows of words from `first` to before `end`. Neither the first row of
/// words nor the last can be among them.
pub fn sweep_rows(
    layout: &Layout,
    slots: &Slots,
    coins: &[u64],
    both: &mut Strings,
    class: u8,
    first: usize,
    end: usize,
)
    requires size { AreOfLayout layout.now both.old }
    requires lows { AreOfLayout layout.now slots.now.lows }
    requires free { AreOfLayout layout.now slots.now.free }
    requires coins { length coins.now ≡ size_of layout.now }
    requires class { class < classes layout.now.kind }
    requires first { 1 ≤ first }
    requires range { first ≤ end }
    requires end { end + 1 ≤ layout.now.height }
    ensures size { AreOfLayout layout.now both.new }
    ensures others { AreOthersKept class both.old both.new }
    ensures outside { AreKeptBeside layout.now.height first end (of_class both.old class) (of_class both.new class) }
    ensures squares { layout.now.kind ≡ Kind.Square → AreInside layout.now.height (of_class slots.now.free class)
        → AreSteppedSquaresIn layout.now.height first end (of_class both.old ((class + 1) % 2)) coins.now
        (of_class slots.now.lows class) (of_class slots.now.free class) (class == 1)
        (of_class both.old class) (of_class both.new class) }
    ensures triangles { layout.now.kind ≡ Kind.Triangle → AreInside layout.now.height (of_class slots.now.free class)
        → AreSteppedTrianglesIn layout.now.height first end class
        (of_class both.old ((class + 1) % 3)) (of_class both.old ((class + 2) % 3)) coins.now
        (of_class slots.now.lows class) (of_class slots.now.free class)
        (of_class both.old class) (of_class both.new class) }
{
    match layout.kind {
        Kind::Square => sweep_squares(layout, slots, coins, both, class, first, end),
        Kind::Triangle => sweep_triangles(layout, slots, coins, both, class, first, end),
    }
}
