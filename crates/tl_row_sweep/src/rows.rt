//! Rows copied from one set of strings to another.

ghost use Rattle.std.specs.Prelude.{◌≡◌, ◌+◌, ◌<◌, ◌≤◌, ℕ, length};
ghost use Rattle.tl_definitions.specs.Lattice.{classes};
ghost use Rattle.tl_layout.specs.Layouts.{size_of};
ghost use Rattle.tl_packed.specs.OfClasses.{AreOfLayout, of_class};
ghost use Rattle.tl_row_sweep.specs.Rows.{AreKeptBeside, AreOthersKept, AreTaken};

use tl_lattice::Kind;
use tl_layout::Layout;
use tl_packed::Strings;

/// Overwrites the words of one row of a class by those of other strings.
pub fn copy_row(layout: &Layout, from: &Strings, to: &mut Strings, class: u8, row: usize)
    requires from { AreOfLayout layout.now from.now }
    requires to { AreOfLayout layout.now to.old }
    requires class { class < classes layout.now.kind }
    requires row { row < layout.now.height }
    ensures size { AreOfLayout layout.now to.new }
    ensures others { AreOthersKept class to.old to.new }
    ensures outside { AreKeptBeside layout.now.height row (row + 1) (of_class to.old class) (of_class to.new class) }
    ensures taken { AreTaken layout.now.height row (row + 1) (of_class from.now class) (of_class to.new class) }
{
    match class {
        0 => copy_words(layout, &from.first, &mut to.first, row),
        1 => copy_words(layout, &from.second, &mut to.second, row),
        _ => copy_words(layout, &from.third, &mut to.third, row),
    }
}

// Copies the words of one row, one of each strip.
fn copy_words(layout: &Layout, from: &[u64], to: &mut [u64], row: usize)
    requires from { length from.now ≡ size_of layout.now }
    requires to { length to.old ≡ size_of layout.now }
    requires row { row < layout.now.height }
    ensures len { length to.new ≡ length to.old }
    ensures outside { AreKeptBeside layout.now.height row (row + 1) to.old to.new }
    ensures taken { AreTaken layout.now.height row (row + 1) from.now to.new }
{
    for strip in 0..layout.strips {
        let at = strip * layout.height + row;
        to[at] = from[at];
    }
}

/// Overwrites the words of the rows from `first` to before `end`, of all classes, by those of other strings.
pub fn copy_rows(layout: &Layout, from: &Strings, to: &mut Strings, first: usize, end: usize)
    requires from { AreOfLayout layout.now from.now }
    requires to { AreOfLayout layout.now to.old }
    requires range { first ≤ end }
    requires end { end ≤ layout.now.height }
    ensures size { AreOfLayout layout.now to.new }
    ensures outside { (class : ℕ) → class < classes layout.now.kind
        → AreKeptBeside layout.now.height first end (of_class to.old class) (of_class to.new class) }
    ensures taken { (class : ℕ) → class < classes layout.now.kind
        → AreTaken layout.now.height first end (of_class from.now class) (of_class to.new class) }
{
    copy_strips(layout, &from.first, &mut to.first, first, end);
    copy_strips(layout, &from.second, &mut to.second, first, end);
    match layout.kind {
        Kind::Square => {}
        Kind::Triangle => copy_strips(layout, &from.third, &mut to.third, first, end),
    }
}

// Copies the words of some rows, which stand beside each other in each strip.
fn copy_strips(layout: &Layout, from: &[u64], to: &mut [u64], first: usize, end: usize)
    requires from { length from.now ≡ size_of layout.now }
    requires to { length to.old ≡ size_of layout.now }
    requires range { first ≤ end }
    requires end { end ≤ layout.now.height }
    ensures len { length to.new ≡ length to.old }
    ensures outside { AreKeptBeside layout.now.height first end to.old to.new }
    ensures taken { AreTaken layout.now.height first end from.now to.new }
{
    for strip in 0..layout.strips {
        let start = strip * layout.height;
        to[start + first..start + end].copy_from_slice(&from[start + first..start + end]);
    }
}
