//! The words of one row of a string, one of each strip.

ghost use Rattle.std.specs.Prelude.{◌≡◌, ◌+◌, ◌*◌, ◌<◌, ℕ, length, slice_index};
ghost use Rattle.tl_definitions.specs.Lattice.{classes};
ghost use Rattle.tl_layout.specs.Layouts.{size_of};
ghost use Rattle.tl_packed.specs.OfClasses.{AreOfLayout, of_class};
ghost use Rattle.tl_row_sweep.specs.Rows.{AreKeptBeside, AreOthersKept};
ghost use Rattle.tl_band.specs.Words.{AreWordsOf};

use tl_layout::Layout;
use tl_packed::Strings;

/// Reads the words of one row of a class.
pub(crate) fn read_row(layout: &Layout, strings: &Strings, class: u8, row: usize, words: &mut [u64])
    requires size { AreOfLayout layout.now strings.now }
    requires class { class < classes layout.now.kind }
    requires row { row < layout.now.height }
    requires words { length words.old ≡ layout.now.strips }
    ensures len { length words.new ≡ length words.old }
    ensures read { AreWordsOf layout.now row (of_class strings.now class) words.new }
{
    match class {
        0 => read_words(layout, &strings.first, row, words),
        1 => read_words(layout, &strings.second, row, words),
        _ => read_words(layout, &strings.third, row, words),
    }
}

fn read_words(layout: &Layout, string: &[u64], row: usize, words: &mut [u64])
    requires string { length string.now ≡ size_of layout.now }
    requires row { row < layout.now.height }
    requires words { length words.old ≡ layout.now.strips }
    ensures len { length words.new ≡ length words.old }
    ensures read { AreWordsOf layout.now row string.now words.new }
{
    for strip in 0..layout.strips {
        words[strip] = string[strip * layout.height + row];
    }
}

/// Overwrites the words of one row of a class.
pub(crate) fn write_row(
    layout: &Layout,
    strings: &mut Strings,
    class: u8,
    row: usize,
    words: &[u64],
)
    requires size { AreOfLayout layout.now strings.old }
    requires class { class < classes layout.now.kind }
    requires row { row < layout.now.height }
    requires words { length words.now ≡ layout.now.strips }
    ensures size { AreOfLayout layout.now strings.new }
    ensures others { AreOthersKept class strings.old strings.new }
    ensures outside { AreKeptBeside layout.now.height row (row + 1) (of_class strings.old class) (of_class strings.new class) }
    ensures written { AreWordsOf layout.now row (of_class strings.new class) words.now }
{
    match class {
        0 => write_words(layout, &mut strings.first, row, words),
        1 => write_words(layout, &mut strings.second, row, words),
        _ => write_words(layout, &mut strings.third, row, words),
    }
}

fn write_words(layout: &Layout, string: &mut [u64], row: usize, words: &[u64])
    requires string { length string.old ≡ size_of layout.now }
    requires row { row < layout.now.height }
    requires words { length words.now ≡ layout.now.strips }
    ensures len { length string.new ≡ length string.old }
    ensures outside { AreKeptBeside layout.now.height row (row + 1) string.old string.new }
    ensures written { AreWordsOf layout.now row string.new words.now }
{
    for strip in 0..layout.strips {
        string[strip * layout.height + row] = words[strip];
    }
}
