//! Both ends of a pair of tilings in one string: joined, and parted again.

ghost use Rattle.std.specs.Prelude.{◌≡◌, ◌+◌, ◌<◌, ◌≤◌, if◌then◌else◌, ℕ, List, ℤ, length};
ghost use Rattle.tl_strings.specs.Strings.{string_bit, word_place};
ghost use Rattle.tl_packed.specs.Ends.{AreJoined, AreParted};
ghost use Rattle.tl_packed.specs.Inner.{AreInner, IsInner};
ghost use Rattle.tl_packed.specs.OfClasses.{AreLows, AreOfLayout};
ghost use Rattle.tl_packed.specs.Packs.{HoldEnds};

use crate::inner::inner_words;
use crate::packed::Packed;
use crate::strings::Strings;
use tl_layout::Layout;
use tl_strings::{join, part};

/// Overwrites strings by the marks of both tilings, those of `high` one slot on.
pub fn join_ends(low: &Packed, high: &Packed, both: &mut Strings)
    requires layout { high.now.layout ≡ low.now.layout }
    requires region { high.now.heights.region ≡ low.now.heights.region }
    requires size { AreOfLayout low.now.layout both.old }
    ensures { HoldEnds low.now.heights.region low.now.layout both.new low.now.heights.numbers high.now.heights.numbers }
{
    join_strings(&low.layout(), &low.strings, &high.strings, both);
}

fn join_strings(layout: &Layout, low: &Strings, high: &Strings, both: &mut Strings)
    requires low_size { AreOfLayout layout.now low.now }
    requires high_size { AreOfLayout layout.now high.now }
    requires size { AreOfLayout layout.now both.old }
    ensures { AreJoined layout.now low.now high.now both.new }
{
    let height = layout.height();
    join(&low.first, &high.first, &mut both.first, height);
    join(&low.second, &high.second, &mut both.second, height);
    join(&low.third, &high.third, &mut both.third, height);
}

/// Overwrites two tilings by those whose marks the strings hold. `lows` are the slots of the inner corners.
pub fn part_ends(both: &Strings, lows: &Strings, low: &mut Packed, high: &mut Packed)
    requires layout { high.old.layout ≡ low.old.layout }
    requires region { high.old.heights.region ≡ low.old.heights.region }
    requires lows { AreLows low.old.heights.region low.old.layout lows.now }
    requires held { (bottom top : List ℤ) × HoldEnds low.old.heights.region low.old.layout both.now bottom top }
    ensures low { (bottom top : List ℤ) → HoldEnds low.old.heights.region low.old.layout both.now bottom top
        → low.new ≡ record { layout = low.old.layout; heights = record { region = low.old.heights.region; numbers = bottom } } }
    ensures high { (bottom top : List ℤ) → HoldEnds low.old.heights.region low.old.layout both.now bottom top
        → high.new ≡ record { layout = low.old.layout; heights = record { region = low.old.heights.region; numbers = top } } }
{
    part_strings(
        &low.layout(),
        both,
        lows,
        &mut low.strings,
        &mut high.strings,
    );
}

fn part_strings(
    layout: &Layout,
    both: &Strings,
    lows: &Strings,
    low: &mut Strings,
    high: &mut Strings,
)
    requires size { AreOfLayout layout.now both.now }
    requires lows_size { AreOfLayout layout.now lows.now }
    requires low_size { AreOfLayout layout.now low.old }
    requires high_size { AreOfLayout layout.now high.old }
    requires inner { AreInner layout.now.height lows.now }
    ensures low { AreParted layout.now 0 both.now lows.now low.old low.new }
    ensures high { AreParted layout.now 1 both.now lows.now high.old high.new }
{
    let height = layout.height();
    part_class(
        &both.first,
        &lows.first,
        &mut low.first,
        &mut high.first,
        height,
    );
    part_class(
        &both.second,
        &lows.second,
        &mut low.second,
        &mut high.second,
        height,
    );
    part_class(
        &both.third,
        &lows.third,
        &mut low.third,
        &mut high.third,
        height,
    );
}

// Parts the strings of a class. Strings with no inner words have no slot of an inner corner.
fn part_class(both: &[u64], lows: &[u64], low: &mut [u64], high: &mut [u64], height: usize)
    requires both { length both.now ≡ length low.old }
    requires lows { length lows.now ≡ length low.old }
    requires high { length high.old ≡ length low.old }
    requires height { height + 3 ≤ usize.MAX }
    requires inner { IsInner height lows.now }
    ensures low_len { length low.new ≡ length low.old }
    ensures high_len { length high.new ≡ length high.old }
    ensures low { (row slot : ℕ) → word_place height row slot < length low.old
        → string_bit height low.new row slot
        ≡ (if string_bit height lows.now row slot
        then string_bit height both.now row slot
        else string_bit height low.old row slot) }
    ensures high { (row slot : ℕ) → word_place height row slot < length low.old
        → string_bit height high.new row slot
        ≡ (if string_bit height lows.now row slot
        then string_bit height both.now row (slot + 1)
        else string_bit height high.old row slot) }
{
    let (first, end) = inner_words(both.len(), height);
    if first < end {
        part(both, lows, low, high, height, first, end);
    }
}
