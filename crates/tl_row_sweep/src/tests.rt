//! Two halves of the rows, swept class by class, beside a sweep of all rows.

ghost use Rattle.std.specs.Prelude.{◌≡◌, ◌+◌, ◌<◌, ◌≤◌, length, IfSome};
ghost use Rattle.tl_definitions.specs.Lattice.{classes};
ghost use Rattle.tl_layout.specs.Layouts.{size_of};
ghost use Rattle.tl_packed.specs.OfClasses.{AreOfLayout};

use crate::{copy_row, copy_rows, sweep_rows};
use std::alloc::Global;
use tl_formats::INPUT_LIMIT;
use tl_lattice::Kind;
use tl_layout::Layout;
use tl_packed::Strings;
use tl_region::read_region;
use tl_string_sweep::{Slots, sweep_both};

// The Aztec diamond of order 2, and the hexagon of side 2.
const DIAMOND: &[u8] = b"square\n.##\n####\n####\n.##\n";

const HEXAGON: &[u8] = b"triangle\n..#####\n.#######\n.#######\n..#####\n";

const LAST: u64 = 1 << 63;

// The words of each class that are not 0, with their places.
#[derive(Clone, Copy)]
struct Words<'a> {
    first: &'a [(usize, u64)],
    second: &'a [(usize, u64)],
    third: &'a [(usize, u64)],
}

fn put(words: &mut [u64], some: &[(usize, u64)]) {
    for (place, word) in some {
        if *place < words.len() {
            words[*place] = *word;
        }
    }
}

fn strings_of(alloc: Global, layout: &Layout, some: Words<'_>) -> Option<Strings>
    ensures { IfSome result (λ strings. AreOfLayout layout.now strings) }
{
    let mut strings = Strings::new(alloc, layout).ok()?;
    put(&mut strings.first, some.first);
    put(&mut strings.second, some.second);
    put(&mut strings.third, some.third);
    Some(strings)
}

fn are_same(strings: &Strings, others: &Strings) -> bool {
    strings.first.as_slice() == others.first.as_slice()
        && strings.second.as_slice() == others.second.as_slice()
        && strings.third.as_slice() == others.third.as_slice()
}

// Each half of the rows steps in strings of its own, and then takes over the row beside it.
fn sweep_halves(
    layout: &Layout,
    slots: &Slots,
    coins: &[u64],
    upper: &mut Strings,
    lower: &mut Strings,
    class: u8,
)
    requires height { 4 ≤ layout.now.height }
    requires upper { AreOfLayout layout.now upper.old }
    requires lower { AreOfLayout layout.now lower.old }
    requires lows { AreOfLayout layout.now slots.now.lows }
    requires free { AreOfLayout layout.now slots.now.free }
    requires coins { length coins.now ≡ size_of layout.now }
    requires class { class < classes layout.now.kind }
    ensures upper { AreOfLayout layout.now upper.new }
    ensures lower { AreOfLayout layout.now lower.new }
{
    let middle = layout.height / 2;
    sweep_rows(layout, slots, coins, upper, class, 1, middle);
    sweep_rows(
        layout,
        slots,
        coins,
        lower,
        class,
        middle,
        layout.height - 1,
    );
    copy_row(layout, upper, lower, class, middle - 1);
    copy_row(layout, lower, upper, class, middle);
}

// Whether both halves together become what a sweep of all rows gives, and something has changed.
fn halves_meet(alloc: Global, text: &[u8], from: Words<'_>, coins: &[(usize, u64)]) -> Option<bool>
    requires { length text.now ≤ INPUT_LIMIT }
{
    let (region, _) = read_region(alloc, text).ok()?;
    let layout = Layout::of(&region);
    let slots = Slots::of(alloc, &region, &layout).ok()?;
    let mut words = vec![in alloc; 0u64; layout.size()].ok()?;
    put(&mut words, coins);
    let start = strings_of(alloc, &layout, from)?;
    let mut whole = strings_of(alloc, &layout, from)?;
    let mut upper = strings_of(alloc, &layout, from)?;
    let mut lower = strings_of(alloc, &layout, from)?;
    sweep_both(&layout, &slots, &words, &mut whole);
    let count = match layout.kind {
        Kind::Square => 2,
        Kind::Triangle => 3,
    };
    for class in 0..count {
        sweep_halves(&layout, &slots, &words, &mut upper, &mut lower, class);
    }
    copy_rows(
        &layout,
        &lower,
        &mut upper,
        layout.height / 2,
        layout.height,
    );
    Some(are_same(&upper, &whole) && !are_same(&whole, &start))
}

#[test]
fn halves_of_a_diamond(rt: HostRuntime) {
    let from = Words {
        first: &[(3, LAST), (9, 6), (10, 12), (11, 29), (12, 12), (13, 6)],
        second: &[
            (2, LAST),
            (4, LAST),
            (9, 12),
            (10, 25),
            (11, 12),
            (12, 25),
            (13, 12),
        ],
        third: &[],
    };
    assert!(rt; halves_meet(rt.alloc(), DIAMOND, from, &[(12, 2)]) == Some(true));
}

#[test]
fn halves_of_a_hexagon(rt: HostRuntime) {
    let from = Words {
        first: &[(10, 4), (11, 2), (12, 8)],
        second: &[(10, 1), (11, 4), (12, 2)],
        third: &[(11, 6)],
    };
    let other = Words {
        first: &[(10, 4)],
        second: &[(11, 4)],
        third: &[],
    };
    assert!(rt; halves_meet(rt.alloc(), HEXAGON, from, &[(10, 2), (11, 6), (12, 4)]) == Some(true));
    assert!(rt; halves_meet(rt.alloc(), HEXAGON, other, &[]) == Some(true));
}
