//! Slots and sweeps of small regions, beside heights that were worked out from all tilings.

ghost use Rattle.std.specs.Prelude.{◌≡◌, ◌≤◌, length, IfSome};
ghost use Rattle.tl_packed.specs.OfClasses.{AreOfLayout};

use crate::{Slots, sweep_both};
use std::alloc::Global;
use tl_formats::INPUT_LIMIT;
use tl_layout::Layout;
use tl_packed::Strings;
use tl_region::read_region;

// The Aztec diamond of order 2, a rectangle, and the hexagon of side 2.
const DIAMOND: &[u8] = b"square\n.##\n####\n####\n.##\n";

const RECTANGLE: &[u8] = b"square\n####\n####\n####\n";

const HEXAGON: &[u8] = b"triangle\n..#####\n.#######\n.#######\n..#####\n";

const LAST: u64 = 1 << 63;

// The words of each class that are not 0, with their places.
#[derive(Clone, Copy)]
struct Words<'a> {
    first: &'a [(usize, u64)],
    second: &'a [(usize, u64)],
    third: &'a [(usize, u64)],
}

fn put(words: &mut [u64], some: &[(usize, u64)]) {
    for (place, word) in some {
        if *place < words.len() {
            words[*place] = *word;
        }
    }
}

fn strings_of(alloc: Global, layout: &Layout, some: Words<'_>) -> Option<Strings>
    ensures { IfSome result (λ strings. AreOfLayout layout.now strings) }
{
    let mut strings = Strings::new(alloc, layout).ok()?;
    put(&mut strings.first, some.first);
    put(&mut strings.second, some.second);
    put(&mut strings.third, some.third);
    Some(strings)
}

fn are_same(strings: &Strings, others: &Strings) -> bool {
    strings.first.as_slice() == others.first.as_slice()
        && strings.second.as_slice() == others.second.as_slice()
        && strings.third.as_slice() == others.third.as_slice()
}

// Whether these are the low slots and the free ones.
fn have_slots(alloc: Global, text: &[u8], lows: Words<'_>, free: Words<'_>) -> Option<bool>
    requires { length text.now ≤ INPUT_LIMIT }
{
    let (region, _) = read_region(alloc, text).ok()?;
    let layout = Layout::of(&region);
    let slots = Slots::of(alloc, &region, &layout).ok()?;
    let lows = strings_of(alloc, &layout, lows)?;
    let free = strings_of(alloc, &layout, free)?;
    Some(are_same(&slots.lows, &lows) && are_same(&slots.free, &free))
}

// Whether a sweep with these coins takes the one to the other.
fn sweeps_to(
    alloc: Global,
    text: &[u8],
    from: Words<'_>,
    coins: &[(usize, u64)],
    to: Words<'_>,
) -> Option<bool>
    requires { length text.now ≤ INPUT_LIMIT }
{
    let (region, _) = read_region(alloc, text).ok()?;
    let layout = Layout::of(&region);
    let slots = Slots::of(alloc, &region, &layout).ok()?;
    let mut words = vec![in alloc; 0u64; layout.size()].ok()?;
    put(&mut words, coins);
    let mut both = strings_of(alloc, &layout, from)?;
    sweep_both(&layout, &slots, &words, &mut both);
    let wanted = strings_of(alloc, &layout, to)?;
    Some(are_same(&both, &wanted))
}

#[test]
fn slots_of_a_diamond(rt: HostRuntime) {
    let lows = Words {
        first: &[(11, 2)],
        second: &[(10, 2), (11, 5), (12, 2)],
        third: &[],
    };
    let free = Words {
        first: &[(11, 6)],
        second: &[(10, 6), (11, 15), (12, 6)],
        third: &[],
    };
    assert!(rt; have_slots(rt.alloc(), DIAMOND, lows, free) == Some(true));
}

#[test]
fn slots_of_a_hexagon(rt: HostRuntime) {
    let lows = Words {
        first: &[(10, 2), (11, 1), (12, 4)],
        second: &[(10, 1), (11, 4), (12, 2)],
        third: &[(11, 2)],
    };
    let free = Words {
        first: &[(10, 6), (11, 3), (12, 12)],
        second: &[(10, 3), (11, 12), (12, 6)],
        third: &[(11, 6)],
    };
    assert!(rt; have_slots(rt.alloc(), HEXAGON, lows, free) == Some(true));
}

#[test]
fn sweep_of_a_diamond(rt: HostRuntime) {
    let from = Words {
        first: &[(3, LAST), (9, 6), (10, 12), (11, 29), (12, 12), (13, 6)],
        second: &[
            (2, LAST),
            (4, LAST),
            (9, 12),
            (10, 25),
            (11, 12),
            (12, 25),
            (13, 12),
        ],
        third: &[],
    };
    let to = Words {
        first: &[(3, LAST), (9, 6), (10, 12), (11, 25), (12, 12), (13, 6)],
        second: &[
            (2, LAST),
            (4, LAST),
            (9, 12),
            (10, 25),
            (11, 3),
            (12, 25),
            (13, 12),
        ],
        third: &[],
    };
    assert!(rt; sweeps_to(rt.alloc(), DIAMOND, from, &[(12, 2)], to) == Some(true));
}

#[test]
fn sweep_of_a_rectangle(rt: HostRuntime) {
    let from = Words {
        first: &[(8, 6), (9, 14), (10, 6), (11, 3)],
        second: &[(8, 12), (9, 6), (10, 12), (11, 6)],
        third: &[],
    };
    let to = Words {
        first: &[(8, 6), (9, 3), (10, 6), (11, 3)],
        second: &[(8, 12), (9, 6), (10, 3), (11, 6)],
        third: &[],
    };
    assert!(rt; sweeps_to(rt.alloc(), RECTANGLE, from, &[(9, 5), (10, 7)], to) == Some(true));
}

#[test]
fn sweeps_of_a_hexagon(rt: HostRuntime) {
    let one = Words {
        first: &[(10, 4)],
        second: &[(11, 4)],
        third: &[],
    };
    let other = Words {
        first: &[],
        second: &[(10, 3), (11, 12), (12, 6)],
        third: &[(11, 6)],
    };
    let bottom_and_top = Words {
        first: &[(10, 4), (11, 2), (12, 8)],
        second: &[(10, 1), (11, 4), (12, 2)],
        third: &[(11, 6)],
    };
    let raised = Words {
        third: &[(11, 4)],
        ..bottom_and_top
    };
    assert!(rt; sweeps_to(rt.alloc(), HEXAGON, one, &[], other) == Some(true));
    assert!(rt;
        sweeps_to(
            rt.alloc(),
            HEXAGON,
            bottom_and_top,
            &[(10, 2), (11, 6), (12, 4)],
            raised
        ) == Some(true)
    );
}

#[test]
fn a_sweep_with_no_inner_corner(rt: HostRuntime) {
    let kept = Words {
        first: &[(3, 5)],
        second: &[(6, 7)],
        third: &[],
    };
    assert!(rt; sweeps_to(rt.alloc(), b"square\n##\n", kept, &[], kept) == Some(true));
}
