//! Strings that are compared where others have ones.

ghost use Rattle.std.specs.Prelude.{◌≡◌, ◌↔◌, ◌+◌, ◌≤◌, IsTrue, length};
ghost use Rattle.tl_packed.specs.Inner.{AreInner, IsInner};
ghost use Rattle.tl_packed.specs.Masked.{AgreeUnder, AllAgreeUnder, AreAsLong, ClassesAgreeUnder};

use crate::inner::inner_words;
use crate::strings::Strings;

// Whether two words have the same bits where a third has ones.
#[inline]
fn agree_under(low: u64, one: u64, other: u64) -> bool
    ensures { IsTrue result ↔ AgreeUnder low one other }
{
    (one ^ other) & low == 0
}

// The same of all words of a class. Only inner words of `lows` have ones.
fn all_agree_under(lows: &[u64], one: &[u64], other: &[u64], height: usize) -> bool
    requires one { length one.now ≡ length lows.now }
    requires other { length other.now ≡ length lows.now }
    requires height { height + 3 ≤ usize.MAX }
    requires inner { IsInner height lows.now }
    ensures { IsTrue result ↔ AllAgreeUnder lows.now one.now other.now }
{
    let (first, end) = inner_words(lows.len(), height);
    for at in first..end {
        if !agree_under(lows[at], one[at], other[at]) {
            return false;
        }
    }
    true
}

/// Whether the strings of each class have the same bits where those of `lows` have ones. Strips have `height` words.
pub fn classes_agree_under(lows: &Strings, one: &Strings, other: &Strings, height: usize) -> bool
    requires one { AreAsLong one.now lows.now }
    requires other { AreAsLong other.now lows.now }
    requires height { height + 3 ≤ usize.MAX }
    requires inner { AreInner height lows.now }
    ensures { IsTrue result ↔ ClassesAgreeUnder lows.now one.now other.now }
{
    all_agree_under(&lows.first, &one.first, &other.first, height)
        && all_agree_under(&lows.second, &one.second, &other.second, height)
        && all_agree_under(&lows.third, &one.third, &other.third, height)
}
