//! The inner words of strings: those with words on all sides, in rows where inner corners stand.

ghost use Rattle.std.specs.Prelude.{◌≡◌, ◌+◌, ◌-◌, ◌≤◌};

/// The first inner word of strings of so many words, and the one behind the last. There is none where the second isn't
/// behind the first.
#[inline]
pub fn inner_words(size: usize, height: usize) -> (usize, usize)
    requires { height + 3 ≤ usize.MAX }
    ensures first { result.0 ≡ height + 2 }
    ensures end { result.1 ≡ size - (height + 3) }
{
    (height + 2, size.saturating_sub(height + 3))
}
