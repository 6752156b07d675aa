//! Numbered random words: the coin flips of a coupling from the past.
//!
//! Word `w` of time `-t` is a fixed function of `t` and `w`, so that every start that looks at a time sees
//! the same bits there, and a sample can be made again by anybody from its seed and its number.
#![tactic(auto)]

ghost use Rattle.std.specs.Prelude.{◌≡◌, ℕ, ◌^◌, ◌<◌, ◌≤◌};
ghost use Rattle.tl_bits.specs.Bits.{place};

mod dealt;
mod stream;
#[cfg(test)]
mod tests;

pub use dealt::{Listed, Numbered};

/// Words of 32 bits by time and index. Bit `i` of a time, counted from 0, is bit `i mod 32` of its word
/// `i / 32`; bit 0 of a word is the lowest.
pub trait Bits: Drop {
    // How many words each time has.
    ghost words: { Self → ℕ };

    // Word w of time -t.
    ghost word_at: { Self → ℕ → ℕ → ℕ };

    /// Word `w` of time `-time`. The same time and index give the same word at every call, whatever was
    /// asked before.
    fn word(&mut self, time: u64, w: u32) -> u32
        requires first_time { 1 ≤ time }
        requires last_time { time ≤ 2 ^ 30 }
        requires within { w < words self.old }
        requires few_words { words self.old ≤ 2 ^ 15 }
        ensures value { result ≡ word_at self.old time w }
        ensures same_words { words self.new ≡ words self.old }
        ensures same_function { word_at self.new ≡ word_at self.old };
}

// The number of word `w` of time `-time`, where each time has so many words.
fn place(words: u32, time: u64, w: u32) -> u64
    requires first_time { 1 ≤ time }
    requires last_time { time ≤ 2 ^ 30 }
    requires within { w < words }
    requires few_words { words ≤ 2 ^ 15 }
    ensures value { result ≡ place words time w }
    ensures bound { result < 2 ^ 45 }
{
    (time - 1) * u64::from(words) + u64::from(w)
}
