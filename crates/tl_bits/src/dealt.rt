// The words of a stream or of a list, dealt out to the times.

ghost use Rattle.std.specs.Prelude.{◌≡◌};

use crate::stream::WordStream;
use crate::{Bits, place};
use std::marker::Model;

/// The numbered words of one seed and one sample: word `w` of time `-t` is word `(t - 1) * words + w` of
/// their stream (`docs/BITS.md`).
#[derive(Drop)]
pub struct Numbered {
    stream: WordStream,
    words: u32,
}

impl Model for Numbered {
    ghost use Rattle.tl_bits.specs.Sources.{Numbering};

    ghost Value = { Numbering };

    ghost view = { λ b. record { seed = b.stream.seed; sample = b.stream.sample; words = b.words } };
}

impl Numbered {
    /// The words of sample number `sample` of `seed`, `words` of them to each time. None is computed before it is
    /// asked for.
    pub fn new(seed: u64, sample: u32, words: u32) -> Numbered
        ensures { result ≡ record { seed = seed; sample = sample; words = words } }
    {
        Numbered {
            stream: WordStream::new(seed, sample),
            words,
        }
    }
}

impl Bits for Numbered {
    ghost use Rattle.tl_bits.specs.Sources.{numbered_word};

    ghost words = { λ b. b.words };

    ghost word_at = { numbered_word };

    #[inline]
    fn word(&mut self, time: u64, w: u32) -> u32 {
        self.stream.word(place(self.words, time, w))
    }
}

/// A list of words for tests: word `w` of time `-t` is the entry at place `(t - 1) * words + w`, counted
/// from 0, and 0 past the list's end.
#[derive(Drop)]
pub struct Listed {
    words: u32,
    list: Vec<u32>,
}

impl Model for Listed {
    ghost use Rattle.tl_bits.specs.Sources.{Listing};

    ghost Value = { Listing };

    ghost view = { λ b. record { words = b.words; list = b.list.items } };
}

impl Listed {
    /// The words of `list`, `words` of them to each time.
    pub fn new(words: u32, list: Vec<u32>) -> Listed
        ensures { result ≡ record { words = words; list = list.items } }
    {
        Listed { words, list }
    }
}

impl Bits for Listed {
    ghost use Rattle.tl_bits.specs.Sources.{listed_word};

    ghost words = { λ b. b.words };

    ghost word_at = { listed_word };

    fn word(&mut self, time: u64, w: u32) -> u32 {
        let place = place(self.words, time, w) as usize;
        self.list.get(place).copied().unwrap_or(0)
    }
}
