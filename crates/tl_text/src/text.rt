//! Texts that grow, and the head line of a sample.

ghost use Rattle.std.specs.Prelude.{◌≡◌, ◌≤◌, ◌+◌, ◌++◌, [], length, take, is_ok, if◌then◌else◌, decimal};
ghost use Rattle.std.specs.Fmt.{signed_decimal};
ghost use Rattle.tl_text.specs.SampleLine.{sample_line};

use itoa::Buffer;
use std::alloc::{AllocError, Global};
use std::marker::Model;

/// A text to which words and whole numbers are added.
#[derive(Drop)]
pub struct Text {
    bytes: Vec<u8>,
}

impl Model for Text {
    ghost use Rattle.std.specs.Prelude.{ℕ, List};

    ghost Value = { List ℕ };

    ghost view = { λ s. s.bytes.items };
}

impl Text {
    /// The empty text.
    pub fn new(alloc: Global) -> Text
        ensures { result ≡ [] }
    {
        Text {
            bytes: Vec::new(alloc),
        }
    }

    pub fn bytes(&self) -> &[u8]
        ensures { result.now ≡ self.now }
    {
        self.bytes.as_slice()
    }

    /// Adds a word.
    pub fn word(&mut self, word: &str) -> Result<(), AllocError>
        ensures { self.new ≡ (if is_ok result then self.old ++ word.now else self.old) }
    {
        self.bytes.extend_from_slice(word.as_bytes())
    }

    /// Adds a whole number.
    pub fn number(&mut self, number: i64) -> Result<(), AllocError>
        ensures { self.new ≡ (if is_ok result then self.old ++ signed_decimal number else self.old) }
    {
        let mut buffer = Buffer::new();
        self.bytes
            .extend_from_slice(buffer.format(number).as_bytes())
    }
}

// Puts bytes behind those that are there, and gives the new end.
fn put(out: &mut [u8; 80], end: usize, bytes: &[u8]) -> usize
    requires { end + length bytes.now ≤ 80 }
    ensures end { result ≡ end + length bytes.now }
    ensures put { take result out.new ≡ take end out.old ++ bytes.now }
{
    let new_end = end + bytes.len();
    out[end..new_end].copy_from_slice(bytes);
    new_end
}

fn put_number(out: &mut [u8; 80], end: usize, number: u64) -> usize
    requires { end + 20 ≤ 80 }
    ensures end { result ≤ end + 20 }
    ensures put { take result out.new ≡ take end out.old ++ decimal number }
{
    let mut buffer = Buffer::new();
    put(out, end, buffer.format(number).as_bytes())
}

/// Writes the head line of a sample to the front of `out`, and gives its length.
pub fn sample_head(number: u32, start: Option<u64>, rank: Option<u64>, out: &mut [u8; 80]) -> usize
    ensures within { result ≤ 80 }
    ensures line { take result out.new ≡ sample_line number start rank }
{
    let mut buffer = Buffer::new();
    let end = put(out, 0, b"sample ");
    let end = put(out, end, buffer.format(number).as_bytes());
    let Some(start) = start else {
        return put(out, end, b" late\n");
    };
    let end = put(out, end, b" start ");
    let end = put_number(out, end, start);
    let Some(rank) = rank else {
        return put(out, end, b"\n");
    };
    let end = put(out, end, b" rank ");
    let end = put_number(out, end, rank);
    put(out, end, b"\n")
}
