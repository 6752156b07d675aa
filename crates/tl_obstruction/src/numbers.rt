//! The words and the numbers of a line.

ghost use Rattle.std.specs.Prelude.{◌≡◌, ◌∷◌, ◌&&◌, ◌||◌, ◌==◌, not, nat_le, length};
ghost use Rattle.std.specs.List.{starts_with, list_all};
ghost use Rattle.std.specs.Option.{option_copied};
ghost use Rattle.tl_formats.specs.Texts.{are_digits as are_digits_of, is_digit as is_digit_of};
ghost use Rattle.tl_formats.specs.ObstructionText.{plain_of, signed_of, words_of};
ghost use Rattle.tl_obstruction.specs.Told.{words_after, is_plain as is_plain_of};

use memchr::memchr;

fn is_digit(byte: u8) -> bool
    ensures { result ≡ is_digit_of byte }
{
    byte.is_ascii_digit()
}

fn all_digits(word: &[u8]) -> bool
    ensures { result ≡ list_all is_digit_of word.now }
{
    word.iter().all(|byte| is_digit(*byte))
}

fn are_digits(word: &[u8]) -> bool
    ensures { result ≡ are_digits_of word.now }
{
    all_digits(word) && !word.is_empty()
}

// Whether the word is `0`, or a digit from 1 to 9 and at most 8 more.
fn is_plain(word: &[u8]) -> bool
    ensures { result ≡ is_plain_of word.now }
{
    are_digits(word) && word.len() <= 9 && (word.len() == 1 || word[0] != b'0')
}

/// The plain number that the word is.
pub fn plain(word: &[u8]) -> Option<u32>
    ensures { result ≡ plain_of word.now }
{
    if !is_plain(word) {
        return None;
    }
    let mut number = 0;
    for byte in word {
        number = 10 * number + u32::from(*byte - b'0');
    }
    Some(number)
}

/// The signed number that the word is: a plain one, or `-` and one other than 0.
pub fn signed(word: &[u8]) -> Option<i64>
    ensures { result ≡ signed_of word.now }
{
    match word {
        [b'-', front @ ..] => match plain(front) {
            None | Some(0) => None,
            Some(number) => Some(-i64::from(number)),
        },
        _ => Some(i64::from(plain(word)?)),
    }
}

/// The first word of a line, and what follows the space after it, if there is one.
pub fn cut_word(line: &[u8]) -> (&[u8], Option<&[u8]>)
    ensures { words_of line.now ≡ result.0.now ∷ words_after (option_copied result.1) }
{
    match memchr(b' ', line) {
        Some(end) => (&line[..end], Some(&line[end + 1..])),
        None => (line, None),
    }
}
