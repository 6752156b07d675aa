//! What the values of options say.

ghost use Rattle.std.specs.Prelude.{◌≡◌, ◌≤◌, ◌&&◌, nat_le, if◌then◌else◌, option_map, IfSome, None, Some};
ghost use Rattle.tl_text.specs.Words.{max_order as most, number_within as within, number_or, shape_of as shape_by};
ghost use Rattle.tl_formats.specs.Texts.{are_digits as digits};

use crate::Shape;

const MOST_DIGITS: usize = 20;

fn are_digits(word: &[u8]) -> bool
    ensures { result ≡ digits word.now }
{
    word.iter().all(|byte| b'0' <= *byte && *byte <= b'9') && !word.is_empty()
}

fn bounded(low: u64, high: u64, number: u64) -> Option<u64>
    ensures number { result ≡ (if nat_le low number && nat_le number high then Some number else None) }
    ensures high { IfSome result (λ n. n ≤ high) }
{
    if low <= number && number <= high {
        Some(number)
    } else {
        None
    }
}

/// A number of 1 to 20 digits, with a value in this range.
pub fn number_within(low: u64, high: u64, word: &str) -> Option<u64>
    ensures number { result ≡ within low high word.now }
    ensures high { IfSome result (λ n. n ≤ high) }
{
    if word.len() > MOST_DIGITS || !are_digits(word.as_bytes()) {
        return None;
    }
    match word.parse() {
        Ok(number) => bounded(low, high, number),
        Err(_) => None,
    }
}

/// The same, or the default where no value is given.
pub fn number_or_default(default: u64, low: u64, high: u64, value: Option<&str>) -> Option<u64>
    requires { default ≤ high }
    ensures number { result ≡ number_or default low high (option_map (λ v. v.now) value.entry) }
    ensures high { IfSome result (λ n. n ≤ high) }
{
    match value {
        Some(word) => number_within(low, high, word),
        None => Some(default),
    }
}

/// The shape with this name.
pub fn shape_of(word: &str) -> Option<Shape>
    ensures { result ≡ shape_by word.now }
{
    match word {
        "aztec" => Some(Shape::Aztec),
        "hexagon" => Some(Shape::Hexagon),
        "staircase" => Some(Shape::Staircase),
        "hourglass" => Some(Shape::Hourglass),
        _ => None,
    }
}

/// The greatest order of a shape.
pub fn max_order(shape: Shape) -> u64
    ensures order { result ≡ most shape }
    ensures small { result ≤ 512 }
{
    match shape {
        Shape::Aztec | Shape::Hourglass => 256,
        Shape::Hexagon => 128,
        Shape::Staircase => 512,
    }
}
