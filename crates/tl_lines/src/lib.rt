//! The lines of an input, and the sections that they form.
#![tactic(auto)]

ghost use Rattle.std.specs.Prelude.{◌≡◌, ◌<◌, ◌≤◌, ◌+◌, length, slice_index, slice_index_or, IfSome, OnSome};
ghost use Rattle.tl_formats.specs.Input.{without_end, further_section, rest_is_empty as only_line_ends};
ghost use Rattle.std.specs.Option.{option_copied};
ghost use Rattle.tl_lines.specs.Lines.{IsFirstLine, IsNextLine, after_line, after_empty_lines, section_at};
ghost use Rattle.tl_lines.specs.Lines.{in_line_end};

use memchr::memchr;

// The text without a carriage return at its end.
fn without_return(text: &[u8]) -> &[u8]
    ensures text { result.now ≡ without_end 13 text.now }
    ensures within { length result.now ≤ length text.now }
{
    match text {
        [front @ .., b'\r'] => front,
        _ => text,
    }
}

/// Cuts the first line off an input that isn't empty: the line without its end, and what follows.
///
/// A line ends with a line feed or with the input. A carriage return before either is no part of it.
pub fn cut_line(bytes: &[u8]) -> (&[u8], &[u8])
    requires { 0 < length bytes.now }
    ensures first { IsFirstLine bytes.now result.0.now result.1.now }
    ensures within { length result.0.now ≤ length bytes.now }
    ensures shorter { length result.1.now < length bytes.now }
{
    match memchr(b'\n', bytes) {
        Some(end) => (without_return(&bytes[..end]), &bytes[end + 1..]),
        None => (without_return(bytes), &bytes[bytes.len()..]),
    }
}

/// The next line of a section whose first line was read, and what follows it; or nothing, and what follows
/// the section. An empty line ends the section, which takes it.
pub fn next_line(bytes: &[u8]) -> (Option<&[u8]>, &[u8])
    ensures next { IsNextLine bytes.now (option_copied result.0) result.1.now }
    ensures rest { result.1.now ≡ after_line bytes.now }
    ensures within { IfSome result.0 (λ line. length line.now ≤ length bytes.now) }
    ensures left { length result.1.now ≤ length bytes.now }
    ensures shorter { OnSome result.0 (length result.1.now < length bytes.now) }
{
    if bytes.is_empty() {
        return (None, bytes);
    }
    let (line, rest) = cut_line(bytes);
    if line.is_empty() {
        (None, rest)
    } else {
        (Some(line), rest)
    }
}

// Whether the byte is a line feed, or a carriage return before one or at the end of the input.
fn is_in_line_end(bytes: &[u8], i: usize) -> bool
    requires { i < length bytes.now }
    ensures { result ≡ in_line_end (slice_index bytes.now i) (slice_index_or bytes.now (i + 1) 10) }
{
    match bytes[i] {
        b'\n' => true,
        b'\r' => bytes.get(i + 1).copied().unwrap_or(b'\n') == b'\n',
        _ => false,
    }
}

/// What is left of the input after empty lines. The lines of a further section are those that `next_line`
/// gives from there on.
pub fn skip_empty_lines(bytes: &[u8]) -> &[u8]
    ensures section { section_at result.now ≡ further_section bytes.now }
    ensures rest { result.now ≡ after_empty_lines bytes.now }
    ensures left { length result.now ≤ length bytes.now }
{
    for i in 0..bytes.len() {
        if !is_in_line_end(bytes, i) {
            return &bytes[i..];
        }
    }
    &bytes[bytes.len()..]
}

/// Whether only line ends stand in the bytes, each with or without a carriage return before it.
pub fn rest_is_empty(bytes: &[u8]) -> bool
    ensures { result ≡ only_line_ends bytes.now }
{
    skip_empty_lines(bytes).is_empty()
}

#[cfg(test)]
mod tests;
