//! The first line of a region's text.

ghost use Rattle.std.specs.Prelude.{◌≡◌, ◌==◌};
ghost use Rattle.std.specs.List.{list_all};
ghost use Rattle.tl_formats.specs.RegionText.{is_header as is_header_of, kind_of as kind_named};

use tl_lattice::Kind;

fn are_spaces(bytes: &[u8]) -> bool
    ensures { result ≡ list_all (λ b. b == 32) bytes.now }
{
    bytes.iter().all(|byte| *byte == b' ')
}

fn is_header(word: &[u8], line: &[u8]) -> bool
    ensures { result ≡ is_header_of word.now line.now }
{
    line.starts_with(word) && are_spaces(line.split_at(word.len()).1)
}

/// The kind that the line names, after which any number of spaces may stand.
pub fn kind_of(line: &[u8]) -> Option<Kind>
    ensures { result ≡ kind_named line.now }
{
    if is_header(b"square", line) {
        Some(Kind::Square)
    } else if is_header(b"triangle", line) {
        Some(Kind::Triangle)
    } else {
        None
    }
}
