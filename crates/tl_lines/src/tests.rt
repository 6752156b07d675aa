//! Lines with and without carriage returns, and where sections end.

ghost use Rattle.std.specs.Prelude.{◌<◌, length};

use crate::{cut_line, next_line, rest_is_empty, skip_empty_lines};

#[test]
fn a_line_ends_with_a_line_feed_or_the_input(rt: HostRuntime) {
    let cases: [(&[u8], &[u8], &[u8]); 8] = [
        (b"ab\ncd", b"ab", b"cd"),
        (b"ab\r\ncd", b"ab", b"cd"),
        (b"ab", b"ab", b""),
        (b"ab\r", b"ab", b""),
        (b"\n\n", b"", b"\n"),
        (b"\r", b"", b""),
        (b"\r\r\n", b"\r", b""),
        (b"a\rb\n", b"a\rb", b""),
    ];
    for (input, line, rest) in cases {
        if !input.is_empty() {
            let cut = cut_line(input);
            assert_eq!(rt; cut.0, line);
            assert_eq!(rt; cut.1, rest);
        }
    }
}

#[test]
fn an_empty_line_ends_a_section(rt: HostRuntime) {
    let (line, rest) = next_line(b"##\r\n\r\n><\n".as_slice());
    assert!(rt; line == Some(b"##".as_slice()));
    let (line, rest) = next_line(rest);
    assert!(rt; line.is_none());
    assert_eq!(rt; rest, b"><\n".as_slice());
    let (line, rest) = next_line(rest);
    assert!(rt; line == Some(b"><".as_slice()));
    let (line, rest) = next_line(rest);
    assert!(rt; line.is_none() && rest.is_empty());
}

#[test]
fn empty_lines_before_a_section_are_skipped(rt: HostRuntime) {
    assert_eq!(rt;
        skip_empty_lines(b"\n\r\n><\n\n".as_slice()),
        b"><\n\n".as_slice()
    );
    assert_eq!(rt; skip_empty_lines(b" \n".as_slice()), b" \n".as_slice());
    assert!(rt; skip_empty_lines(b"\n\n\r".as_slice()).is_empty());
}

#[test]
fn a_carriage_return_elsewhere_begins_a_line(rt: HostRuntime) {
    let cases: [(&[u8], &[u8]); 5] = [
        (b"\r\n\n\r\n##\r\n", b"##\r\n"),
        (b"\n\r#\n", b"\r#\n"),
        (b"\r\n\r\r\n#", b"\r\r\n#"),
        (b"\n\r\r", b"\r\r"),
        (b"\r\n\r", b""),
    ];
    for (input, left) in cases {
        assert_eq!(rt; skip_empty_lines(input), left, "{input:?}");
    }
}

#[test]
fn only_line_ends_are_left(rt: HostRuntime) {
    for text in [b"".as_slice(), b"\n", b"\r\n\n", b"\n\r", b"\r"] {
        assert!(rt; rest_is_empty(text), "{text:?}");
    }
    for text in [b" ".as_slice(), b"\n ", b"\r\r\n", b"\n##", b"\r\r"] {
        assert!(rt; !rest_is_empty(text), "{text:?}");
    }
}
