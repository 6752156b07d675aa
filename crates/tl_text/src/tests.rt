//! Words, and the command that they ask for; the texts of shapes and of numbers.

use crate::values::max_order;
use crate::{
    Command, GenJob, SampleJob, Shape, Text, WordsFault, read_words, sample_head, shape_text,
};
use std::alloc::{AllocError, Global};

// What `sample` is asked for where no option is given.
const PLAIN: SampleJob = SampleJob {
    seed: 0,
    count: 1,
    bound: 24,
    workers: 1,
    bands: 1,
};

fn seeded(seed: u64) -> Command {
    Command::Sample(SampleJob { seed, ..PLAIN })
}

fn shaped(shape: Shape, order: u32, summary: bool, job: SampleJob) -> Command {
    Command::Gen(GenJob {
        shape,
        order,
        summary,
        job,
    })
}

// Reads these words after a first one.
fn read_after(
    alloc: Global,
    first: &str,
    words: &[&str],
) -> Result<Result<Command, WordsFault>, AllocError> {
    let mut all = Vec::new(alloc);
    all.push(first)?;
    for word in words {
        all.push(*word)?;
    }
    Ok(read_words(alloc, all.as_slice()))
}

#[test]
fn a_command_without_options_is_one_word(rt: HostRuntime) {
    let cases = [
        ("check", Command::Check),
        ("decide", Command::Decide),
        ("refute", Command::Refute),
        ("flips", Command::Flips),
        ("distance", Command::Distance),
    ];
    for (word, command) in cases {
        assert_eq!(rt; read_words(rt.alloc(), &[word]), Ok(command));
        for more in ["", "now", "--seed=1", "--", "--help", word] {
            assert_eq!(rt;
                read_words(rt.alloc(), &[word, more]),
                Err(WordsFault::Usage),
                "{word} {more}"
            );
        }
    }
}

#[test]
fn the_first_word_is_a_command(rt: HostRuntime) {
    assert_eq!(rt; read_words(rt.alloc(), &[]), Err(WordsFault::Usage));
    for word in [
        "",
        "tile",
        "Check",
        "checks",
        "chec",
        " check",
        "--help",
        "--version",
        "--",
        "-",
        "gen",
        "--seed=1",
    ] {
        assert_eq!(rt;
            read_words(rt.alloc(), &[word]),
            Err(WordsFault::Usage),
            "{word}"
        );
    }
}

#[test]
fn an_option_is_one_word_or_two(rt: HostRuntime) {
    let cases: [(&[&str], Command); 9] = [
        (&["sample"], seeded(0)),
        (&["sample", "--seed", "7"], seeded(7)),
        (&["sample", "--seed=7"], seeded(7)),
        (&["sample", "--seed=007"], seeded(7)),
        (&["sample", "--seed", "00000000000000000007"], seeded(7)),
        (
            &["sample", "--seed=18446744073709551615"],
            seeded(18446744073709551615),
        ),
        (
            &["sample", "--seed", "18446744073709551615"],
            seeded(18446744073709551615),
        ),
        (
            &[
                "sample",
                "--bands=64",
                "--workers",
                "16",
                "--bound=30",
                "--count",
                "65536",
                "--seed",
                "1",
            ],
            Command::Sample(SampleJob {
                seed: 1,
                count: 65536,
                bound: 30,
                workers: 16,
                bands: 64,
            }),
        ),
        (
            &[
                "sample",
                "--bound",
                "0",
                "--count=1",
                "--workers=1",
                "--bands=1",
            ],
            Command::Sample(SampleJob { bound: 0, ..PLAIN }),
        ),
    ];
    for (words, command) in cases {
        assert_eq!(rt; read_words(rt.alloc(), words), Ok(command), "{words:?}");
    }
}

#[test]
fn words_of_sample_that_are_refused(rt: HostRuntime) -> Result<(), AllocError> {
    let cases: [&[&str]; 46] = [
        &["--seed"],
        &["--seed="],
        &["--seed", ""],
        &["--seed", "+1"],
        &["--seed=+1"],
        &["--seed", "-1"],
        &["--seed=-1"],
        &["--seed=1 "],
        &["--seed=1x"],
        &["--seed=0x1"],
        &["--seed==1"],
        &["--seed", "=1"],
        &["--seed=\u{661}"],
        &["--seed", "000000000000000000007"],
        &["--seed=000000000000000000007"],
        &["--seed=18446744073709551616"],
        &["--seed", "18446744073709551616"],
        &["--seed=99999999999999999999"],
        &["--seed", "1", "--seed", "1"],
        &["--seed=1", "--seed=1"],
        &["--seed=1", "--seed", "1"],
        &["--seed", "1", "--seed=1"],
        &["--seed", "1", "--count", "2", "--seed=1"],
        &["--count", "0"],
        &["--count=65537"],
        &["--bound=31"],
        &["--workers=0"],
        &["--workers", "17"],
        &["--bands=0"],
        &["--bands", "65"],
        &["--"],
        &["--", "--seed", "1"],
        &["--seed", "1", "--"],
        &["--seed", "--"],
        &["--seed", "--count"],
        &["--seed", "--count=1"],
        &["--seed", "1", "2"],
        &["1", "--seed"],
        &["-seed=1"],
        &["--Seed=1"],
        &["--see=1"],
        &["--seeds=1"],
        &["=1"],
        &["--help"],
        &["--summary"],
        &["--order=2"],
    ];
    for words in cases {
        assert_eq!(rt;
            read_after(rt.alloc(), "sample", words)?,
            Err(WordsFault::Usage),
            "{words:?}"
        );
    }
    Ok(())
}

#[test]
fn gen_wants_a_shape_and_its_order(rt: HostRuntime) {
    let cases: [(&[&str], Command); 7] = [
        (
            &["gen", "--shape", "aztec", "--order", "2"],
            shaped(Shape::Aztec, 2, false, PLAIN),
        ),
        (
            &["gen", "--order=256", "--shape=aztec"],
            shaped(Shape::Aztec, 256, false, PLAIN),
        ),
        (
            &["gen", "--summary", "--order", "128", "--shape", "hexagon"],
            shaped(Shape::Hexagon, 128, true, PLAIN),
        ),
        (
            &["gen", "--order=512", "--summary", "--shape=staircase"],
            shaped(Shape::Staircase, 512, true, PLAIN),
        ),
        (
            &["gen", "--order=256", "--shape=hourglass", "--summary"],
            shaped(Shape::Hourglass, 256, true, PLAIN),
        ),
        (
            &["gen", "--order=1", "--shape=hourglass", "--count=3"],
            shaped(Shape::Hourglass, 1, false, SampleJob { count: 3, ..PLAIN }),
        ),
        (
            &[
                "gen",
                "--seed=5",
                "--order=01",
                "--summary",
                "--shape=hexagon",
                "--bound",
                "0",
            ],
            shaped(
                Shape::Hexagon,
                1,
                true,
                SampleJob {
                    seed: 5,
                    bound: 0,
                    ..PLAIN
                },
            ),
        ),
    ];
    for (words, command) in cases {
        assert_eq!(rt; read_words(rt.alloc(), words), Ok(command), "{words:?}");
    }
}

#[test]
fn words_of_gen_that_are_refused(rt: HostRuntime) -> Result<(), AllocError> {
    let cases: [&[&str]; 22] = [
        &["--order", "2"],
        &["--shape", "aztec"],
        &["--shape=aztec", "--order"],
        &["--shape=aztec", "--order=0"],
        &["--shape", "aztec", "--order", "257"],
        &["--order", "257", "--shape", "aztec"],
        &["--shape=hexagon", "--order=129"],
        &["--shape=staircase", "--order=513"],
        &["--shape=hourglass", "--order=257"],
        &["--shape=Aztec", "--order=2"],
        &["--shape=", "--order=2"],
        &["--shape=square", "--order=2"],
        &["--shape=aztec", "--order=2", "--shape=aztec"],
        &["--shape=aztec", "--order=2", "--order", "2"],
        &["--shape=aztec", "--order=2", "--summary", "--summary"],
        &["--shape=aztec", "--order=2", "--summary="],
        &["--shape=aztec", "--order=2", "--summary=1"],
        &["--shape=aztec", "--order=2", "--summary", "1"],
        &["--shape=aztec", "--order=2", "--summary", "true"],
        &["--shape=aztec", "--order=2", "--count=0"],
        &["--shape=aztec", "--order", "--summary"],
        &["--shape=aztec", "--order=2", "--"],
    ];
    for words in cases {
        assert_eq!(rt;
            read_after(rt.alloc(), "gen", words)?,
            Err(WordsFault::Usage),
            "{words:?}"
        );
    }
    Ok(())
}

// The text of a shape, where the order is one of the shape.
fn text_of(alloc: Global, shape: Shape, order: u32) -> Result<Vec<u8>, AllocError> {
    if order as u64 <= max_order(shape) {
        shape_text(alloc, shape, order)
    } else {
        Ok(Vec::new(alloc))
    }
}

#[test]
fn the_text_of_a_shape_is_its_drawing(rt: HostRuntime) -> Result<(), AllocError> {
    let cases: [(Shape, u32, &[u8]); 10] = [
        (Shape::Aztec, 1, b"square\n##\n##\n"),
        (Shape::Aztec, 2, b"square\n.##\n####\n####\n.##\n"),
        (
            Shape::Aztec,
            3,
            b"square\n..##\n.####\n######\n######\n.####\n..##\n",
        ),
        (Shape::Hexagon, 1, b"triangle\n###\n###\n"),
        (
            Shape::Hexagon,
            2,
            b"triangle\n..#####\n.#######\n.#######\n..#####\n",
        ),
        (Shape::Staircase, 1, b"square\n#\n"),
        (Shape::Staircase, 3, b"square\n#\n##\n###\n"),
        (Shape::Hourglass, 1, b"square\n#\n#\n"),
        (Shape::Hourglass, 2, b"square\n#\n##\n.##\n..#\n"),
        (
            Shape::Hourglass,
            3,
            b"square\n#\n##\n###\n..###\n...##\n....#\n",
        ),
    ];
    for (shape, order, text) in cases {
        assert_eq!(rt;
            text_of(rt.alloc(), shape, order)?.as_slice(),
            text,
            "{shape:?} {order}"
        );
    }
    Ok(())
}

#[test]
fn shapes_have_the_cells_that_formulas_say(rt: HostRuntime) -> Result<(), AllocError> {
    let cases = [
        (Shape::Aztec, 1, 4u32),
        (Shape::Aztec, 16, 544),
        (Shape::Aztec, 256, 131584),
        (Shape::Hexagon, 5, 150),
        (Shape::Hexagon, 128, 98304),
        (Shape::Staircase, 512, 131328),
        (Shape::Hourglass, 256, 65792),
    ];
    for (shape, order, wanted) in cases {
        let mut count = 0u32;
        for byte in text_of(rt.alloc(), shape, order)?.as_slice() {
            if *byte == b'#' {
                count = count.wrapping_add(1);
            }
        }
        assert_eq!(rt; count, wanted, "{shape:?} {order}");
    }
    Ok(())
}

#[test]
fn words_and_numbers_are_added_to_a_text(rt: HostRuntime) -> Result<(), AllocError> {
    let mut text = Text::new(rt.alloc());
    assert_eq!(rt; text.bytes(), b"".as_slice());
    for number in [0, 7, -1, 9223372036854775807, -9223372036854775808] {
        text.word("n ")?;
        text.number(number)?;
        text.word("\n")?;
    }
    assert_eq!(rt;
        text.bytes(),
        b"n 0\nn 7\nn -1\nn 9223372036854775807\nn -9223372036854775808\n".as_slice()
    );
    Ok(())
}

#[test]
fn the_head_of_a_sample_is_one_line(rt: HostRuntime) {
    let most = 18446744073709551615;
    let cases: [(u32, Option<u64>, Option<u64>, &[u8]); 6] = [
        (0, Some(1), None, b"sample 0 start 1\n"),
        (0, Some(4), Some(1), b"sample 0 start 4 rank 1\n"),
        (3, None, None, b"sample 3 late\n"),
        (65535, None, Some(7), b"sample 65535 late\n"),
        (0, Some(1), Some(0), b"sample 0 start 1 rank 0\n"),
        (
            4294967295,
            Some(most),
            Some(most),
            b"sample 4294967295 start 18446744073709551615 rank 18446744073709551615\n",
        ),
    ];
    for (number, start, rank, line) in cases {
        let mut out = [b'?'; 80];
        let length = sample_head(number, start, rank, &mut out);
        assert_eq!(rt; &out[..length], line);
    }
}
