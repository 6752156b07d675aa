//! Runs over memory: words and input, and the reply, the status and what both ends keep.

ghost use Rattle.std.specs.Prelude.{◌≤◌};

use crate::command_line::words_of;
use crate::run::run_quiet;
use crate::status::Status;
use std::alloc::{AllocError, Global};
use std::env::{Env, FillError};
use std::thread::Threads;
use tl_boundary::circuit;
use tl_extreme::{Verdict, extremes};
use tl_flip::path;
use tl_formats::INPUT_LIMIT;
use tl_height::Heights;
use tl_io::{FreeGate, MemSink, MemSource, Source, Took};
use tl_region::read_region;
use tl_text::{Shape, shape_text};

const USAGE: &[u8] = b"usage: tilings check | decide | refute | flips | distance
       tilings sample [--seed S] [--count N] [--bound B] [--workers W] [--bands K]
       tilings gen --shape aztec|hexagon|staircase|hourglass --order N [--summary] [options of sample]
";

// The status of a command on an input, and what it wrote.
fn answered<R: Threads + Sync>(
    rt: &R,
    alloc: Global,
    command: &str,
    input: &[u8],
) -> Result<(Status, MemSink), AllocError> {
    let bytes = Vec::from_slice(alloc, input)?;
    let mut source = MemSource::new(bytes, 3, Vec::new(alloc));
    let mut sink = MemSink::new(alloc, 300, 7, Vec::new(alloc))?;
    let status = run_quiet(rt, alloc, &[command], &mut source, &mut sink, &FreeGate);
    Ok((status, sink))
}

fn check<R: Threads + Sync>(
    rt: &R,
    alloc: Global,
    input: &[u8],
) -> Result<(Status, MemSink), AllocError> {
    answered(rt, alloc, "check", input)
}

#[test]
fn a_drawing_of_a_tiling_is_accepted_and_another_is_not(rt: HostRuntime) -> Result<(), AllocError> {
    let cases: [(&[u8], &[u8], Status); 16] = [
        (b"square\n##\n##\n\n><\n><\n", b"yes\n", Status::Answered),
        (b"square\n##\n##\n\nvv\n^^\n", b"yes\n", Status::Answered),
        (b"square\n##\n##\n\n>>\n><\n", b"no 0 0\n", Status::Refuted),
        (b"square\n##\n##\n\n><\n<>\n", b"no 1 0\n", Status::Refuted),
        (b"square\n##\n##\n\nv<\n^<\n", b"no 0 1\n", Status::Refuted),
        (b"square\n##\n\n^^\n", b"no 0 0\n", Status::Refuted),
        (b"square\n#\n\n<\n", b"no 0 0\n", Status::Refuted),
        (
            b"square  \r\n##\r\n##\r\n\r\n\r\n><  \r\n><\r\n\r\n",
            b"yes\n",
            Status::Answered,
        ),
        (b"square\n##\n##\n\n><\n><", b"yes\n", Status::Answered),
        (b"square\n##\n##\n\n><\n><\r", b"yes\n", Status::Answered),
        (b"square\n.##.\n\n.>< .\n", b"yes\n", Status::Answered),
        (b"square\n.\n##\n\n\n \n><\n", b"yes\n", Status::Answered),
        (b"square\n.\n##\n\n\n.\n><\n \n", b"yes\n", Status::Answered),
        (
            b"triangle\n###\n###\n\n><v\n><^\n",
            b"yes\n",
            Status::Answered,
        ),
        (
            b"triangle\n###\n###\n\nvvv\n^^^\n",
            b"no 0 1\n",
            Status::Refuted,
        ),
        (
            b"triangle\n###\n###\n\nv><\n^><\n",
            b"yes\n",
            Status::Answered,
        ),
    ];
    for (input, reply, wanted) in cases {
        let (status, sink) = check(&rt, rt.alloc(), input)?;
        assert_eq!(rt; sink.held(), reply, "{input:?}");
        assert_eq!(rt; status, wanted, "{input:?}");
    }
    Ok(())
}

#[test]
fn each_input_has_its_first_refusal(rt: HostRuntime) -> Result<(), AllocError> {
    let cases: [(&[u8], &[u8], Status); 25] = [
        (b"square\n###\n#.#\n###\n\n><\n", b"hole\n", Status::Input),
        (b"square\n###\n#.#\n##.\n", b"pinch 2 2\n", Status::Input),
        (b"square\n#.\n.#\n\n#\n", b"parts 1 1\n", Status::Input),
        (
            b"triangle\n.#\n.#\n\n.v\n.^\n",
            b"parts 1 1\n",
            Status::Input,
        ),
        (b"square\n###\n#.#\n##x\n", b"bad byte 2 2\n", Status::Input),
        (b"", b"bad header\n", Status::Input),
        (b"\nsquare\n##\n", b"bad header\n", Status::Input),
        (b"Square\n##\n\n><\n", b"bad header\n", Status::Input),
        (b"square", b"empty region\n", Status::Input),
        (b"square\n..\n\n><\n", b"empty region\n", Status::Input),
        (b"square\n#x\n\n??\n", b"bad byte 0 1\n", Status::Input),
        (b"square\n##\n#\rx\n", b"bad byte 1 1\n", Status::Input),
        (
            b"square\n##\n",
            b"drawing 1 bad letter 0 0\n",
            Status::Input,
        ),
        (
            b"square\n##\n\n\n \n",
            b"drawing 1 bad letter 0 0\n",
            Status::Input,
        ),
        (
            b"square\n##\n\n>\n",
            b"drawing 1 bad letter 0 1\n",
            Status::Input,
        ),
        (
            b"square\n##\n\n><<\n",
            b"drawing 1 bad letter 0 2\n",
            Status::Input,
        ),
        (
            b"square\n##\n\n><\n.v\n",
            b"drawing 1 bad letter 1 1\n",
            Status::Input,
        ),
        (
            b"square\n##\n##\n\n>>\n>x\n",
            b"drawing 1 bad letter 1 1\n",
            Status::Input,
        ),
        (
            b"square\n##\n##\n\n>>\n",
            b"drawing 1 bad letter 1 0\n",
            Status::Input,
        ),
        (
            b"square\n##\n\n>.\n",
            b"drawing 1 bad letter 0 1\n",
            Status::Input,
        ),
        (b"square\n##\n\n><\n\n##\n", b"extra text\n", Status::Input),
        (
            b"square\n##\n\n><\n\n\r\n .\n",
            b"extra text\n",
            Status::Input,
        ),
        (b"square\n##\n\n><\n\n\r\n\r", b"yes\n", Status::Answered),
        (b"square\n##\n\n><\n\n \n", b"extra text\n", Status::Input),
        (b"square\n##\n\n>>\n\n##\n", b"no 0 0\n", Status::Refuted),
    ];
    for (input, reply, wanted) in cases {
        let (status, sink) = check(&rt, rt.alloc(), input)?;
        assert_eq!(rt; sink.held(), reply, "{input:?}");
        assert_eq!(rt; status, wanted, "{input:?}");
    }
    Ok(())
}

#[test]
fn a_region_has_its_top_tiling_or_a_reason(rt: HostRuntime) -> Result<(), AllocError> {
    let cases: [(&[u8], &[u8], Status); 14] = [
        (b"square\n##\n##\n", b"tiling\n><\n><\n", Status::Answered),
        (
            b"square\r\n##\r\n##\r\n",
            b"tiling\n><\n><\n",
            Status::Answered,
        ),
        (
            b"square\n###\n###\n",
            b"tiling\n><v\n><^\n",
            Status::Answered,
        ),
        (
            b"triangle\n###\n###\n",
            b"tiling\n><v\n><^\n",
            Status::Answered,
        ),
        (b"square\n#\n", b"none open 4\n", Status::Refuted),
        (b"triangle\n#\n", b"none open 3\n", Status::Refuted),
        (b"triangle\n.#\n", b"none open -3\n", Status::Refuted),
        (b"square\n###\n#.#\n###\n", b"hole\n", Status::Input),
        (b"square\n###\n#.#\n##.\n", b"pinch 2 2\n", Status::Input),
        (b"square\n#.\n.#\n", b"parts 1 1\n", Status::Input),
        (b"square\n..\n", b"empty region\n", Status::Input),
        (b"", b"bad header\n", Status::Input),
        (b"square\n#x\n", b"bad byte 0 1\n", Status::Input),
        (b"square\n##\n\n##\n", b"extra text\n", Status::Input),
    ];
    for (input, reply, wanted) in cases {
        let (status, sink) = answered(&rt, rt.alloc(), "decide", input)?;
        assert_eq!(rt; sink.held(), reply, "{input:?}");
        assert_eq!(rt; status, wanted, "{input:?}");
    }
    Ok(())
}

const CHESSBOARD: &[u8] = b"square
########
########
########
########
########
########
########
########
";

const CHESSBOARD_TILED: &[u8] = b"tiling
><><><><
v><><><v
^v><><v^
v^v><v^v
^v^><^v^
v^><><^v
^><><><^
><><><><
";

#[test]
fn a_chessboard_is_tiled_and_one_without_two_corners_is_not(
    rt: HostRuntime,
) -> Result<(), AllocError> {
    let (status, sink) = answered(&rt, rt.alloc(), "decide", CHESSBOARD)?;
    assert_eq!(rt; sink.held(), CHESSBOARD_TILED);
    assert_eq!(rt; status, Status::Answered);
    let mut input = Vec::from_slice(rt.alloc(), CHESSBOARD)?;
    for (i, byte) in input.iter_mut().enumerate() {
        if i == 7 || i == 77 {
            *byte = b'.';
        }
    }
    let (status, sink) = answered(&rt, rt.alloc(), "decide", input.as_slice())?;
    assert_eq!(rt; sink.held(), b"none open -8\n".as_slice());
    assert_eq!(rt; status, Status::Refuted);
    Ok(())
}

#[test]
fn the_gap_of_a_region_is_refuted(rt: HostRuntime) -> Result<(), AllocError> {
    let crossing = b"square\n.#..\n####\n..#.\n".as_slice();
    let hourglass = b"square\n#\n##\n###\n..###\n...##\n....#\n".as_slice();
    for region in [crossing, hourglass] {
        let (status, told) = answered(&rt, rt.alloc(), "decide", region)?;
        assert_eq!(rt; status, Status::Refuted);
        assert!(rt; told.held().starts_with(b"none gap "));
        let mut input = Vec::from_slice(rt.alloc(), region)?;
        input.push(b'\n')?;
        input.extend_from_slice(told.held())?;
        let (status, sink) = answered(&rt, rt.alloc(), "refute", input.as_slice())?;
        assert_eq!(rt; sink.held(), b"refuted\n".as_slice());
        assert_eq!(rt; status, Status::Answered);
    }
    Ok(())
}

#[test]
fn a_reason_without_a_tiling_holds_or_doesnt(rt: HostRuntime) -> Result<(), AllocError> {
    let cases: [(&[u8], &[u8], Status); 13] = [
        (
            b"square\n.#..\n####\n..#.\n\nnone gap 5 1\n2 2\n1 2\n",
            b"refuted\n",
            Status::Answered,
        ),
        (
            b"square\n.#..\n####\n..#.\n\nnone gap 5 1\n1 2\n2 2\n",
            b"not refuted\n",
            Status::Refuted,
        ),
        (
            b"square\n.#..\n####\n..#.\n\nnone gap 5 1\n2 2\n",
            b"bad obstruction 3\n",
            Status::Input,
        ),
        (
            b"square\n##\n##\n\nnone open 4\n",
            b"not refuted\n",
            Status::Refuted,
        ),
        (
            b"square\n#\n\nnone open 4\n",
            b"refuted\n",
            Status::Answered,
        ),
        (
            b"square\n##\n##\n\nnone open 0\n",
            b"not refuted\n",
            Status::Refuted,
        ),
        (
            b"square\n..##.\n..###\n..###\n..#..\n\nnone gap 5 1\n0 3\n0 2\n",
            b"refuted\n",
            Status::Answered,
        ),
        (
            b"square\n##\n##\n\nnone open -0\n",
            b"bad obstruction 1\n",
            Status::Input,
        ),
        (
            b"square\n##\n##\n\nnone  open 4\n",
            b"bad obstruction 1\n",
            Status::Input,
        ),
        (
            b"square\n##\n##\n\nnone open 4\n0 0\n",
            b"bad obstruction 2\n",
            Status::Input,
        ),
        (b"square\n##\n##\n", b"bad obstruction 1\n", Status::Input),
        (
            b"square\n##\n##\n\nnone open 4\n\nx",
            b"extra text\n",
            Status::Input,
        ),
        (
            b"square\n#x\n\nnone open 4\n",
            b"bad byte 0 1\n",
            Status::Input,
        ),
    ];
    for (input, reply, wanted) in cases {
        let (status, sink) = answered(&rt, rt.alloc(), "refute", input)?;
        assert_eq!(rt; status, wanted, "{input:?}");
        assert_eq!(rt; sink.held(), reply, "{input:?}");
    }
    Ok(())
}

#[test]
fn two_drawings_have_a_distance_or_a_refusal(rt: HostRuntime) -> Result<(), AllocError> {
    let cases: [(&[u8], &[u8], Status); 13] = [
        (
            b"square\n###\n###\n\n><v\n><^\n\nv><\n^><\n",
            b"distance 2\n",
            Status::Answered,
        ),
        (
            b"triangle\n###\n###\n\n><v\n><^\n\nv><\n^><\n",
            b"distance 1\n",
            Status::Answered,
        ),
        (
            b"square\r\n###\r\n###\r\n\r\n><v\r\n><^\r\n\r\n\r\n><v\r\n><^",
            b"distance 0\n",
            Status::Answered,
        ),
        (
            b"square\n##\n##\n\n><\n><\n\n>>\n><\n",
            b"drawing 2 unmatched 0 0\n",
            Status::Input,
        ),
        (
            b"square\n##\n##\n\n>>\n><\n\n><\n><\n",
            b"drawing 1 unmatched 0 0\n",
            Status::Input,
        ),
        (
            b"square\n##\n##\n\nx<\n><\n\n>>\n><\n",
            b"drawing 1 bad letter 0 0\n",
            Status::Input,
        ),
        (
            b"square\n##\n##\n\n><\n><\n\n><\n>.\n",
            b"drawing 2 bad letter 1 1\n",
            Status::Input,
        ),
        (
            b"square\n##\n##\n\n><\n><\n",
            b"drawing 2 bad letter 0 0\n",
            Status::Input,
        ),
        (
            b"square\n##\n##\n",
            b"drawing 1 bad letter 0 0\n",
            Status::Input,
        ),
        (
            b"square\n##\n##\n\n><\n><\n\n><\n><\n\n><\n",
            b"extra text\n",
            Status::Input,
        ),
        (
            b"square\n##\n##\n\n>>\n><\n\n><\n><\n\n><\n",
            b"drawing 1 unmatched 0 0\n",
            Status::Input,
        ),
        (
            b"square\n#x\n##\n\n>>\n><\n",
            b"bad byte 0 1\n",
            Status::Input,
        ),
        (
            b"square\n#\n\n>\n\n>\n",
            b"drawing 1 unmatched 0 0\n",
            Status::Input,
        ),
    ];
    for (input, reply, wanted) in cases {
        let (status, sink) = answered(&rt, rt.alloc(), "distance", input)?;
        assert_eq!(rt; sink.held(), reply, "{input:?}");
        assert_eq!(rt; status, wanted, "{input:?}");
        if status == Status::Input {
            let (status, sink) = answered(&rt, rt.alloc(), "flips", input)?;
            assert_eq!(rt; sink.held(), reply, "{input:?}");
            assert_eq!(rt; status, wanted, "{input:?}");
        }
    }
    Ok(())
}

#[test]
fn a_shortest_flip_path_is_told(rt: HostRuntime) -> Result<(), AllocError> {
    let cases: [(&[u8], &[u8]); 3] = [
        (
            b"square\n###\n###\n\n><v\n><^\n\nv><\n^><\n",
            b"flips 2\n1 1\n1 2\n",
        ),
        (b"square\n###\n###\n\n><v\n><^\n\n><v\n><^\n", b"flips 0\n"),
        (
            b"triangle\n###\n###\n\n><v\n><^\n\nv><\n^><\n",
            b"flips 1\n1 2\n",
        ),
    ];
    for (input, reply) in cases {
        let (status, sink) = answered(&rt, rt.alloc(), "flips", input)?;
        assert_eq!(rt; sink.held(), reply, "{input:?}");
        assert_eq!(rt; status, Status::Answered, "{input:?}");
    }
    Ok(())
}

// The drawing of the tiling with these heights.
fn drawn(alloc: Global, heights: &Heights) -> Option<Vec<u8>> {
    let region = heights.region();
    let size = region.rows() as usize * (region.columns() as usize + 1);
    let mut letters = vec![in alloc; b'.'; size].ok()?;
    heights.to_letters(&mut letters);
    Some(letters)
}

// The hexagon of an order, with the drawings of its bottom and its top tiling, and how many flips a path between
// them has, where there is one.
fn hexagon_from_end_to_end(alloc: Global, order: u32) -> Option<(Vec<u8>, Option<usize>)>
    requires { order ≤ 128 }
{
    let mut input = shape_text(alloc, Shape::Hexagon, order).ok()?;
    if input.len() > INPUT_LIMIT {
        return None;
    }
    let (region, _) = read_region(alloc, input.as_slice()).ok()?;
    let circuit = circuit(alloc, &region).ok()?;
    let Verdict::Pair { low, high } = extremes(alloc, &region, &circuit).ok()? else {
        return None;
    };
    for drawing in [drawn(alloc, &low)?, drawn(alloc, &high)?] {
        input.push(b'\n').ok()?;
        input.extend_from_slice(drawing.as_slice()).ok()?;
    }
    let flips = path(alloc, &low, &high).ok().map(|path| path.len());
    Some((input, flips))
}

#[test]
fn a_path_of_more_than_2_20_flips_is_too_long(rt: HostRuntime) -> Result<(), AllocError> {
    let longest = hexagon_from_end_to_end(rt.alloc(), 101);
    assert_eq!(rt; longest.map(|p| p.1), Some(Some(1030301)));
    let too_long = hexagon_from_end_to_end(rt.alloc(), 102);
    assert!(rt; too_long.is_some());
    if let Some((input, flips)) = too_long {
        assert_eq!(rt; flips, None);
        let cases: [(&str, &[u8], Status); 2] = [
            ("flips", b"too long 1061208\n", Status::PathTooLong),
            ("distance", b"distance 1061208\n", Status::Answered),
        ];
        for (command, reply, wanted) in cases {
            let (status, sink) = answered(&rt, rt.alloc(), command, input.as_slice())?;
            assert_eq!(rt; sink.held(), reply);
            assert_eq!(rt; status, wanted);
        }
    }
    Ok(())
}

#[test]
fn a_region_has_at_most_512_rows_and_columns(rt: HostRuntime) -> Result<(), AllocError> {
    let head = b"square\n".as_slice();
    let cases: [(usize, &[u8]); 2] = [
        (512, b"drawing 1 bad letter 0 0\n"),
        (513, b"region too large\n"),
    ];
    for (columns, reply) in cases {
        let row = vec![in rt.alloc(); b'#'; columns]?;
        let mut input = Vec::from_slice(rt.alloc(), head)?;
        input.extend_from_slice(row.as_slice())?;
        let (status, sink) = check(&rt, rt.alloc(), input.as_slice())?;
        assert_eq!(rt; sink.held(), reply);
        assert_eq!(rt; status, Status::Input);
    }
    Ok(())
}

#[test]
fn an_input_has_at_most_four_mebibytes(rt: HostRuntime) -> Result<(), AllocError> {
    let start = b"square\n##\n\n><\n".as_slice();
    let cases: [(usize, &[u8], Status); 2] = [
        (4194304, b"yes\n", Status::Answered),
        (4194305, b"input too long\n", Status::Input),
    ];
    for (size, reply, wanted) in cases {
        let mut input = vec![in rt.alloc(); b'\n'; size]?;
        for (place, byte) in input.iter_mut().zip(start.iter()) {
            *place = *byte;
        }
        let mut source = MemSource::new(input, 1000000, Vec::new(rt.alloc()));
        let mut sink = MemSink::new(rt.alloc(), 64, 64, Vec::new(rt.alloc()))?;
        let status = run_quiet(
            &rt,
            rt.alloc(),
            &["check"],
            &mut source,
            &mut sink,
            &FreeGate,
        );
        assert_eq!(rt; sink.held(), reply);
        assert_eq!(rt; status, wanted);
    }
    Ok(())
}

#[test]
fn words_without_an_answer_leave_the_source(rt: HostRuntime) -> Result<(), AllocError> {
    let lines: [&[&str]; 8] = [
        &[],
        &[""],
        &["Check"],
        &["check", "check"],
        &["check", "--seed", "1"],
        &["--help"],
        &["decide", "decide"],
        &["sample", "--seed"],
    ];
    for words in lines {
        let bytes = Vec::from_slice(rt.alloc(), b"abc")?;
        let mut source = MemSource::new(bytes, 9, Vec::new(rt.alloc()));
        let mut sink = MemSink::new(rt.alloc(), 300, 64, Vec::new(rt.alloc()))?;
        let status = run_quiet(&rt, rt.alloc(), words, &mut source, &mut sink, &FreeGate);
        assert_eq!(rt; sink.held(), USAGE, "{words:?}");
        assert_eq!(rt; status, Status::Usage, "{words:?}");
        let mut buf = [0u8; 8];
        assert_eq!(rt; source.read(&mut buf), Took::Bytes(3), "{words:?}");
    }
    Ok(())
}

#[test]
fn gen_prints_a_shape_and_leaves_the_source(rt: HostRuntime) -> Result<(), AllocError> {
    let cases: [(&[&str], &[u8]); 3] = [
        (
            &["gen", "--shape", "aztec", "--order", "2"],
            b"square\n.##\n####\n####\n.##\n",
        ),
        (
            &["gen", "--order=2", "--shape=staircase", "--count=65536"],
            b"square\n#\n##\n",
        ),
        (
            &["gen", "--shape=hexagon", "--order=1"],
            b"triangle\n###\n###\n",
        ),
    ];
    for (words, reply) in cases {
        let bytes = Vec::from_slice(rt.alloc(), b"abc")?;
        let mut source = MemSource::new(bytes, 9, Vec::new(rt.alloc()));
        let mut sink = MemSink::new(rt.alloc(), 300, 64, Vec::new(rt.alloc()))?;
        let status = run_quiet(&rt, rt.alloc(), words, &mut source, &mut sink, &FreeGate);
        assert_eq!(rt; sink.held(), reply, "{words:?}");
        assert_eq!(rt; status, Status::Answered, "{words:?}");
        let mut buf = [0u8; 8];
        assert_eq!(rt; source.read(&mut buf), Took::Bytes(3), "{words:?}");
    }
    Ok(())
}

#[test]
fn a_failed_read_is_told(rt: HostRuntime) -> Result<(), AllocError> {
    let bytes = Vec::from_slice(rt.alloc(), b"square\n##\n##\n\n><\n><\n")?;
    let fails = Vec::from_slice(rt.alloc(), &[1])?;
    let mut source = MemSource::new(bytes, 4, fails);
    let mut sink = MemSink::new(rt.alloc(), 64, 5, Vec::new(rt.alloc()))?;
    let status = run_quiet(
        &rt,
        rt.alloc(),
        &["check"],
        &mut source,
        &mut sink,
        &FreeGate,
    );
    assert_eq!(rt; sink.held(), b"read fault\n".as_slice());
    assert_eq!(rt; status, Status::ReadFault);
    Ok(())
}

#[test]
fn a_failed_write_cuts_the_reply(rt: HostRuntime) -> Result<(), AllocError> {
    let bytes = Vec::from_slice(rt.alloc(), b"square\n##\n##\n\n><\n")?;
    let mut source = MemSource::new(bytes, 4, Vec::new(rt.alloc()));
    let fails = Vec::from_slice(rt.alloc(), &[1])?;
    let mut sink = MemSink::new(rt.alloc(), 64, 5, fails)?;
    let status = run_quiet(
        &rt,
        rt.alloc(),
        &["check"],
        &mut source,
        &mut sink,
        &FreeGate,
    );
    assert_eq!(rt; sink.held(), b"drawi".as_slice());
    assert_eq!(rt; status, Status::WriteFault);
    Ok(())
}

// A spiral that winds inwards, one cell wide: every second ring of cells round the middle, each led into the next.
fn spiral(alloc: Global) -> Result<Vec<u8>, AllocError> {
    let mut text = Vec::from_slice(alloc, b"square\n")?;
    for r in 0..512u32 {
        for c in 0..512u32 {
            let ring = r.min(c).min(511 - r).min(511 - c);
            let leads_in = ring == c && r == c + 1;
            let inside = (ring % 2 == 0) != leads_in;
            text.push(if inside { b'#' } else { b'.' })?;
        }
        text.push(b'\n')?;
    }
    Ok(text)
}

// A full row, from which every second column hangs down.
fn comb(alloc: Global) -> Result<Vec<u8>, AllocError> {
    let mut text = Vec::from_slice(alloc, b"square\n")?;
    for r in 0..512u32 {
        for c in 0..512u32 {
            text.push(if r == 0 || c % 2 == 0 { b'#' } else { b'.' })?;
        }
        text.push(b'\n')?;
    }
    Ok(text)
}

#[test]
fn a_square_of_512_rows_is_read_with_its_drawing(rt: HostRuntime) -> Result<(), AllocError> {
    let mut input = Vec::from_slice(rt.alloc(), b"square\n")?;
    for _ in 0..512 {
        input.extend_from_slice(vec![in rt.alloc(); b'#'; 512]?.as_slice())?;
        input.push(b'\n')?;
    }
    for _ in 0..512 {
        input.push(b'\n')?;
        for _ in 0..256 {
            input.extend_from_slice(b"><")?;
        }
    }
    let (status, sink) = check(&rt, rt.alloc(), input.as_slice())?;
    assert_eq!(rt; sink.held(), b"yes\n".as_slice());
    assert_eq!(rt; status, Status::Answered);
    Ok(())
}

#[test]
fn long_and_winding_regions_are_accepted(rt: HostRuntime) -> Result<(), AllocError> {
    let mut strip = Vec::from_slice(rt.alloc(), b"triangle\n")?;
    strip.extend_from_slice(vec![in rt.alloc(); b'#'; 512]?.as_slice())?;
    let cell = Vec::from_slice(rt.alloc(), b"square\n#")?;
    for input in [spiral(rt.alloc())?, comb(rt.alloc())?, strip, cell] {
        let (status, sink) = check(&rt, rt.alloc(), input.as_slice())?;
        assert_eq!(rt; sink.held(), b"drawing 1 bad letter 0 0\n".as_slice());
        assert_eq!(rt; status, Status::Input);
    }
    Ok(())
}

// A command line: its arguments, each with a zero byte after it, the program's name first.
#[derive(Drop)]
struct Line<'a>(&'a [u8]);

impl<'a> Env for Line<'a> {
    fn arg(&self, i: usize, buf: &mut [u8]) -> Result<usize, FillError> {
        let mut rest = self.0;
        for _ in 0..i {
            match rest.iter().position(|byte| *byte == 0) {
                Some(end) => rest = &rest[end + 1..],
                None => return Err(FillError::NotPresent),
            }
        }
        let Some(end) = rest.iter().position(|byte| *byte == 0) else {
            return Err(FillError::NotPresent);
        };
        if buf.len() < end {
            return Err(FillError::TooLong);
        }
        buf[..end].copy_from_slice(&rest[..end]);
        Ok(end)
    }

    fn var(&self, _name: &str, _buf: &mut [u8]) -> Result<usize, FillError> {
        Err(FillError::NotPresent)
    }

    fn var_at(&self, _i: usize, _buf: &mut [u8]) -> Result<usize, FillError> {
        Err(FillError::NotPresent)
    }
}

#[test]
fn the_words_are_the_arguments_after_the_name(rt: HostRuntime) -> Result<(), AllocError> {
    let lines: [(&[u8], &[u8]); 6] = [
        (b"tilings\0sample\0--seed\01\0", b"sample\0--seed\01\0"),
        (b"/\xff/tilings\0check\0", b"check\0"),
        (b"tilings\0check\0\xc3\xa9\0", b"check\0\xc3\xa9\0"),
        (b"tilings\0check\0\xff\0", b""),
        (b"tilings\0", b""),
        (b"", b""),
    ];
    for (line, wanted) in lines {
        let words = words_of(&Line(line), rt.alloc())?;
        let mut all = Vec::new(rt.alloc());
        for word in &words {
            all.extend_from_slice(word.as_bytes())?;
            all.push(0)?;
        }
        assert_eq!(rt; all.as_slice(), wanted, "{line:?}");
    }
    Ok(())
}
