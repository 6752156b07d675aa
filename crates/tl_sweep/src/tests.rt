//! Sweeps of drawn tilings, and sweeps beside the same steps one by one.

ghost use Rattle.std.specs.Prelude.{◌≡◌, ◌≤◌, ◌↔◌, length, IfSome, IsTrue};
ghost use Rattle.tl_definitions.specs.Accepted.{IsCircuit};
ghost use Rattle.tl_sweep.specs.Sweeps.{HasWordsFor};

use crate::{sweep, update};
use std::alloc::{AllocError, Global};
use tl_boundary::{Circuit, circuit};
use tl_formats::INPUT_LIMIT;
use tl_height::{Heights, of_tiling};
use tl_lattice::Kind;
use tl_region::{Region, read_region};
use tl_tiling::read_drawing;

// The Aztec diamond of order 2: it has five inner corners.
const DIAMOND: &[u8] = b"square\n.##\n####\n####\n.##\n";

// Its bottom tiling and its top tiling, and those between that are named here by the inner corners where they are higher
// than the bottom tiling.
const BOTTOM: &[u8] = b".><.\n><><\n><><\n.><.\n";

const TOP: &[u8] = b".vv.\nv^^v\n^vv^\n.^^.\n";

const ONE_HIGH: &[u8] = b".><.\nvv><\n^^><\n.><.\n";

const MIDDLE_HIGH: &[u8] = b".><.\nv><v\n^><^\n.><.\n";

const ONE_LOW: &[u8] = b".><.\nv><v\n^vv^\n.^^.\n";

// The heights of a drawn tiling.
fn heights_of<'r>(
    alloc: Global,
    region: &'r Region,
    circuit: &Circuit,
    drawing: &[u8],
) -> Option<Heights<'r>>
    requires circuit { IsCircuit region.now circuit.now }
    requires drawing { length drawing.now ≤ INPUT_LIMIT }
    ensures { IfSome result (λ heights. heights.region ≡ region.now) }
{
    let (tiling, _) = read_drawing(alloc, region, drawing).ok()?;
    of_tiling(alloc, region, circuit, &tiling).ok()
}

fn has_words_for(region: &Region, words: &[u32]) -> bool
    ensures { IsTrue result ↔ HasWordsFor region.now words.now }
{
    words.len() == (region.inner_count() as usize + 31) / 32
}

// The drawing after a sweep with these words.
fn swept(alloc: Global, text: &[u8], drawing: &[u8], words: &[u32]) -> Option<Vec<u8>>
    requires text { length text.now ≤ INPUT_LIMIT }
    requires drawing { length drawing.now ≤ INPUT_LIMIT }
{
    let (region, _) = read_region(alloc, text).ok()?;
    let circuit = circuit(alloc, &region).ok()?;
    let mut heights = heights_of(alloc, &region, &circuit, drawing)?;
    if !has_words_for(&region, words) {
        return None;
    }
    sweep(&mut heights, words);
    let size = region.rows() as usize * (region.columns() as usize + 1);
    let mut letters = vec![in alloc; b'?'; size].ok()?;
    heights.to_letters(&mut letters);
    Some(letters)
}

fn sweeps_to(alloc: Global, text: &[u8], from: &[u8], words: &[u32], to: &[u8]) -> bool
    requires text { length text.now ≤ INPUT_LIMIT }
    requires from { length from.now ≤ INPUT_LIMIT }
{
    match swept(alloc, text, from, words) {
        Some(letters) => letters[..] == to[..],
        None => false,
    }
}

#[test]
fn sweeps_of_a_diamond(rt: HostRuntime) {
    let cases: [(&[u8], u32, &[u8]); 8] = [
        (BOTTOM, 0x28bd_8653, ONE_HIGH),
        (ONE_HIGH, 0xe56a_5d40, BOTTOM),
        (BOTTOM, 0x903d_f1a0, BOTTOM),
        (BOTTOM, 0xade0_b876, ONE_HIGH),
        (TOP, 0x28bd_8653, TOP),
        (TOP, 0xe56a_5d40, MIDDLE_HIGH),
        (MIDDLE_HIGH, 0x903d_f1a0, BOTTOM),
        (MIDDLE_HIGH, 0xade0_b876, ONE_LOW),
    ];
    for (from, word, to) in cases {
        assert!(rt; sweeps_to(rt.alloc(), DIAMOND, from, &[word], to));
    }
}

#[test]
fn sweeps_of_a_hexagon(rt: HostRuntime) {
    let (text, high, low) = (
        b"triangle\n###\n###\n".as_slice(),
        b"><v\n><^\n".as_slice(),
        b"v><\n^><\n".as_slice(),
    );
    for from in [high, low] {
        assert!(rt; sweeps_to(rt.alloc(), text, from, &[1], high));
        assert!(rt; sweeps_to(rt.alloc(), text, from, &[0], low));
    }
}

#[test]
fn a_region_with_no_inner_corner(rt: HostRuntime) {
    assert!(rt; sweeps_to(rt.alloc(), b"square\n##\n", b"><\n", &[], b"><\n"));
}

// The header, and so many rows of these letters.
fn rows_of(
    alloc: Global,
    header: &[u8],
    letters: &[u8],
    rows: usize,
) -> Result<Vec<u8>, AllocError> {
    let mut text = Vec::from_slice(alloc, header)?;
    for _ in 0..rows {
        text.extend_from_slice(letters)?;
        text.push(b'\n')?;
    }
    Ok(text)
}

// The step at the inner corner of this number, if it is of the class.
fn step_at(heights: &mut Heights, class: u32, i: u32, words: &[u32]) {
    let region = heights.region();
    let word = i as usize / 32;
    if i < region.inner_count() && word < words.len() {
        let corner = region.inner(i);
        let own = match region.kind() {
            Kind::Square => (corner.r % 2 + corner.x % 2) % 2,
            Kind::Triangle => corner.x % 3,
        };
        if own == class {
            update(heights, i, (words[word] >> (i % 32)) & 1 == 1);
        }
    }
}

// Sweeps the one as a whole and the other step by step, and compares them.
fn agree_after(whole: &mut Heights, single: &mut Heights, words: &[u32]) -> bool {
    if !has_words_for(whole.region(), words) {
        return false;
    }
    sweep(whole, words);
    for class in 0..3 {
        for i in 0..single.region().inner_count() {
            step_at(single, class, i, words);
        }
    }
    whole.numbers() == single.numbers()
}

// A row of 68 cells has 67 inner corners, or 33 on the triangular lattice. So rows begin at every bit of a word, and each
// has more than a block.
fn agree(alloc: Global, header: &[u8]) -> Option<bool>
    requires { length header.now ≤ 99 }
{
    let text = rows_of(alloc, header, &[b'#'; 68], 34).ok()?;
    let pairs = b"><><><><><><><><><><><><><><><><><><><><><><><><><><><><><><><><><><";
    let drawing = rows_of(alloc, b"", pairs, 34).ok()?;
    if text.len() > INPUT_LIMIT || drawing.len() > INPUT_LIMIT {
        return None;
    }
    let (region, _) = read_region(alloc, &text).ok()?;
    let circuit = circuit(alloc, &region).ok()?;
    let mut whole = heights_of(alloc, &region, &circuit, &drawing)?;
    let mut single = whole.copy(alloc).ok()?;
    let mut words = Vec::new(alloc);
    let mut word: u32 = 0x9e37_79b9;
    for _ in 0..(region.inner_count() as usize + 31) / 32 {
        word = word.wrapping_mul(0x0019_660d).wrapping_add(0x3c6e_f35f);
        words.push(word ^ word >> 16).ok()?;
    }
    for _ in 0..5 {
        if !agree_after(&mut whole, &mut single, &words) {
            return Some(false);
        }
    }
    Some(true)
}

#[test]
fn a_sweep_is_its_steps_one_by_one(rt: HostRuntime) {
    assert_eq!(rt; agree(rt.alloc(), b"square\n"), Some(true));
    assert_eq!(rt; agree(rt.alloc(), b"triangle\n"), Some(true));
}
