//! The bottom and the top tiling of small regions, packed and unpacked again.

ghost use Rattle.std.specs.Prelude.{◌≡◌, ◌≤◌, IfOk, IfSome, length};
ghost use Rattle.tl_definitions.specs.Accepted.{IsCircuit};
ghost use Rattle.tl_layout.specs.Layouts.{IsLayoutOf};
ghost use Rattle.tl_packed.specs.OfClasses.{AreLows};

use crate::{Packed, Strings};
use std::alloc::{AllocError, Global};
use tl_boundary::{Circuit, circuit};
use tl_formats::INPUT_LIMIT;
use tl_height::{Heights, of_tiling};
use tl_lattice::Kind;
use tl_layout::{Layout, mark_slots};
use tl_region::{Region, read_region};
use tl_tiling::read_drawing;

// A region, and the drawings of its bottom and its top tiling.
struct Example {
    text: &'static [u8],
    bottom: &'static [u8],
    top: &'static [u8],
}

const SQUARES: Example = Example {
    text: b"square\n####\n####\n",
    bottom: b"v><v\n^><^\n",
    top: b"><><\n><><\n",
};

const TRIANGLES: Example = Example {
    text: b"triangle\n###\n###\n",
    bottom: b"v><\n^><\n",
    top: b"><v\n><^\n",
};

// The slots of the inner corners.
fn lows(alloc: Global, region: &Region, layout: &Layout) -> Result<Strings, AllocError>
    requires { IsLayoutOf region.now layout.now }
    ensures { IfOk result (λ strings. AreLows region.now layout.now strings) }
{
    let first = mark_slots(alloc, region, layout, 0)?;
    let second = mark_slots(alloc, region, layout, 1)?;
    match layout.kind {
        Kind::Square => Ok(Strings {
            first,
            second,
            third: Vec::new(alloc),
        }),
        Kind::Triangle => Ok(Strings {
            first,
            second,
            third: mark_slots(alloc, region, layout, 2)?,
        }),
    }
}

// The heights of a drawn tiling.
fn heights<'a>(
    alloc: Global,
    region: &'a Region,
    circuit: &Circuit,
    drawing: &[u8],
) -> Option<Heights<'a>>
    requires circuit { IsCircuit region.now circuit.now }
    requires drawing { length drawing.now ≤ INPUT_LIMIT }
    ensures { IfSome result (λ heights. heights.region ≡ region.now) }
{
    let (tiling, _) = read_drawing(alloc, region, drawing).ok()?;
    of_tiling(alloc, region, circuit, &tiling).ok()
}

// Whether the top tiling, packed, is unpacked into the room of the bottom one.
fn is_unpacked<'a>(
    alloc: Global,
    mut bottom: Heights<'a>,
    top: &Heights<'a>,
) -> Result<bool, AllocError>
    requires { top.now.region ≡ bottom.region }
{
    let packed = Packed::of(alloc, top, Layout::of(top.region()))?;
    let copy = bottom.copy(alloc)?;
    let mut spare = copy.into_numbers();
    packed.unpack(&mut bottom, &mut spare);
    Ok(bottom.numbers() == top.numbers())
}

// Whether the first tiling is the same as its copy and not as the other, and after it has become the other, the other way
// about.
fn are_told_apart(low: &mut Packed, copy: &Packed, high: &Packed, lows: &Strings) -> bool
    requires copy { copy.now ≡ low.old }
    requires layout { high.now.layout ≡ low.old.layout }
    requires region { high.now.heights.region ≡ low.old.heights.region }
    requires lows { AreLows low.old.heights.region low.old.layout lows.now }
{
    let before = (low.is_same(copy, lows), low.is_same(high, lows));
    low.copy_from(high);
    let after = (low.is_same(copy, lows), low.is_same(high, lows));
    before == (true, false) && after == (false, true)
}

// The same of two tilings that are packed.
fn ends_are_told_apart(alloc: Global, bottom: &Heights, top: &Heights) -> Result<bool, AllocError>
    requires { top.now.region ≡ bottom.now.region }
{
    let region = bottom.region();
    let layout = Layout::of(region);
    let lows = lows(alloc, region, &layout)?;
    let mut low = Packed::of(alloc, bottom, layout)?;
    let copy = low.copy(alloc)?;
    let high = Packed::of(alloc, top, layout)?;
    Ok(are_told_apart(&mut low, &copy, &high, &lows))
}

// Whether the tilings of an example are unpacked and told apart.
fn is_right(alloc: Global, example: &Example) -> Option<bool>
    requires text { length example.now.text.now ≤ INPUT_LIMIT }
    requires bottom { length example.now.bottom.now ≤ INPUT_LIMIT }
    requires top { length example.now.top.now ≤ INPUT_LIMIT }
{
    let (region, _) = read_region(alloc, example.text).ok()?;
    let circuit = circuit(alloc, &region).ok()?;
    let bottom = heights(alloc, &region, &circuit, example.bottom)?;
    let top = heights(alloc, &region, &circuit, example.top)?;
    let are_apart = ends_are_told_apart(alloc, &bottom, &top).ok()?;
    let is_unpacked = is_unpacked(alloc, bottom, &top).ok()?;
    Some(are_apart && is_unpacked)
}

#[test]
fn tilings_are_unpacked_and_told_apart(rt: HostRuntime) {
    assert_eq!(rt; is_right(rt.alloc(), &SQUARES), Some(true));
    assert_eq!(rt; is_right(rt.alloc(), &TRIANGLES), Some(true));
}

// Only a type whose values threads may share and pass on can be put here.
fn may_go_to_threads<T: Send + Sync>() {}

#[test]
fn packed_tilings_may_go_to_threads() {
    may_go_to_threads::<Strings>();
    may_go_to_threads::<Packed>();
}
