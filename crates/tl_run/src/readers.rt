//! What the commands read of an input, one after the other.

ghost use Rattle.std.specs.Prelude.{◌≡◌, ◌≤◌, None, Some, true, false, length, IfOk, IfErr, OnOk, OnErr};
ghost use Rattle.tl_formats.specs.Input.{first_section, further_section, rest_is_empty};
ghost use Rattle.tl_formats.specs.RegionText.{IsRegionText};
ghost use Rattle.tl_formats.specs.Drawing.{Draws, drawing_refusal};
ghost use Rattle.tl_formats.specs.ObstructionText.{first_bad_line, told};
ghost use Rattle.tl_obstruction.specs.Told.{told_by};
ghost use Rattle.tl_run.specs.Answers.{Is};
ghost use Rattle.tl_run.specs.Refusals as answers;
ghost use Rattle.tl_run.specs.Readers.{RefusesRegion, RefusesDrawing, RefusesObstruction};
ghost use Rattle.tl_run.specs.Replying.{IfRefused};

use crate::refusals::{drawing_refused, extra_text, obstruction_refused, region_refused};
use crate::reply::Stop;
use std::alloc::Global;
use tl_formats::INPUT_LIMIT;
use tl_obstruction::{Obstruction, read_obstruction};
use tl_region::{Region, read_region, rest_is_empty};
use tl_tiling::{Tiling, read_drawing};

/// The region of the first section, and the bytes that follow it.
pub fn region_of(alloc: Global, input: &[u8]) -> Result<(Region, &[u8]), Stop>
    requires { length input.now ≤ INPUT_LIMIT }
    ensures region { IfOk result (λ p. IsRegionText (first_section input.now).lines p.0) }
    ensures rest { IfOk result (λ p. p.1.now ≡ (first_section input.now).rest) }
    ensures within { IfOk result (λ p. length p.1.now ≤ INPUT_LIMIT) }
    ensures refused { IfErr result (λ stop. IfRefused stop (RefusesRegion input.now)) }
{
    match read_region(alloc, input) {
        Ok((region, taken)) => Ok((region, input.split_at(taken).1)),
        Err(fault) => Err(region_refused(alloc, fault)),
    }
}

/// The tiling that a further section draws, which is drawing of this number, and the bytes that follow it.
pub fn drawing_of<'r, 'b>(
    alloc: Global,
    region: &'r Region,
    drawing: u32,
    bytes: &'b [u8],
) -> Result<(Tiling<'r>, &'b [u8]), Stop>
    requires { length bytes.now ≤ INPUT_LIMIT }
    ensures region { IfOk result (λ p. p.0.region ≡ region.now) }
    ensures allowed { OnOk result (drawing_refusal region.now (further_section bytes.now).lines ≡ None) }
    ensures drawn { IfOk result (λ p. Draws region.now (further_section bytes.now).lines p.0.tiles) }
    ensures rest { IfOk result (λ p. p.1.now ≡ (further_section bytes.now).rest) }
    ensures within { IfOk result (λ p. length p.1.now ≤ INPUT_LIMIT) }
    ensures refused { IfErr result (λ stop. IfRefused stop
        (RefusesDrawing (answers.drawing_refused drawing) region.now bytes.now)) }
{
    match read_drawing(alloc, region, bytes) {
        Ok((tiling, taken)) => Ok((tiling, bytes.split_at(taken).1)),
        Err(fault) => Err(drawing_refused(alloc, drawing, fault)),
    }
}

/// The obstruction of a further section, and the bytes that follow it.
pub fn obstruction_of(alloc: Global, bytes: &[u8]) -> Result<(Obstruction, &[u8]), Stop>
    requires { length bytes.now ≤ INPUT_LIMIT }
    ensures good { OnOk result (first_bad_line (further_section bytes.now).lines ≡ None) }
    ensures told { IfOk result (λ p. told (further_section bytes.now).lines ≡ Some (told_by p.0)) }
    ensures rest { IfOk result (λ p. p.1.now ≡ (further_section bytes.now).rest) }
    ensures refused { IfErr result (λ stop. IfRefused stop (RefusesObstruction bytes.now)) }
{
    match read_obstruction(alloc, bytes) {
        Ok((told, taken)) => Ok((told, bytes.split_at(taken).1)),
        Err(fault) => Err(obstruction_refused(alloc, fault)),
    }
}

/// Only line ends stand there.
pub fn at_end(rest: &[u8]) -> Result<(), Stop>
    ensures empty { OnOk result (rest_is_empty rest.now ≡ true) }
    ensures refused { IfErr result (λ stop. IfRefused stop (Is answers.extra_text)) }
    ensures extra { OnErr result (rest_is_empty rest.now ≡ false) }
{
    if rest_is_empty(rest) {
        Ok(())
    } else {
        Err(Stop::Refused(extra_text()))
    }
}
