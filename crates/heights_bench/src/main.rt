// Times the boundary circuit of a region, the heights of a tiling of it, and the letters of these heights.
//
// Usage: heights_bench RUNS, with a region and a drawing on standard input, as for `tilings check`. Standard output has
// what was found, and standard error the processor time of the quickest of so many runs, per place of the region's rows
// and columns.
#![tactic(auto)]

ghost use Rattle.std.specs.Prelude.{◌≡◌, ◌≤◌, ◌^◌, ◌+◌, ◌*◌, length};

use anyhow::{Context, Result};
use std::alloc::Global;
use std::env;
use std::num::nearest_u64_to_f64;
use std::time::{CpuClock, Duration};
use tl_boundary::circuit;
use tl_formats::INPUT_LIMIT;
use tl_height::of_tiling;
use tl_io::{StdSource, read_all};
use tl_region::{Region, read_region};
use tl_tiling::{Tiling, read_drawing};

// The least time of each part.
#[derive(Drop)]
struct Times {
    circuit: Duration,
    heights: Duration,
    letters: Duration,
}

impl Times {
    // Goes once from the tiling to its heights and back to letters.
    fn run(
        &mut self,
        rt: &impl CpuClock,
        alloc: Global,
        region: &Region,
        tiling: &Tiling,
        letters: &mut [u8],
    ) -> Result<()>
        requires tiling { tiling.now.region ≡ region.now }
        requires letters { length letters.old ≡ region.now.rows * (region.now.columns + 1) }
        ensures { length letters.new ≡ length letters.old }
    {
        let start = rt.thread_cpu_time()?;
        let circuit = circuit(alloc, region)?;
        let walked = rt.thread_cpu_time()?;
        let heights = of_tiling(alloc, region, &circuit, tiling)?;
        let filled = rt.thread_cpu_time()?;
        heights.to_letters(letters);
        let drawn = rt.thread_cpu_time()?;
        self.circuit = self.circuit.min(walked.saturating_sub(start));
        self.heights = self.heights.min(filled.saturating_sub(walked));
        self.letters = self.letters.min(drawn.saturating_sub(filled));
        Ok(())
    }
}

// The least times of so many runs, and whether the letters of the heights are the drawing.
fn measure(
    rt: &impl CpuClock,
    alloc: Global,
    region: &Region,
    tiling: &Tiling,
    runs: u32,
) -> Result<(Times, bool)>
    requires { tiling.now.region ≡ region.now }
{
    let size = region.rows() as usize * (region.columns() as usize + 1);
    let mut drawing = vec![in alloc; b'.'; size]?;
    tiling.draw_into(&mut drawing);
    let mut letters = vec![in alloc; b'.'; size]?;
    let mut times = Times {
        circuit: Duration::MAX,
        heights: Duration::MAX,
        letters: Duration::MAX,
    };
    for _ in 0..runs {
        times.run(rt, alloc, region, tiling, &mut letters)?;
    }
    let same = letters == drawing;
    Ok((times, same))
}

// What was found, with the least times.
#[derive(Drop)]
struct Found {
    rows: u32,
    columns: u32,
    cells: u32,
    same: bool,
    times: Times,
}

// Reads the input and measures so many runs.
fn bench(rt: &impl CpuClock, alloc: Global, input: &[u8], runs: u32) -> Result<Found>
    requires { length input.now ≤ INPUT_LIMIT }
{
    let (region, taken) = read_region(alloc, input)?;
    let (_, rest) = input.split_at(taken);
    let (tiling, _) = read_drawing(alloc, &region, rest)?;
    let (times, same) = measure(rt, alloc, &region, &tiling, runs)?;
    Ok(Found {
        rows: region.rows(),
        columns: region.columns(),
        cells: region.cell_count(),
        same,
        times,
    })
}

// Nanoseconds per place of the region's rows and columns.
fn per_place(found: &Found, time: Duration) -> f64 {
    time.as_secs_f64() * 1e9 / (f64::from(found.rows) * f64::from(found.columns))
}

fn main(rt: HostRuntime) -> Result<()> {
    let mut args = env::args(&rt)?;
    args.next();
    let runs = args.next().context("runs")?;
    let runs: u32 = runs.as_str().parse().context("runs")?;
    let mut source = StdSource::new(rt);
    let input = read_all(rt.alloc(), &mut source, INPUT_LIMIT)?;
    let found = bench(&rt, rt.alloc(), &input, runs)?;
    let drawing = if found.same {
        "the drawing"
    } else {
        "another drawing"
    };
    println!(rt;
        "{} rows, {} columns, {} cells, {drawing}",
        found.rows, found.columns, found.cells
    )?;
    eprintln!(rt;
        "circuit: {:.2} ns a place",
        per_place(&found, found.times.circuit)
    )?;
    eprintln!(rt;
        "heights: {:.2} ns a place",
        per_place(&found, found.times.heights)
    )?;
    eprintln!(rt;
        "letters: {:.2} ns a place",
        per_place(&found, found.times.letters)
    )?;
    Ok(())
}
