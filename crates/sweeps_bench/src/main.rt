// Times sweeps of a region's bottom tiling, beside a plain loop of `min` and `max` over the same heights.
//
// Usage: sweeps_bench ROUNDS RUNS, with a region on standard input, as for `tilings decide`. Standard output has the
// size of the region and the sum of its heights after so many sweeps, and standard error the processor time of an
// inner corner in the quickest of so many runs.
#![tactic(auto)]

ghost use Rattle.std.specs.Prelude.{◌≡◌, ◌≤◌, length, IfOk};
ghost use Rattle.tl_sweep.specs.Sweeps.{HasWordsFor};

use anyhow::{Context, Result, bail};
use std::alloc::Global;
use std::env;
use std::num::nearest_u64_to_f64;
use std::time::{CpuClock, Duration};
use tl_boundary::circuit;
use tl_extreme::{Verdict, extremes};
use tl_formats::INPUT_LIMIT;
use tl_height::Heights;
use tl_io::{StdSource, read_all};
use tl_region::{Region, read_region};
use tl_sweep::sweep;

// As many words as a sweep reads.
fn words(alloc: Global, region: &Region) -> Result<Vec<u32>>
    ensures { IfOk result (λ words. HasWordsFor region.now words.items) }
{
    let count = (region.inner_count() as usize + 31) / 32;
    Ok(vec![in alloc; 0x9e37_79b9; count]?)
}

// The time of so many sweeps.
fn time_sweeps(
    rt: &impl CpuClock,
    heights: &mut Heights,
    words: &[u32],
    rounds: u32,
) -> Result<Duration>
    requires { HasWordsFor heights.old.region words.now }
    ensures { heights.new.region ≡ heights.old.region }
{
    let start = rt.thread_cpu_time()?;
    for _ in 0..rounds {
        sweep(heights, words);
    }
    Ok(rt.thread_cpu_time()?.saturating_sub(start))
}

// One pass of a lesser and a greater at each place. It is called, so that no two passes are made one.
#[inline(never)]
fn plain_pass(out: &mut [i32], heights: &[i32])
    requires { length out.old ≡ length heights.now }
    ensures { length out.new ≡ length out.old }
{
    for i in 1..out.len() {
        out[i] = heights[i].min(heights[i - 1]).max(out[i]);
    }
}

// The time of so many plain passes.
fn time_passes(
    rt: &impl CpuClock,
    alloc: Global,
    heights: &Heights,
    rounds: u32,
) -> Result<Duration> {
    let numbers = heights.numbers();
    let mut out = numbers.to_vec(alloc)?;
    let start = rt.thread_cpu_time()?;
    for _ in 0..rounds {
        plain_pass(&mut out, numbers);
    }
    Ok(rt.thread_cpu_time()?.saturating_sub(start))
}

// What was found, with the least times.
#[derive(Drop)]
struct Found {
    rows: u32,
    columns: u32,
    corners: u32,
    sum: i64,
    sweeps: Duration,
    passes: Duration,
}

// The sum of all heights.
fn sum_of(heights: &Heights) -> i64 {
    let mut sum: i64 = 0;
    for height in heights.numbers() {
        sum = sum.wrapping_add(i64::from(*height));
    }
    sum
}

// The least times of so many runs, each from the bottom tiling on.
fn measure(
    rt: &impl CpuClock,
    alloc: Global,
    region: &Region,
    rounds: u32,
    runs: u32,
) -> Result<Found> {
    let circuit = circuit(alloc, region)?;
    let Verdict::Pair { low, .. } = extremes(alloc, region, &circuit)? else {
        bail!("the region has no tiling");
    };
    let words = words(alloc, region)?;
    let mut found = Found {
        rows: region.rows(),
        columns: region.columns(),
        corners: region.inner_count(),
        sum: 0,
        sweeps: Duration::MAX,
        passes: Duration::MAX,
    };
    for _ in 0..runs {
        let mut heights = low.copy(alloc)?;
        let time = time_sweeps(rt, &mut heights, &words, rounds)?;
        found.sweeps = found.sweeps.min(time);
        found.sum = sum_of(&heights);
        found.passes = found.passes.min(time_passes(rt, alloc, &heights, rounds)?);
    }
    Ok(found)
}

// Nanoseconds of an inner corner in one round.
fn per_corner(found: &Found, rounds: u32, time: Duration) -> f64 {
    time.as_secs_f64() * 1e9 / (f64::from(rounds) * f64::from(found.corners))
}

fn bench(rt: &impl CpuClock, alloc: Global, input: &[u8], rounds: u32, runs: u32) -> Result<Found>
    requires { length input.now ≤ INPUT_LIMIT }
{
    let (region, _) = read_region(alloc, input)?;
    measure(rt, alloc, &region, rounds, runs)
}

fn main(rt: HostRuntime) -> Result<()> {
    let mut args = env::args(&rt)?;
    args.next();
    let rounds = args.next().context("rounds")?;
    let rounds: u32 = rounds.as_str().parse().context("rounds")?;
    let runs = args.next().context("runs")?;
    let runs: u32 = runs.as_str().parse().context("runs")?;
    let mut source = StdSource::new(rt);
    let input = read_all(rt.alloc(), &mut source, INPUT_LIMIT)?;
    let found = bench(&rt, rt.alloc(), &input, rounds, runs)?;
    println!(rt;
        "{} rows, {} columns, {} inner corners: sum {}",
        found.rows, found.columns, found.corners, found.sum
    )?;
    eprintln!(rt;
        "sweep: {:.3} ns an inner corner",
        per_corner(&found, rounds, found.sweeps)
    )?;
    eprintln!(rt;
        "a plain pass: {:.3} ns an inner corner",
        per_corner(&found, rounds, found.passes)
    )?;
    Ok(())
}
