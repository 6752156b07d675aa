// Times the kernels on rows of 64 and of 512 heights, beside a plain loop of `min` over the places.
//
// Usage: lanes_bench ROUNDS RUNS. Standard output has the sum of the row that each kernel wrote, and standard error the
// processor time of a height in the quickest of so many runs, each of so many rounds.
#![tactic(auto)]

ghost use Rattle.std.specs.Prelude.{◌≡◌, ◌≤◌, ◌*◌, length};

use anyhow::{Context, Result};
use std::env;
use std::num::nearest_u64_to_f64;
use std::time::{CpuClock, Duration};
use tl_lanes::{lanes_blend, lanes_greatest, lanes_least};

#[derive(Clone, Copy)]
enum Kernel {
    PlainLeast,
    Least,
    Greatest,
    Blend,
}

// Each kernel is called, so that no two rounds are made one.
#[inline(never)]
fn plain_least(a: &mut [i32], b: &[i32])
    requires { length a.old ≡ length b.now }
{
    for i in 0..a.len() {
        a[i] = a[i].min(b[i]);
    }
}

#[inline(never)]
fn least(a: &mut [i32], b: &[i32])
    requires { length a.old ≡ length b.now }
{
    lanes_least(a, b)
}

#[inline(never)]
fn greatest(a: &mut [i32], b: &[i32])
    requires { length a.old ≡ length b.now }
{
    lanes_greatest(a, b)
}

#[inline(never)]
fn blend(out: &mut [i32], low: &[i32], high: &[i32], bits: &[u32])
    requires low_length { length low.now ≡ length out.old }
    requires high_length { length high.now ≡ length out.old }
    requires enough_bits { length out.old ≤ 32 * length bits.now }
{
    lanes_blend(out, low, high, bits)
}

// The time of so many rounds, and the sum of the row that they wrote.
fn run(rt: &impl CpuClock, kernel: Kernel, size: usize, rounds: u32) -> Result<(Duration, i64)>
    requires { size ≤ 512 }
{
    let (mut row, mut low, mut high) = ([0; 512], [0; 512], [0; 512]);
    let mut bits = [0; 16];
    for i in 0..512 {
        row[i] = (i * 37 % 101) as i32 - 50;
        low[i] = (i * 53 % 97) as i32 - 48;
        high[i] = low[i] + 3;
        bits[i / 32] = i as u32 * 2_654_435 ^ 12_345;
    }
    let out = &mut row[..size];
    let start = rt.thread_cpu_time()?;
    match kernel {
        Kernel::PlainLeast => {
            for _ in 0..rounds {
                plain_least(out, &low[..size]);
            }
        }
        Kernel::Least => {
            for _ in 0..rounds {
                least(out, &low[..size]);
            }
        }
        Kernel::Greatest => {
            for _ in 0..rounds {
                greatest(out, &low[..size]);
            }
        }
        Kernel::Blend => {
            for _ in 0..rounds {
                blend(out, &low[..size], &high[..size], &bits);
            }
        }
    }
    let time = rt.thread_cpu_time()?.saturating_sub(start);
    let mut sum: i64 = 0;
    for height in out.iter() {
        sum = sum.wrapping_add(i64::from(*height));
    }
    Ok((time, sum))
}

fn main(rt: HostRuntime) -> Result<()> {
    let mut args = env::args(&rt)?;
    args.next();
    let rounds = args.next().context("rounds")?;
    let rounds: u32 = rounds.as_str().parse().context("rounds")?;
    let runs = args.next().context("runs")?;
    let runs: u32 = runs.as_str().parse().context("runs")?;
    for size in [64, 512] {
        for (kernel, name) in [
            (Kernel::PlainLeast, "plain least"),
            (Kernel::Least, "least"),
            (Kernel::Greatest, "greatest"),
            (Kernel::Blend, "blend"),
        ] {
            let mut quickest = Duration::MAX;
            let mut sum = 0;
            for _ in 0..runs {
                let (time, written) = run(&rt, kernel, size, rounds)?;
                quickest = quickest.min(time);
                sum = written;
            }
            println!(rt; "{size} heights, {name}: sum {sum}")?;
            let heights = f64::from(rounds) * nearest_u64_to_f64(size as u64);
            let nanoseconds = quickest.as_secs_f64() * 1e9 / heights;
            eprintln!(rt; "{size} heights, {name}: {nanoseconds:.3} ns a height")?;
        }
    }
    Ok(())
}
