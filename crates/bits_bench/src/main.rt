// Times numbered words, read in order and time by time backwards, against the bare generator below them.
//
// Usage: bits_bench WORDS TIMES SLICES, for WORDS words to each of the times -1 to -(TIMES * SLICES). The three
// take turns at slices of TIMES times. Standard output has what was read, and standard error the processor time:
// the mean of a word, and the ratio of the quickest slices, which whatever else the machine does hardly changes.
#![tactic(auto)]

ghost use Rattle.std.specs.Prelude.{◌≡◌, ℕ, ◌+◌, ◌^◌, ◌<◌, ◌≤◌, IfOk};

use anyhow::{Context, Result, ensure};
use rand_chacha::ChaCha20Rng;
use rand_core::SeedableRng;
use rand_core::utils::NextWord;
use std::error::Error;
use std::num::nearest_u64_to_f64;
use std::str::FromStr;
use std::time::{CpuClock, Duration};
use std::{env, io};
use tl_bits::{Bits, Numbered};

// So many words to each of so many times, which follow time -`before`.
#[derive(Clone, Copy)]
struct Slice {
    words: u32,
    before: u64,
    times: u64,
    ghost words_fit: { words ≤ 2 ^ 15 },
    ghost times_fit: { before + times ≤ 2 ^ 30 },
}

impl Slice {
    fn new(words: u32, before: u64, times: u64) -> Result<Slice>
        ensures { IfOk result (λ s. s.words ≡ words) }
    {
        ensure!(
            words <= 1 << 15 && before <= 1 << 30 && times <= (1 << 30) - before,
            "at most 2^15 words and 2^30 times"
        );
        Ok(Slice {
            words,
            before,
            times,
        })
    }
}

// The exclusive or of as many words of the bare generator.
fn read_bare(generator: &mut ChaCha20Rng, slice: Slice) -> u32 {
    let mut sum = 0;
    for _ in 0..slice.times * u64::from(slice.words) {
        sum ^= generator.next_word();
    }
    sum
}

// The exclusive or of the words of these times, from the latest on.
fn read_onwards<B: Bits>(bits: &mut B, slice: Slice) -> u32
    requires { B.words bits.old ≡ slice.words }
    ensures { B.words bits.new ≡ slice.words }
{
    let mut sum = 0;
    'times: for i in 0..slice.times {
        'words: for w in 0..slice.words {
            sum ^= bits.word(slice.before + i + 1, w);
        }
    }
    sum
}

// The same, from the earliest on.
fn read_backwards<B: Bits>(bits: &mut B, slice: Slice) -> u32
    requires { B.words bits.old ≡ slice.words }
    ensures { B.words bits.new ≡ slice.words }
{
    let mut sum = 0;
    'times: for i in (0..slice.times).rev() {
        'words: for w in 0..slice.words {
            sum ^= bits.word(slice.before + i + 1, w);
        }
    }
    sum
}

// What a way of reading took over all, and for its quickest slice, and what it read.
#[derive(Clone, Copy)]
struct Total {
    time: Duration,
    least: Duration,
    sum: u32,
}

impl Total {
    const NOTHING: Total = Total {
        time: Duration::ZERO,
        least: Duration::MAX,
        sum: 0,
    };

    // A slice that was read since a time of the clock.
    fn add(&mut self, rt: &impl CpuClock, start: Duration, sum: u32) -> io::Result<()> {
        let took = rt.thread_cpu_time()?.saturating_sub(start);
        self.time = self.time.saturating_add(took);
        self.least = self.least.min(took);
        self.sum ^= sum;
        Ok(())
    }
}

fn argument<T: FromStr>(args: &mut env::Args, name: &str) -> Result<T>
where
    T::Err: Error,
{
    let text = args.next().context(name)?;
    text.as_str().parse().context(name)
}

fn main(rt: HostRuntime) -> Result<()> {
    let mut args = env::args(&rt)?;
    args.next();
    let words = argument::<u32>(&mut args, "words")?;
    let times = argument::<u64>(&mut args, "times")?;
    let slices = argument::<u32>(&mut args, "slices")?;

    let mut generator = ChaCha20Rng::from_seed([0; 32]);
    let mut up = Numbered::new(0, 0, words);
    let mut down = Numbered::new(0, 0, words);
    let (mut bare, mut onwards, mut backwards) = (Total::NOTHING, Total::NOTHING, Total::NOTHING);
    for i in 0..slices {
        let slice = Slice::new(words, u64::from(i).saturating_mul(times), times)?;
        let start = rt.thread_cpu_time()?;
        bare.add(&rt, start, read_bare(&mut generator, slice))?;
        let start = rt.thread_cpu_time()?;
        onwards.add(&rt, start, read_onwards(&mut up, slice))?;
        let last = u64::from(slices - 1 - i);
        let slice = Slice::new(words, last.saturating_mul(times), times)?;
        let start = rt.thread_cpu_time()?;
        backwards.add(&rt, start, read_backwards(&mut down, slice))?;
    }

    println!(rt;
        "{words} words to each of {} times: {:08x} bare, {:08x} onwards, {:08x} backwards",
        times.saturating_mul(u64::from(slices)),
        bare.sum,
        onwards.sum,
        backwards.sum
    )?;
    let count = nearest_u64_to_f64(times) * f64::from(words) * f64::from(slices);
    for (name, total) in [
        ("bare", bare),
        ("onwards", onwards),
        ("backwards", backwards),
    ] {
        let nanoseconds = total.time.as_secs_f64() * 1e9 / count;
        let ratio = total.least.div_duration_f64(bare.least);
        eprintln!(rt; "{name}: {nanoseconds:.2} ns a word, ratio {ratio:.2}")?;
    }
    Ok(())
}
