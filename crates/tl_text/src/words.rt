//! Reads the words of the command line.

ghost use Rattle.std.specs.Prelude.{◌≡◌, IfOk, option_and_then, Some, None};
ghost use Rattle.tl_text.specs.Given.{all_seen, texts};
ghost use Rattle.tl_text.specs.Words.{command, gen_of as gen_by, is_summary as summary_by, job_of as job_by, order_of as order_by, plain_command as plain, gen_command, sample_command, settings};
ghost use Rattle.tl_text.specs.declared.fault.WordsFault.TheVariants.{Usage};

use crate::fault::WordsFault;
use crate::settings::{Given, are_sound, has_flag, settings_of, value_of};
use crate::values::{max_order, number_or_default, number_within, shape_of};
use crate::{Command, GenJob, SampleJob, Shape};
use std::alloc::{AllocError, Global};

fn job_of(settings: &[Given<'_>]) -> Option<SampleJob>
    ensures { result ≡ job_by (all_seen settings.now) }
{
    let seed = number_or_default(0, 0, u64::MAX, value_of(settings, "--seed"))?;
    let count = number_or_default(1, 1, 65536, value_of(settings, "--count"))?;
    let bound = number_or_default(24, 0, 30, value_of(settings, "--bound"))?;
    let workers = number_or_default(1, 1, 16, value_of(settings, "--workers"))?;
    let bands = number_or_default(1, 1, 64, value_of(settings, "--bands"))?;
    Some(SampleJob {
        seed,
        count: count as u32,
        bound: bound as u32,
        workers: workers as u32,
        bands: bands as u32,
    })
}

fn order_of(settings: &[Given<'_>], shape: Shape) -> Option<u32>
    ensures { result ≡ order_by (all_seen settings.now) shape }
{
    let order = number_within(1, max_order(shape), value_of(settings, "--order")?)?;
    Some(order as u32)
}

fn gen_of(settings: &[Given<'_>]) -> Option<GenJob>
    ensures { result ≡ gen_by (all_seen settings.now) }
{
    let shape = shape_of(value_of(settings, "--shape")?)?;
    let order = order_of(settings, shape)?;
    let job = job_of(settings)?;
    Some(GenJob {
        shape,
        order,
        summary: has_flag(settings),
        job,
    })
}

fn sample(alloc: Global, words: &[&str]) -> Result<Option<Command>, AllocError>
    ensures { IfOk result (λ asked. asked ≡ option_and_then sample_command (settings (texts words.now))) }
{
    let Some(settings) = settings_of(alloc, words)? else {
        return Ok(None);
    };
    let names = ["--seed", "--count", "--bound", "--workers", "--bands"];
    if !are_sound(&names, &settings) {
        return Ok(None);
    }
    let Some(job) = job_of(&settings) else {
        return Ok(None);
    };
    Ok(Some(Command::Sample(job)))
}

fn generate(alloc: Global, words: &[&str]) -> Result<Option<Command>, AllocError>
    ensures { IfOk result (λ asked. asked ≡ option_and_then gen_command (settings (texts words.now))) }
{
    let Some(settings) = settings_of(alloc, words)? else {
        return Ok(None);
    };
    let names = [
        "--shape",
        "--order",
        "--summary",
        "--seed",
        "--count",
        "--bound",
        "--workers",
        "--bands",
    ];
    if !are_sound(&names, &settings) {
        return Ok(None);
    }
    let Some(job) = gen_of(&settings) else {
        return Ok(None);
    };
    Ok(Some(Command::Gen(job)))
}

fn plain_command(word: &str) -> Option<Command>
    ensures { result ≡ plain word.now }
{
    match word {
        "check" => Some(Command::Check),
        "decide" => Some(Command::Decide),
        "refute" => Some(Command::Refute),
        "flips" => Some(Command::Flips),
        "distance" => Some(Command::Distance),
        _ => None,
    }
}

// What the words ask for.
fn command_of(alloc: Global, words: &[&str]) -> Result<Option<Command>, AllocError>
    ensures { IfOk result (λ asked. asked ≡ command (texts words.now)) }
{
    let Some((first, rest)) = words.split_first() else {
        return Ok(None);
    };
    if *first == "sample" {
        return sample(alloc, rest);
    }
    if *first == "gen" {
        return generate(alloc, rest);
    }
    if !rest.is_empty() {
        return Ok(None);
    }
    Ok(plain_command(first))
}

/// The command that the words after the program's name ask for.
pub fn read_words(alloc: Global, words: &[&str]) -> Result<Command, WordsFault>
    ensures command { IfOk result (λ asked. command (texts words.now) ≡ Some asked) }
    ensures usage { result ≡ Err Usage → command (texts words.now) ≡ None }
{
    match command_of(alloc, words) {
        Ok(Some(command)) => Ok(command),
        Ok(None) => Err(WordsFault::Usage),
        Err(_) => Err(WordsFault::OutOfMemory),
    }
}
