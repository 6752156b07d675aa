//! A worker that draws samples.

ghost use Rattle.std.specs.Prelude.{◌≡◌, ◌≤◌, length, All, IfOk};
ghost use Rattle.tl_extreme.specs.Verdicts.{AreBottomHeights, AreTopHeights};

use crate::noted::note;
use crate::outcome::Outcome;
use std::alloc::{AllocError, Global};
use tl_chain::Drawn;
use tl_height::Heights;
use tl_sampler::{Sampler, Sampling};
use tl_workers::Worker;

/// Draws the samples of a region and notes what is asked of them.
#[derive(Drop)]
pub struct Drawer<'a, E> {
    pub sampler: E,
    /// The heights of the bottom tiling, from which ranks are counted.
    pub bottom: &'a Heights<'a>,
}

impl<'a> Drawer<'a, Sampler<'a>> {
    /// A drawer for the region of which these are the bottom and the top tiling.
    ///
    /// # Errors
    /// Want of memory.
    pub fn new(
        alloc: Global,
        low: &'a Heights<'a>,
        high: &Heights<'a>,
    ) -> Result<Drawer<'a, Sampler<'a>>, AllocError>
        requires bottom { AreBottomHeights low.now.region low.now }
        requires top { AreTopHeights low.now.region high.now }
        ensures region { IfOk result (λ drawer. drawer.sampler.region ≡ low.now.region) }
        ensures bottom { IfOk result (λ drawer. drawer.bottom.now ≡ low.now) }
    {
        let own = low.copy(alloc)?;
        let sampler = Sampler::new(alloc, own, high)?;
        Ok(Drawer {
            sampler,
            bottom: low,
        })
    }
}

/// So many drawers of one region, each with a sampler of its own.
///
/// # Errors
/// Want of memory.
pub fn drawers<'a>(
    alloc: Global,
    low: &'a Heights<'a>,
    high: &Heights<'a>,
    count: u32,
) -> Result<Vec<Drawer<'a, Sampler<'a>>>, AllocError>
    requires bottom { AreBottomHeights low.now.region low.now }
    requires top { AreTopHeights low.now.region high.now }
    ensures count { IfOk result (λ all. length all.items ≡ count) }
    ensures region { IfOk result (λ all. All (λ d. d.sampler.region ≡ low.now.region) all.items) }
    ensures bottom { IfOk result (λ all. All (λ d. d.bottom.now ≡ low.now) all.items) }
{
    let mut all = Vec::with_capacity(alloc, count as usize)?;
    for worker in 0..count {
        all.push(Drawer::new(alloc, low, high)?)?;
    }
    Ok(all)
}

impl<'a, E: Sampling> Worker<Outcome<'a>> for Drawer<'a, E> {
    ghost serves = { λ d draw. ((E.drawn d.sampler).region ≡ draw.region) × AreBottomHeights draw.region d.bottom.now
        × (draw.job.bound ≤ 30) × E.can_draw d.sampler };

    fn fill(&mut self, number: u32, blank: Outcome<'a>) -> Outcome<'a> {
        let Outcome {
            region,
            job,
            drawn: _,
            noted,
        } = blank;
        let drawn = self.sampler.draw(job.seed, number, job.bound);
        let noted = match drawn {
            Drawn::At(_) => note(self.bottom, self.sampler.sample(), noted),
            Drawn::Late => noted,
        };
        Outcome {
            region,
            job,
            drawn,
            noted,
        }
    }
}
