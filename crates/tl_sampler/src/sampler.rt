//! Samples of one region.

ghost use Rattle.std.specs.Prelude.{◌≡◌, IfOk};
ghost use Rattle.tl_lawful.specs.Order.{AreGreatest, AreLeast};

use crate::sampling::Sampling;
use std::alloc::{AllocError, Global};
use std::marker::Model;
use tl_bits::Numbered;
use tl_chain::{Drawn, draw};
use tl_coupling::words_of;
use tl_height::Heights;
use tl_packed::Packed;
use tl_packed_chain::PackedChain;

/// Draws the numbered samples of a region, one after the other. It takes all its memory when it is made.
#[derive(Drop)]
pub struct Sampler<'a> {
    chain: PackedChain<'a, Numbered>,
    // the two ends of the draw
    low: Packed<'a>,
    high: Packed<'a>,
    // the sample that was drawn last
    sample: Heights<'a>,
    // room for its numbers
    spare: Vec<i32>,
}

impl<'a> Model for Sampler<'a> {
    ghost use Rattle.tl_height.specs.HeightFunction.{HeightFunction};

    ghost Value = { HeightFunction };

    ghost view = { λ s. s.sample };

    ghost use Rattle.tl_sampler.specs.Drawn.{IsOfChain};

    ghost invariant = { λ s. IsOfChain s.chain.low s.low s.high s.sample.region s.spare.items };
}

impl<'a> Sampler<'a> {
    /// A sampler of the region of which these are the bottom and the top tiling.
    ///
    /// # Errors
    /// Want of memory.
    pub fn new(
        alloc: Global,
        low: Heights<'a>,
        high: &Heights<'a>,
    ) -> Result<Sampler<'a>, AllocError>
        requires one_region { high.now.region ≡ low.region }
        requires bottom { AreLeast low.region low.numbers }
        requires top { AreGreatest low.region high.now.numbers }
        ensures region { IfOk result (λ sampler. sampler.region ≡ low.entry.region) }
    {
        let bits = Numbered::new(0, 0, words_of(&low));
        let chain = PackedChain::new(alloc, &low, high, bits)?;
        Ok(Sampler {
            low: chain.state(alloc)?,
            high: chain.state(alloc)?,
            spare: low.copy(alloc)?.into_numbers(),
            sample: low,
            chain,
        })
    }
}

impl<'a> Sampling for Sampler<'a> {
    ghost use Rattle.std.specs.Prelude.{⊤};

    ghost drawn = { λ s. s };

    ghost can_draw = { λ s. ⊤ };

    // It takes no memory.
    fn draw(&mut self, seed: u64, number: u32, bound: u32) -> Drawn {
        let words = words_of(&self.sample);
        self.chain.set_bits(Numbered::new(seed, number, words));
        let drawn = draw(&mut self.chain, &mut self.low, &mut self.high, bound);
        self.low.unpack(&mut self.sample, &mut self.spare);
        drawn
    }

    fn sample(&self) -> &Heights<'_> {
        &self.sample
    }
}
