//! The outcome of a number of a job.

ghost use Rattle.tl_outcomes.specs.Noted.{HasRoom, HasRoom-prop};

use crate::draw_job::DrawJob;
use crate::noted::{Noted, blank_note};
use std::alloc::{AllocError, Global};
use tl_board::Piece;
use tl_chain::Drawn;
use tl_region::Region;
use tl_text::SampleJob;

/// What a number of a job came to: from how far back its sample was drawn, or that it is late, and what is noted of it.
/// Of a late one `noted` tells nothing.
#[derive(Drop)]
pub struct Outcome<'a> {
    pub region: &'a Region,
    pub job: &'a SampleJob,
    pub drawn: Drawn,
    pub noted: Noted,
    ghost room: { HasRoom region.now noted } by { HasRoom-prop region.now noted },
}

impl<'a> Piece for Outcome<'a> {
    ghost use Rattle.tl_outcomes.specs.Outcomes.{draw_of, entry_of, EntriesOf};

    type Job = DrawJob;

    ghost job = { draw_of };

    ghost filled_for = { λ o n. EntriesOf (draw_of o) n (entry_of o.drawn o.noted n) };
}

impl<'a> Outcome<'a> {
    ghost use Rattle.std.specs.Prelude.{◌≡◌, IfOk};
    ghost use Rattle.tl_outcomes.specs.Noted.{is_rank};

    /// An outcome before anything is drawn for it, with the memory for what is to be noted.
    ///
    /// # Errors
    /// Want of memory.
    pub fn blank(
        alloc: Global,
        region: &'a Region,
        job: &'a SampleJob,
        is_ranked: bool,
    ) -> Result<Outcome<'a>, AllocError>
        ensures region { IfOk result (λ o. o.region.now ≡ region.now) }
        ensures job { IfOk result (λ o. o.job.now ≡ job.now) }
        ensures is_rank { IfOk result (λ o. is_rank o.noted ≡ is_ranked) }
    {
        Ok(Outcome {
            region,
            job,
            drawn: Drawn::Late,
            noted: blank_note(alloc, region, is_ranked)?,
        })
    }
}
