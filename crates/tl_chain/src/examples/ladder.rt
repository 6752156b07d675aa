//! A chain of the tests that is lawful only under a premise: a walk on the rungs of a ladder.

ghost use Rattle.std.specs.Prelude.{◌≡◌, ◌≤◌};
ghost use Rattle.tl_chain.specs.Ladder.{IsRung, climbed, ladder};
ghost use Rattle.tl_chain.specs.LadderLaws.{IsLawfulChain-ladder};

use super::walk::goes_up;
use crate::Chain;

/// A walk on the rungs 0, `gap`, 2 `gap`, .., `high`. It goes one rung up or down where a `Walk` goes one place.
#[derive(Drop)]
pub struct Ladder<'a> {
    pub high: u32,
    pub gap: u32,
    pub ups: &'a [bool],
    // one number of gaps leads to a rung
    ghost apart: { 1 ≤ gap },
    // which number leads to the high end is data, and of data a ghost field says only that it is there
    ghost high_rung: { ∥ IsRung gap high ∥₁ },
}

impl<'a> Ladder<'a> {
    /// The ladder of these rungs. It is a lawful chain only where the high end is one.
    pub fn new(high: u32, gap: u32, ups: &'a [bool]) -> Ladder<'a>
        requires apart { 1 ≤ gap }
        requires high_rung { IsRung gap high }
        ensures high { result.high ≡ high }
        ensures gap { result.gap ≡ gap }
        ensures ups { result.ups.now ≡ ups.now }
    {
        Ladder { high, gap, ups }
    }
}

fn climb(high: u32, gap: u32, up: bool, place: u32) -> u32
    ensures { result ≡ climbed high gap up place }
{
    if !up {
        return place.saturating_sub(gap);
    }
    match place.checked_add(gap) {
        Some(next) if next <= high => next,
        _ => place,
    }
}

impl<'a> Chain for Ladder<'a> {
    type State = u32;

    ghost meaning = { λ chain. ladder chain.high chain.gap chain.ups.now };

    ghost laws = { λ chain. IsLawfulChain-ladder chain.high chain.gap chain.ups.now chain.apart chain.high_rung };

    fn ends(&mut self, low: &mut u32, high: &mut u32) {
        *low = 0;
        *high = self.high;
    }

    fn stretch(&mut self, low: &mut u32, high: &mut u32, from: u64) {
        for time in (0..from as usize).rev() {
            let up = goes_up(self.ups, time);
            *low = climb(self.high, self.gap, up, *low);
            *high = climb(self.high, self.gap, up, *high);
        }
    }

    fn same(&self, low: &u32, high: &u32) -> bool {
        *low == *high
    }
}

#[cfg(test)]
mod tests {
    use super::*;
    use crate::{Drawn, draw};

    // Down at time -1, and up at the three times before. From -1 the ends 0 and 8 come to 0 and 4; from -2 by 4 and 8
    // to 0 and 4; from -4 by 4 and 8, 8 and 8, 8 and 8 to 4 and 4.
    #[test]
    fn ends_that_meet_on_the_highest_rung_go_down_from_it(rt: HostRuntime) {
        let mut ladder = Ladder::new(8, 4, &[false, true, true, true]);
        let (mut low, mut high) = (0, 0);
        assert_eq!(rt; draw(&mut ladder, &mut low, &mut high, 30), Drawn::At(4));
        assert_eq!(rt; (low, high), (4, 4));
    }
}
