//! A chain of the tests, and an example of a chain of one's own: a walk on the places 0, 1, .., `top`.

ghost use Rattle.std.specs.Prelude.{◌≡◌};
ghost use Rattle.tl_chain.specs.Walk.{stepped, goes_up as goes_up_lem, walk};
ghost use Rattle.tl_chain.specs.WalkLaws.{IsLawfulChain-walk};

use crate::Chain;

/// A walk on the places 0, 1, .., `top`. At time -t it goes one place up where `ups[t - 1]` is true, and one
/// place down where it is false or the list has no such entry. At an end it stays.
#[derive(Drop)]
pub struct Walk<'a> {
    pub top: u32,
    pub ups: &'a [bool],
}

fn step(top: u32, up: bool, place: u32) -> u32
    ensures { result ≡ stepped top up place }
{
    match up {
        true if place < top => place + 1,
        true => place,
        false => place.saturating_sub(1),
    }
}

/// Whether the walk goes up at time -(`time` + 1).
pub fn goes_up(ups: &[bool], time: usize) -> bool
    ensures { result ≡ goes_up_lem ups.now time }
{
    ups.get(time).copied().unwrap_or(false)
}

impl<'a> Chain for Walk<'a> {
    type State = u32;

    ghost meaning = { λ chain. walk chain.top chain.ups.now };

    ghost laws = { λ chain. IsLawfulChain-walk chain.top chain.ups.now };

    fn ends(&mut self, low: &mut u32, high: &mut u32) {
        *low = 0;
        *high = self.top;
    }

    fn stretch(&mut self, low: &mut u32, high: &mut u32, from: u64) {
        for time in (0..from as usize).rev() {
            let up = goes_up(self.ups, time);
            *low = step(self.top, up, *low);
            *high = step(self.top, up, *high);
        }
    }

    fn same(&self, low: &u32, high: &u32) -> bool {
        *low == *high
    }
}

#[cfg(test)]
mod tests {
    use super::*;
    use crate::{Drawn, draw};

    // Up at time -1 takes 0 to 1, and leaves 1 there.
    #[test]
    fn two_places_are_one_after_a_step_up(rt: HostRuntime) {
        let mut walk = Walk {
            top: 1,
            ups: &[true],
        };
        let (mut low, mut high) = (7, 9);
        assert_eq!(rt; draw(&mut walk, &mut low, &mut high, 3), Drawn::At(1));
        assert_eq!(rt; (low, high), (1, 1));
    }

    // Up at time -1, and down before. From -1 the ends 0 and 2 come to 1 and 2; from -2 by 0 and 1 to 1 and 2;
    // from -4 by 0 and 1, 0 and 0, 0 and 0 to 1 and 1. The two meet at place 0 at time -2, and are at place 1
    // at time 0. They would have met from -3 too, which is no power of two.
    #[test]
    fn places_that_meet_before_time_0_go_on_to_it(rt: HostRuntime) {
        let mut walk = Walk {
            top: 2,
            ups: &[true, false, false, false],
        };
        let (mut low, mut high) = (0, 0);
        assert_eq!(rt; draw(&mut walk, &mut low, &mut high, 30), Drawn::At(4));
        assert_eq!(rt; (low, high), (1, 1));
    }

    // The same walk meets from -4 and not from -1 or -2.
    #[test]
    fn a_late_draw_may_be_made_again_with_a_higher_bound(rt: HostRuntime) {
        let mut walk = Walk {
            top: 2,
            ups: &[true, false, false, false],
        };
        let (mut low, mut high) = (0, 0);
        assert_eq!(rt; draw(&mut walk, &mut low, &mut high, 1), Drawn::Late);
        assert!(rt; low <= 2 && high <= 2);
        assert_eq!(rt; draw(&mut walk, &mut low, &mut high, 2), Drawn::At(4));
        assert_eq!(rt; (low, high), (1, 1));
    }
}
