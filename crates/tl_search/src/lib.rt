//! One search for distances and for the greatest and the least heights: numbers that spread from sources along the
//! steps of a finite directed graph, by 1 a step.
#![tactic(auto)]

ghost use Rattle.std.specs.Prelude.{◌≡◌, IsTrue};
ghost use Rattle.tl_lists.specs.Lists.{present};
ghost use Rattle.tl_search.specs.Graphs.{GraphMeaning, reversed};

mod spreading;
#[cfg(test)]
mod tests;

pub use spreading::{Outcome, Source, UNREACHED, spread};

/// A finite directed graph, whose places are numbers below `count`. From each place at most three steps lead.
pub trait Graph {
    ghost meaning: { Self → GraphMeaning };

    /// A number above all places.
    fn count(&self) -> u32
        ensures { result ≡ (meaning self.now).count };

    /// The places to which a step leads from a place.
    fn steps(&self, place: u32) -> [Option<u32>; 3]
        requires { IsTrue ((meaning self.now).is_place place) }
        ensures { present result ≡ (meaning self.now).steps place };

    /// The places from which a step leads to a place.
    fn steps_back(&self, place: u32) -> [Option<u32>; 3]
        requires { IsTrue ((meaning self.now).is_place place) }
        ensures { present result ≡ (meaning self.now).back place };
}

/// A graph with its steps turned round.
#[derive(Drop)]
pub struct Reversed<'a, G>(pub &'a G);

impl<'a, G: Graph> Graph for Reversed<'a, G> {
    ghost meaning = { λ s. reversed (G.meaning s.0.now) };

    fn count(&self) -> u32 {
        self.0.count()
    }

    fn steps(&self, place: u32) -> [Option<u32>; 3] {
        self.0.steps_back(place)
    }

    fn steps_back(&self, place: u32) -> [Option<u32>; 3] {
        self.0.steps(place)
    }
}
