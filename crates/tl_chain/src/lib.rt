//! Coupling from the past over any monotone chain.
//!
//! A chain carries each of its states from a start in the past, time -T, to time 0, by the same random words in
//! every start. `draw` looks for the first of the starts 1, 2, 4, .. from which all lawful states are carried to
//! one. It follows two states only, the chain's low and high end: every other lawful state stays between them.
#![tactic(auto)]

ghost use Rattle.std.specs.Prelude.{◌≡◌, ℕ, ◌^◌, ◌≤◌, ◌↔◌, IsTrue};
ghost use Rattle.tl_chain.specs.Chain.{
  ChainMeaning,
  IsLawfulChain,
  SameMeaning,
  ChainGathers,
  IsChainStart,
  IsChainLate,
  AllCarriedTo,
};

#[cfg(test)]
mod examples;

/// A monotone chain. `docs/OWN_CHAIN.md` shows how to write one.
///
/// No call changes what the chain means, and the two states belong to it before and after each.
pub trait Chain {
    type State;

    /// Which states belong to the chain and which of these are lawful, which state is below which, the two ends,
    /// and to which state a state is carried from a start.
    ghost meaning: { Self → ChainMeaning Self.State };

    /// Puts the two ends into `low` and `high`.
    fn ends(&mut self, low: &mut Self::State, high: &mut Self::State)
        requires low_belongs { (meaning self.old).belongs low.old }
        requires high_belongs { (meaning self.old).belongs high.old }
        ensures low { low.new ≡ (meaning self.old).low }
        ensures high { high.new ≡ (meaning self.old).high }
        ensures low_belongs { (meaning self.old).belongs low.new }
        ensures high_belongs { (meaning self.old).belongs high.new }
        ensures same_meaning { SameMeaning (meaning self.old) (meaning self.new) };

    /// Carries both states from the start `from` to time 0.
    fn stretch(&mut self, low: &mut Self::State, high: &mut Self::State, from: u64)
        requires low_belongs { (meaning self.old).belongs low.old }
        requires high_belongs { (meaning self.old).belongs high.old }
        requires low_lawful { (meaning self.old).lawful low.old }
        requires high_lawful { (meaning self.old).lawful high.old }
        requires below { (meaning self.old).below low.old high.old }
        requires at_least_1 { 1 ≤ from }
        requires in_range { from ≤ 2 ^ 30 }
        ensures low { low.new ≡ (meaning self.old).carried low.old from }
        ensures high { high.new ≡ (meaning self.old).carried high.old from }
        ensures low_belongs { (meaning self.old).belongs low.new }
        ensures high_belongs { (meaning self.old).belongs high.new }
        ensures same_meaning { SameMeaning (meaning self.old) (meaning self.new) };

    /// Whether the two states are the same.
    fn same(&self, low: &Self::State, high: &Self::State) -> bool
        requires low_belongs { (meaning self.now).belongs low.now }
        requires high_belongs { (meaning self.now).belongs high.now }
        ensures { IsTrue result ↔ (low.now ≡ high.now) };

    /// From each start from 1 to 2^30 lawful states are carried to lawful ones, and what is below what stays so. Two
    /// lawful states below each other are the same. The two ends are lawful, and every lawful state is between them.
    ghost laws: { (chain : Self) → IsLawfulChain (meaning chain) };
}

/// What a draw came to: its start, or none up to its bound.
#[derive(Clone, Copy, PartialEq, Eq, Debug)]
pub enum Drawn {
    At(u64),
    Late,
}

/// Carries the two ends from the start `from` to time 0, and tells whether the start gathers.
fn gathers<C: Chain>(chain: &mut C, low: &mut C::State, high: &mut C::State, from: u64) -> bool
    requires at_least_1 { 1 ≤ from }
    requires in_range { from ≤ 2 ^ 30 }
    requires low_belongs { (C.meaning chain.old).belongs low.old }
    requires high_belongs { (C.meaning chain.old).belongs high.old }
    ensures gathers { IsTrue result ↔ ChainGathers (C.meaning chain.old) from }
    ensures low_gathered { IsTrue result → AllCarriedTo (C.meaning chain.old) from low.new }
    ensures high_gathered { IsTrue result → AllCarriedTo (C.meaning chain.old) from high.new }
    ensures low_lawful { (C.meaning chain.old).lawful low.new }
    ensures high_lawful { (C.meaning chain.old).lawful high.new }
    ensures low_belongs { (C.meaning chain.old).belongs low.new }
    ensures high_belongs { (C.meaning chain.old).belongs high.new }
    ensures same_meaning { SameMeaning (C.meaning chain.old) (C.meaning chain.new) }
{
    chain.ends(low, high);
    chain.stretch(low, high, from);
    chain.same(low, high)
}

/// Draws from the chain: looks for the least of the starts 1, 2, 4, .., `2^bound` from which all lawful states are
/// carried to one state.
///
/// `At` gives this start, and `low` and `high` then both hold that state. `Late` comes exactly where there is no such
/// start, and the two are then some lawful states. The chain may draw again after either.
pub fn draw<C: Chain>(chain: &mut C, low: &mut C::State, high: &mut C::State, bound: u32) -> Drawn
    requires bound_in_range { bound ≤ 30 }
    requires low_belongs { (C.meaning chain.old).belongs low.old }
    requires high_belongs { (C.meaning chain.old).belongs high.old }
    ensures at { (T : ℕ) → (result ≡ Drawn.At T) ↔ IsChainStart (C.meaning chain.old) bound T }
    ensures late { (result ≡ Drawn.Late) ↔ IsChainLate (C.meaning chain.old) bound }

    // What the two states are then. From the start all lawful states are carried to either.
    ensures low_gathered { (T : ℕ) → result ≡ Drawn.At T → AllCarriedTo (C.meaning chain.old) T low.new }
    ensures high_gathered { (T : ℕ) → result ≡ Drawn.At T → AllCarriedTo (C.meaning chain.old) T high.new }
    ensures low_lawful { (C.meaning chain.old).lawful low.new }
    ensures high_lawful { (C.meaning chain.old).lawful high.new }
    ensures low_belongs { (C.meaning chain.old).belongs low.new }
    ensures high_belongs { (C.meaning chain.old).belongs high.new }

    ensures same_meaning { SameMeaning (C.meaning chain.old) (C.meaning chain.new) }
{
    for exponent in 0..=bound {
        let from = 1 << exponent;
        if gathers(chain, low, high, from) {
            return Drawn::At(from);
        }
    }
    Drawn::Late
}
