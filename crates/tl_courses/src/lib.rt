//! What one thread makes of strings of bits, class after class, as bits by class, row and slot.
//!
//! The crate has no code to run. Each of its functions has an empty body, and its contract is a theorem.
#![tactic(auto)]

ghost use Rattle.std.specs.Prelude.{◌≡◌, ℕ, ◌+◌, ◌-◌, ◌<◌, ◌≤◌, ◌≢◌, Bool, List, ℤ, IsFalse};
ghost use Rattle.tl_definitions.specs.Lattice.{classes};
ghost use Rattle.tl_definitions.specs.Region.{Region};
ghost use Rattle.tl_definitions.specs.Accepted.{Accepted};
ghost use Rattle.tl_definitions.specs.Heights.{AreLawful};
ghost use Rattle.tl_strings.specs.Strings.{word_place};
ghost use Rattle.tl_layout.specs.declared.layout.Layout.{Layout};
ghost use Rattle.tl_layout.specs.Layouts.{IsLayoutOf, size_of};
ghost use Rattle.tl_packing.specs.Packing.{HasCoinBits, HoldsBits};
ghost use Rattle.tl_packed.specs.declared.strings.Strings.{Strings};
ghost use Rattle.tl_coupling.specs.Carried.{carried_numbers};
ghost use Rattle.tl_courses.specs.Coins.{coin_of};
ghost use Rattle.tl_courses.specs.Courses.{AreRowsAfter, AreRowsStepped, Course, HasCoinsIn, IsCourseOf, after, bits_of, class_at, steps_of, time_at};

/// Where the strings at the start hold the marks of one end of a pair of lawful heights, the bits after all classes of a
/// stretch hold the marks of these heights carried through its times.
pub fn classes_in_turn()
    ensures { (R : Region) (bits : ℕ → ℕ → Bool) (c : Course) (shift : ℕ) (numbers : List ℤ) → IsCourseOf R bits c
        → AreLawful R numbers → shift ≤ 1 → HoldsBits R c.layout.first numbers (bits_of c.layout.height c.start) shift
        → HoldsBits R c.layout.first (carried_numbers R bits c.from numbers) (after c (steps_of c)) shift }
{}

/// The bit of an inner corner is the coin of its low slot and of the one after it.
pub fn coins_of_a_region()
    ensures { (R : Region) (l : Layout) (k : ℕ) (bits : ℕ → Bool) → Accepted R → IsLayoutOf R l
        → HasCoinBits R l.first k bits (coin_of R l.first bits k) }
{}

/// Steps of the next class in some rows lead from the bits after p classes, in these rows and those beside them, to the bits
/// after one class more. So whoever has the rows beside his own may sweep apart.
pub fn rows_apart()
    ensures { (R : Region) (bits : ℕ → ℕ → Bool) (c : Course) (p first end : ℕ) (coins : List ℕ) (old new : Strings)
        → IsCourseOf R bits c → 1 ≤ first → end < c.layout.height
        → HasCoinsIn R c.layout.height c.layout.first first end (bits (time_at c.layout.kind c.from p)) coins
        → AreRowsAfter c p (first - 1) (end + 1) old
        → AreRowsStepped c.layout c.slots (class_at c.layout.kind p) first end coins old new
        → AreRowsAfter c (p + 1) first end new }
{}

/// A slot that is free in no class keeps its bits, and no bit is set past the words. In the strings of all classes but the one
/// that is swept all bits stay.
pub fn bits_that_stay()
    ensures not_free { (c : Course) (p row slot : ℕ)
        → ((class : ℕ) → class < classes c.layout.kind → IsFalse (bits_of c.layout.height c.slots.free class row slot))
        → (class : ℕ) → after c p class row slot ≡ bits_of c.layout.height c.start class row slot }
    ensures past { (R : Region) (bits : ℕ → ℕ → Bool) (c : Course) (p class row slot : ℕ) → IsCourseOf R bits c
        → class < classes c.layout.kind → size_of c.layout ≤ word_place c.layout.height row slot → IsFalse (after c p class row slot) }
    ensures other_class { (c : Course) (p class row slot : ℕ) → class ≢ class_at c.layout.kind p
        → after c (p + 1) class row slot ≡ after c p class row slot }
{}
