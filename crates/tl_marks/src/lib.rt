//! Marks of corners: a tiling told by one bit for each corner, and what a sweep does to these bits.
//!
//! The crate has no code to run. Each of its functions has an empty body, and its contract is a theorem.
#![tactic(auto)]

ghost use Rattle.std.specs.Prelude.{◌≡◌, ℕ, ◌-◌, Bool, ◌&&◌, if◌then◌else◌, List, slice_get, Some, ℤ, pos, negsuc, ◌+ℤ◌, int_lt, IsTrue, IsFalse};
ghost use Rattle.std.specs.List.{list_any};
ghost use Rattle.tl_definitions.specs.declared.Kind.{Kind};
ghost use Rattle.tl_definitions.specs.declared.Corner.{Corner};
ghost use Rattle.tl_definitions.specs.Lattice.{corner_eq, rise, steps_out};
ghost use Rattle.tl_definitions.specs.Region.{Region, inner_corners, is_corner_of, is_inner, is_step};
ghost use Rattle.tl_definitions.specs.Accepted.{Accepted};
ghost use Rattle.tl_definitions.specs.Heights.{height, AreLawful};
ghost use Rattle.tl_lists.specs.Lists.{present};
ghost use Rattle.tl_closing.specs.Standing.{falls_from, falls_to};
ghost use Rattle.tl_steps.specs.Stepping.{AreStepped, AreSwept, is_of_class};
ghost use Rattle.tl_marks.specs.Marks.{base, crossed_by_marks, crossed_from, crossed_to, is_turned, mark, stepped_mark};

/// Along each directed step of the lattice the base rises by 1, or, where the step is turned, falls by the rise of a flip
/// less 1.
pub fn base_along_steps()
    ensures { (k : Kind) (u v : Corner) → IsTrue (list_any (corner_eq v) (present (steps_out k u)))
        → base k v ≡ base k u +ℤ (if is_turned k u v then negsuc (rise k - 2) else pos 1) }
{}

/// Lawful heights fall, by the rise of a flip less 1, along the steps that are crossed by their marks, and rise by 1 along
/// all others.
pub fn steps_by_marks()
    ensures value { (R : Region) (numbers : List ℤ) (u v : Corner) → AreLawful R numbers → IsTrue (is_step R u v)
        → height R numbers v
        ≡ height R numbers u +ℤ (if crossed_by_marks R numbers u v then negsuc (rise R.kind - 2) else pos 1) }
    ensures falls { (R : Region) (numbers : List ℤ) (u v : Corner) → AreLawful R numbers → IsTrue (is_step R u v)
        → crossed_by_marks R numbers u v ≡ int_lt (height R numbers v) (height R numbers u) }
{}

/// Lawful heights with the same marks at all inner corners are the same at every corner, and so are the same numbers.
pub fn marks_tell_the_heights()
    ensures at_corners { (R : Region) (numbers others : List ℤ) (v : Corner) → Accepted R → AreLawful R numbers
        → AreLawful R others → ((w : Corner) → IsTrue (is_inner R w) → mark R others w ≡ mark R numbers w)
        → IsTrue (is_corner_of R v) → height R others v ≡ height R numbers v }
    ensures same { (R : Region) (numbers others : List ℤ) → Accepted R → AreLawful R numbers → AreLawful R others
        → ((w : Corner) → IsTrue (is_inner R w) → mark R others w ≡ mark R numbers w) → others ≡ numbers }
{}

/// At an inner corner lawful heights fall along all steps to it exactly where all of these are crossed by marks, and along
/// all steps from it exactly where all of those are.
pub fn standing_by_marks()
    ensures low { (R : Region) (numbers : List ℤ) (v : Corner) → AreLawful R numbers → IsTrue (is_inner R v)
        → falls_to R numbers v ≡ crossed_to R.kind (mark R numbers) v }
    ensures high { (R : Region) (numbers : List ℤ) (v : Corner) → AreLawful R numbers → IsTrue (is_inner R v)
        → falls_from R numbers v ≡ crossed_from R.kind (mark R numbers) v }
{}

/// A step changes the mark of its corner where the bit is 1 and all steps to the corner are crossed, and where the bit is 0
/// and all steps from it are. It changes no other mark.
pub fn step_by_marks()
    ensures here { (R : Region) (numbers others : List ℤ) (v : Corner) (bit : Bool) → AreLawful R numbers
        → IsTrue (is_inner R v) → AreStepped R numbers others v bit
        → mark R others v ≡ stepped_mark R.kind (mark R numbers) v bit }
    ensures elsewhere { (R : Region) (numbers others : List ℤ) (v w : Corner) (bit : Bool) → AreStepped R numbers others v bit
        → IsTrue (is_corner_of R w) → IsFalse (corner_eq w v) → mark R others w ≡ mark R numbers w }
{}

/// The steps at all inner corners of a class are made at once on marks, too: each mark of the class is told by the old
/// marks and the bit of its corner, and no other changes.
pub fn a_class_by_marks()
    ensures stepped { (R : Region) (numbers others : List ℤ) (bits : ℕ → Bool) (k i : ℕ) (v : Corner) → AreLawful R numbers
        → AreSwept R numbers others bits (is_of_class R k) → slice_get (inner_corners R) i ≡ Some v
        → IsTrue (is_of_class R k v) → mark R others v ≡ stepped_mark R.kind (mark R numbers) v (bits i) }
    ensures kept { (R : Region) (numbers others : List ℤ) (bits : ℕ → Bool) (k : ℕ) (w : Corner)
        → AreSwept R numbers others bits (is_of_class R k) → IsTrue (is_corner_of R w)
        → IsFalse (is_inner R w && is_of_class R k w) → mark R others w ≡ mark R numbers w }
{}
