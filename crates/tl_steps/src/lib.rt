//! The step on heights is the step on tiles: what a sweep does to the heights of a tiling.
//!
//! The crate has no code to run. Each of its functions has an empty body, and its contract is a theorem.
#![tactic(auto)]

ghost use Rattle.std.specs.Prelude.{◌≡◌, ℕ, ◌≤◌, Bool, ◌||◌, if◌then◌else◌, List, fold, ℤ, pos, neg_ℤ, ◌+ℤ◌, ◌-ℤ◌, ◌≤ℤ◌, IsTrue};
ghost use Rattle.tl_definitions.specs.declared.Corner.{Corner};
ghost use Rattle.tl_definitions.specs.declared.Tile.{Tile};
ghost use Rattle.tl_definitions.specs.declared.TheConstants.{SIDE_LIMIT};
ghost use Rattle.tl_definitions.specs.Lattice.{rise};
ghost use Rattle.tl_definitions.specs.Limits.{most_height};
ghost use Rattle.tl_definitions.specs.Region.{Region, is_corner_of, is_inner};
ghost use Rattle.tl_definitions.specs.Accepted.{Accepted};
ghost use Rattle.tl_definitions.specs.Tiling.{is_tiling};
ghost use Rattle.tl_definitions.specs.Heights.{height, AreHeights, AreLawful};
ghost use Rattle.tl_definitions.specs.Flip.{stands_high, stands_low};
ghost use Rattle.tl_definitions.specs.Sweep.{step, sweep_class};
ghost use Rattle.tl_lawful.specs.Order.{LieBelow};
ghost use Rattle.tl_steps.specs.Stepping.{AgreeBut, AreChosenOf, AreStepped, AreSwept, highest_at, is_among, is_of_class, lowest_at, stepped_height};

/// What a step may put at an inner corner. The greatest lawful height there, while the others stay, is the present one,
/// raised by the rise of a flip where the tiling stands low. The least is the present one, lowered by it where the tiling
/// stands high.
pub fn highest_and_lowest_at_a_corner()
    ensures highest { (R : Region) (A : List Tile) (numbers : List ℤ) (v : Corner) → Accepted R → IsTrue (is_tiling R A)
        → AreHeights R A numbers → IsTrue (is_inner R v)
        → highest_at R numbers v ≡ (if stands_low R A v then height R numbers v +ℤ pos (rise R.kind) else height R numbers v) }
    ensures lowest { (R : Region) (A : List Tile) (numbers : List ℤ) (v : Corner) → Accepted R → IsTrue (is_tiling R A)
        → AreHeights R A numbers → IsTrue (is_inner R v)
        → lowest_at R numbers v ≡ (if stands_high R A v then height R numbers v -ℤ pos (rise R.kind) else height R numbers v) }
    ensures none_higher { (R : Region) (numbers others : List ℤ) (v : Corner) → AreLawful R others → IsTrue (is_inner R v)
        → AgreeBut R numbers others v → height R others v ≤ℤ highest_at R numbers v }
    ensures none_lower { (R : Region) (numbers others : List ℤ) (v : Corner) → AreLawful R others → IsTrue (is_inner R v)
        → AgreeBut R numbers others v → lowest_at R numbers v ≤ℤ height R others v }
{}

/// Heights after a step on numbers are those of the tiling after the step on tiles. So the step keeps lawful heights lawful.
pub fn step_on_heights()
    ensures tiling { (R : Region) (A : List Tile) (numbers others : List ℤ) (v : Corner) (bit : Bool) → Accepted R
        → IsTrue (is_tiling R A) → AreHeights R A numbers → IsTrue (is_inner R v)
        → AreStepped R numbers others v bit
        → IsTrue (is_tiling R (step R A v bit)) × AreHeights R (step R A v bit) others }
    ensures lawful { (R : Region) (numbers others : List ℤ) (v : Corner) (bit : Bool) → Accepted R → AreLawful R numbers
        → IsTrue (is_inner R v) → AreStepped R numbers others v bit → AreLawful R others }
{}

/// What a step at a corner reads is of other classes. So the steps at all corners of a class may be made at once, from the
/// old heights, and the heights after them are those of the tiling after the steps one by one in raster order.
pub fn a_class_at_once()
    ensures tiling { (R : Region) (A : List Tile) (numbers others : List ℤ) (bits : ℕ → Bool) (k : ℕ) → Accepted R
        → IsTrue (is_tiling R A) → AreHeights R A numbers
        → AreSwept R numbers others bits (is_of_class R k)
        → IsTrue (is_tiling R (sweep_class R bits k A)) × AreHeights R (sweep_class R bits k A) others }
    ensures lawful { (R : Region) (numbers others : List ℤ) (bits : ℕ → Bool) (k : ℕ) → Accepted R
        → AreLawful R numbers → AreSwept R numbers others bits (is_of_class R k) → AreLawful R others }
{}

/// The steps at some of the inner corners of a class, each with its number, in whatever order. The order makes no
/// difference, nor does a corner that stands in the list twice.
pub fn a_part_of_a_class()
    ensures tiling { (R : Region) (A : List Tile) (numbers others : List ℤ) (bits : ℕ → Bool) (k : ℕ)
        (chosen : List (ℕ × Corner)) → Accepted R
        → IsTrue (is_tiling R A) → AreHeights R A numbers
        → AreChosenOf R k chosen
        → AreSwept R numbers others bits (is_among chosen)
        → let B = fold (λ B p. step R B p.1 (bits p.0)) A chosen in
        IsTrue (is_tiling R B) × AreHeights R B others }
    ensures lawful { (R : Region) (numbers others : List ℤ) (bits : ℕ → Bool) (k : ℕ) (chosen : List (ℕ × Corner))
        → Accepted R → AreLawful R numbers → AreChosenOf R k chosen
        → AreSwept R numbers others bits (is_among chosen) → AreLawful R others }
{}

/// The steps at some corners of a class, and then from the new heights those at others of it, are together the steps at all
/// of these from the old heights. So a class may be swept in place, part by part.
pub fn two_parts_of_a_class()
    ensures { (R : Region) (numbers middle others : List ℤ) (bits : ℕ → Bool) (k : ℕ) (first second : Corner → Bool)
        → ((v : Corner) → IsTrue (first v) → IsTrue (is_of_class R k v))
        → ((v : Corner) → IsTrue (second v) → IsTrue (is_of_class R k v))
        → AreSwept R numbers middle bits first → AreSwept R middle others bits second
        → AreSwept R numbers others bits (λ v. first v || second v) }
{}

/// Steps keep the order of heights: where one tiling's heights lie below another's, they do so after the steps at the same
/// corners with the same bits.
pub fn steps_keep_below()
    ensures { (R : Region) (a b a' b' : List ℤ) (bits : ℕ → Bool) (some : Corner → Bool) → LieBelow R a b
        → AreSwept R a a' bits some → AreSwept R b b' bits some → LieBelow R a' b' }
{}

/// In a region within the limits, lawful heights are within theirs, and so is the height that a step puts at an inner
/// corner.
pub fn stepped_heights_are_small()
    ensures low { (R : Region) (numbers : List ℤ) (v : Corner) (bit : Bool) → Accepted R → R.rows ≤ SIDE_LIMIT
        → R.columns ≤ SIDE_LIMIT → AreLawful R numbers
        → IsTrue (is_inner R v) → neg_ℤ (pos most_height) ≤ℤ stepped_height R numbers v bit }
    ensures high { (R : Region) (numbers : List ℤ) (v : Corner) (bit : Bool) → Accepted R → R.rows ≤ SIDE_LIMIT
        → R.columns ≤ SIDE_LIMIT → AreLawful R numbers
        → IsTrue (is_inner R v) → stepped_height R numbers v bit ≤ℤ pos most_height }
    ensures read_low { (R : Region) (numbers : List ℤ) (v : Corner) → Accepted R → R.rows ≤ SIDE_LIMIT
        → R.columns ≤ SIDE_LIMIT → AreLawful R numbers
        → IsTrue (is_corner_of R v) → neg_ℤ (pos most_height) ≤ℤ height R numbers v }
    ensures read_high { (R : Region) (numbers : List ℤ) (v : Corner) → Accepted R → R.rows ≤ SIDE_LIMIT
        → R.columns ≤ SIDE_LIMIT → AreLawful R numbers
        → IsTrue (is_corner_of R v) → height R numbers v ≤ℤ pos most_height }
{}
