//! Lawful heights compared: the corner to raise on the way to higher ones, the greater and the lesser of two, the top and
//! the bottom tiling, and the number of flips between two tilings.
//!
//! The crate has no code to run. Each of its functions has an empty body, and its contract is a theorem.
#![tactic(auto)]

ghost use Rattle.std.specs.Prelude.{◌≡◌, ◌↔◌, ℕ, ◌*◌, List, ℤ, ◌<ℤ◌, IsTrue};
ghost use Rattle.tl_definitions.specs.declared.Corner.{Corner};
ghost use Rattle.tl_definitions.specs.declared.Tile.{Tile};
ghost use Rattle.tl_definitions.specs.Lattice.{rise};
ghost use Rattle.tl_definitions.specs.Region.{Region, is_corner_of, is_inner};
ghost use Rattle.tl_definitions.specs.Accepted.{Accepted};
ghost use Rattle.tl_definitions.specs.Tiling.{is_tiling};
ghost use Rattle.tl_definitions.specs.Heights.{height, AreHeights, AreLawful};
ghost use Rattle.tl_definitions.specs.Flip.{IsTop, IsBottom, IsFlipDistance};
ghost use Rattle.tl_closing.specs.Standing.{falls_from, falls_to};
ghost use Rattle.tl_lawful.specs.HeightGap.{height_gap};
ghost use Rattle.tl_lawful.specs.Order.{AreGreatest, AreLeast, AreGreaterOf, AreLesserOf};

/// Where lawful heights are under others somewhere, they can be raised at an inner corner that is under, too: they
/// fall along all steps to it. Where they are over others, they can be lowered at an inner corner that is over.
///
/// It is the corner under the target whose own height is least: a corner from which a step rises to it would be under
/// the target as well, and less high.
pub fn corner_under_a_target()
    ensures raise { (R : Region) (numbers target : List ℤ) (w : Corner) → Accepted R → AreLawful R numbers
        → AreLawful R target → IsTrue (is_corner_of R w) → height R numbers w <ℤ height R target w
        → (v : Corner) × IsTrue (is_inner R v) × IsTrue (falls_to R numbers v)
        × (height R numbers v <ℤ height R target v) }
    ensures lower { (R : Region) (numbers target : List ℤ) (w : Corner) → Accepted R → AreLawful R numbers
        → AreLawful R target → IsTrue (is_corner_of R w) → height R target w <ℤ height R numbers w
        → (v : Corner) × IsTrue (is_inner R v) × IsTrue (falls_from R numbers v)
        × (height R target v <ℤ height R numbers v) }
{}

/// Corner by corner, the greater of two lawful heights and the lesser of them are lawful.
pub fn greater_and_lesser_heights()
    ensures greater { (R : Region) (a b : List ℤ) → Accepted R → AreLawful R a → AreLawful R b
        → (most : List ℤ) × AreLawful R most × AreGreaterOf R a b most }
    ensures lesser { (R : Region) (a b : List ℤ) → Accepted R → AreLawful R a → AreLawful R b
        → (least : List ℤ) × AreLawful R least × AreLesserOf R a b least }
{}

/// The top tiling has the greatest lawful heights, and the bottom tiling the least; and there are no two of either.
pub fn top_is_greatest()
    ensures top { (R : Region) (A : List Tile) (numbers : List ℤ) → Accepted R → IsTrue (is_tiling R A)
        → AreHeights R A numbers → IsTop R A ↔ AreGreatest R numbers }
    ensures bottom { (R : Region) (A : List Tile) (numbers : List ℤ) → Accepted R → IsTrue (is_tiling R A)
        → AreHeights R A numbers → IsBottom R A ↔ AreLeast R numbers }
    ensures one_top { (R : Region) (A B : List Tile) → Accepted R → IsTop R A → IsTop R B → A ≡ B }
    ensures one_bottom { (R : Region) (A B : List Tile) → Accepted R → IsBottom R A → IsBottom R B → A ≡ B }
{}

/// The least number of flips from one tiling to another is the sum of the differences of their heights, over the rise of a
/// flip.
pub fn distance_by_heights()
    ensures { (R : Region) (A B : List Tile) (a b : List ℤ) → Accepted R → IsTrue (is_tiling R A) → AreHeights R A a
        → IsTrue (is_tiling R B) → AreHeights R B b
        → (n : ℕ) × (height_gap a b ≡ rise R.kind * n) × IsFlipDistance R A B n }
{}
