//! Why a tiling has heights: the closing lemma, and tilings and lawful heights as two views of one thing.
//!
//! The crate has no code to run. Each of its functions has an empty body, and its contract is a theorem.
//! `docs/CLOSING.md` tells the proofs.
#![tactic(auto)]

ghost use Rattle.std.specs.Prelude.{◌≡◌, ◌≢◌, ◌⊎◌, Bool, not, [], ◌∷◌, ℕ, slice_get, Some, ◌<◌, length, ◌+◌, ◌-◌, ◌*◌, ◌%◌, List, map, ℤ, pos, negsuc, ◌+ℤ◌, ◌-ℤ◌, ◌*ℤ◌, ◌≤ℤ◌, IsTrue};
ghost use Rattle.std.specs.List.{list_any, list_all};
ghost use Rattle.tl_definitions.specs.declared.Kind.{Kind};
ghost use Rattle.tl_definitions.specs.declared.Corner.{Corner};
ghost use Rattle.tl_definitions.specs.declared.Tile.{Tile};
ghost use Rattle.tl_definitions.specs.Lattice.{corner_eq, class_of, rise, steps_in, steps_out, Side};
ghost use Rattle.tl_definitions.specs.Region.{Region, is_corner_of, is_inner, is_step, inner_corners};
ghost use Rattle.tl_definitions.specs.Accepted.{Accepted, IsPlaced, IsCircuit, circuit_corners, cell_count};
ghost use Rattle.tl_definitions.specs.Obstruction.{sign, prefix, total};
ghost use Rattle.tl_lists.specs.Lists.{int_sum, present, put_at};
ghost use Rattle.tl_definitions.specs.Tiling.{is_tiling};
ghost use Rattle.tl_definitions.specs.Heights.{height, AreHeights, AreHeightsOf, AreLawful};
ghost use Rattle.tl_definitions.specs.Flip.{stands_high, stands_low, flip};
ghost use Rattle.tl_closing.specs.Changed.{IsChangedAt};
ghost use Rattle.tl_closing.specs.Residues.{residue};
ghost use Rattle.tl_closing.specs.Standing.{falls_from, falls_to};
ghost use Rattle.tl_closing.specs.Closing.{ClosesRoundCells, IsPotential, HasOnePotential};
ghost use Rattle.tl_closing.specs.Colours.{dark_count, light_count};

/// The closing lemma. Let each directed step along an edge of an accepted region have a whole number, its
/// difference, such that the differences round each cell of the region add up to 0. Then there is a function on the
/// corners that rises by the difference along each step and is 0 at a given corner of the region, and on the
/// region's corners it is the only one. No other differences have such a function.
pub fn closing_lemma()
    ensures one_potential { (R : Region) → Accepted R → (difference : Corner → Corner → ℤ)
        → ClosesRoundCells R difference → (start : Corner) → IsTrue (is_corner_of R start) → HasOnePotential R difference start }
    ensures no_other { (R : Region) (difference : Corner → Corner → ℤ) (start : Corner) (h : Corner → ℤ)
        → IsPotential R difference start h
        → ClosesRoundCells R difference }
{}

/// Tilings of an accepted region and lawful heights correspond one to one: each tiling has heights and no two,
/// these are lawful, and lawful heights are those of exactly one tiling.
///
/// Heights after W. P. Thurston, "Conway's Tiling Groups".
pub fn tilings_and_lawful_heights()
    ensures heights { (R : Region) (A : List Tile) → Accepted R → IsTrue (is_tiling R A)
        → (numbers : List ℤ) × AreHeights R A numbers
        × ((others : List ℤ) → AreHeights R A others → others ≡ numbers) }
    ensures lawful { (R : Region) (A : List Tile) (numbers : List ℤ) → Accepted R → IsTrue (is_tiling R A)
        → AreHeights R A numbers
        → AreLawful R numbers }
    ensures tiling { (R : Region) (numbers : List ℤ) → Accepted R → AreLawful R numbers
        → (A : List Tile) × IsTrue (is_tiling R A) × AreHeights R A numbers
        × ((B : List Tile) → IsTrue (is_tiling R B) → AreHeights R B numbers → B ≡ A) }
{}

/// At an inner corner a tiling stands high exactly where its heights fall along all steps from the corner, and low
/// exactly where they fall along all steps to it.
pub fn standing_by_heights()
    ensures high { (R : Region) (A : List Tile) (numbers : List ℤ) (v : Corner) → IsTrue (is_tiling R A)
        → AreHeights R A numbers
        → IsTrue (is_inner R v) → stands_high R A v ≡ falls_from R numbers v }
    ensures low { (R : Region) (A : List Tile) (numbers : List ℤ) (v : Corner) → IsTrue (is_tiling R A)
        → AreHeights R A numbers
        → IsTrue (is_inner R v) → stands_low R A v ≡ falls_to R numbers v }
    ensures never_both { (R : Region) (A : List Tile) (v : Corner) → IsTrue (is_tiling R A)
        → IsTrue (stands_high R A v) → IsTrue (stands_low R A v) → ⊥ }
{}

/// The corners of a circuit and the inner corners are corners of the region, and each corner of the region is one of
/// the two and never both: it is on the circuit exactly where it is no inner corner.
pub fn corners_of_the_region()
    ensures on_circuit { (R : Region) (walk : List Side) (k : ℕ) (v : Corner) → IsPlaced R → IsCircuit R walk
        → slice_get (circuit_corners walk) k ≡ Some v → IsTrue (is_corner_of R v) }
    ensures inner { (R : Region) (i : ℕ) (v : Corner) → slice_get (inner_corners R) i ≡ Some v
        → IsTrue (is_corner_of R v) }
    ensures some { (R : Region) (walk : List Side) → Accepted R → IsCircuit R walk → 0 < length walk }
    ensures inner_or_on_circuit { (R : Region) (walk : List Side) (v : Corner) → IsPlaced R → IsCircuit R walk
        → IsTrue (is_corner_of R v) → list_any (corner_eq v) (circuit_corners walk) ≡ not (is_inner R v) }
{}

/// Steps and the corners that they join. All steps from and to an inner corner are steps of the region. A step of the
/// region to a corner is one from its table, and a step joins two classes.
pub fn steps_at_corners()
    ensures from_inner { (R : Region) (v : Corner) → IsTrue (is_inner R v)
        → IsTrue (list_all (is_step R v) (present (steps_out R.kind v))) }
    ensures to_inner { (R : Region) (v : Corner) → IsTrue (is_inner R v)
        → IsTrue (list_all (λ u. is_step R u v) (present (steps_in R.kind v))) }
    ensures comes_from { (R : Region) (u v : Corner) → IsTrue (is_step R u v)
        → IsTrue (list_any (corner_eq u) (present (steps_in R.kind v))) }
    ensures joins_two_classes { (k : Kind) (u v : Corner)
        → IsTrue (list_any (corner_eq v) (present (steps_out k u)))
        → class_of k u ≢ class_of k v }
{}

/// Lawful heights by their differences. Along a step of the region they rise by 1, or fall by the rise of a flip less
/// 1. Two lawful heights differ at each corner of the region by a multiple of the rise.
pub fn differences_of_lawful_heights()
    ensures two_values { (R : Region) (numbers : List ℤ) (u v : Corner) → AreLawful R numbers
        → IsTrue (is_step R u v)
        → (height R numbers v ≡ height R numbers u +ℤ pos 1)
        ⊎ (height R numbers v ≡ height R numbers u +ℤ negsuc (rise R.kind - 2)) }
    ensures same_residue { (R : Region) (numbers others : List ℤ) (v : Corner) → Accepted R → AreLawful R numbers
        → AreLawful R others → IsTrue (is_corner_of R v)
        → (m : ℤ) × (height R others v ≡ height R numbers v +ℤ (pos (rise R.kind) *ℤ m)) }
{}

/// One number put in the place of a corner's height changes the heights at that corner alone.
pub fn putting_a_number_changes_one_height()
    ensures { (R : Region) (numbers : List ℤ) (v : Corner) (more : ℤ) → IsPlaced R → AreHeightsOf R numbers
        → IsTrue (is_corner_of R v) → let place = v.r * (R.columns + 2) + v.x in
        IsChangedAt R numbers (put_at place ((height R numbers v +ℤ more) ∷ []) numbers) v more }
{}

/// Lawful heights stay lawful where one of them, at an inner corner, is raised by the rise of a flip and they fall along
/// all steps to the corner, or is lowered by it and they fall along all steps from the corner.
pub fn raising_and_lowering()
    ensures raised { (R : Region) (numbers others : List ℤ) (v : Corner) → Accepted R → AreLawful R numbers
        → IsTrue (is_inner R v) → IsTrue (falls_to R numbers v) → IsChangedAt R numbers others v (pos (rise R.kind)) → AreLawful R others }
    ensures lowered { (R : Region) (numbers others : List ℤ) (v : Corner) → Accepted R → AreLawful R numbers
        → IsTrue (is_inner R v) → IsTrue (falls_from R numbers v) → IsChangedAt R numbers others v (negsuc (rise R.kind - 1))
        → AreLawful R others }
{}

/// Lawful heights are small: between -n and n, for n four times the number of cells and three times the column.
pub fn lawful_heights_are_small()
    ensures below { (R : Region) (numbers : List ℤ) (v : Corner) → Accepted R → AreLawful R numbers
        → IsTrue (is_corner_of R v) → height R numbers v ≤ℤ pos (4 * cell_count R + 3 * v.x) }
    ensures above { (R : Region) (numbers : List ℤ) (v : Corner) → Accepted R → AreLawful R numbers
        → IsTrue (is_corner_of R v) → pos 0 ≤ℤ (height R numbers v +ℤ pos (4 * cell_count R + 3 * v.x)) }
{}

/// A flip changes one height. Where a tiling stands low, its heights with the one at that corner raised by the rise of
/// a flip are the heights of the flipped tiling; where it stands high, those with the one at that corner lowered by it.
pub fn flips_change_one_height()
    ensures up { (R : Region) (A : List Tile) (numbers others : List ℤ) (v : Corner) → Accepted R
        → IsTrue (is_tiling R A) → AreHeights R A numbers
        → IsTrue (stands_low R A v) → IsChangedAt R numbers others v (pos (rise R.kind))
        → IsTrue (is_tiling R (flip R A v)) × AreHeights R (flip R A v) others }
    ensures down { (R : Region) (A : List Tile) (numbers others : List ℤ) (v : Corner) → Accepted R
        → IsTrue (is_tiling R A) → AreHeights R A numbers
        → IsTrue (stands_high R A v) → IsChangedAt R numbers others v (negsuc (rise R.kind - 1))
        → IsTrue (is_tiling R (flip R A v)) × AreHeights R (flip R A v) others }
{}

/// The signs of the boundary edges add up to the rise of a flip times the number of dark cells less that of light ones.
/// They are those along the circuit.
pub fn total_by_colours()
    ensures colours { (R : Region) → IsPlaced R → total R
        ≡ pos (rise R.kind) *ℤ (pos (dark_count R) -ℤ pos (light_count R)) }
    ensures along { (R : Region) (walk : List Side) → IsPlaced R → IsCircuit R walk
        → int_sum (map sign walk) ≡ total R }
{}

/// The residue of a corner rises by 1, modulo the rise of a flip, along each step of the region. The prefixes along the
/// circuit are the differences of residues, up to a multiple of the rise.
pub fn residues_of_corners()
    ensures along_step { (R : Region) (u v : Corner) → IsTrue (is_step R u v)
        → residue R.kind v ≡ (residue R.kind u + 1) % rise R.kind }
    ensures along_circuit { (R : Region) (walk : List Side) (k : ℕ) (start v : Corner) → IsPlaced R → IsCircuit R walk
        → slice_get (circuit_corners walk) 0 ≡ Some start → slice_get (circuit_corners walk) k ≡ Some v
        → (m : ℤ) × (prefix walk k ≡ (pos (residue R.kind v) -ℤ pos (residue R.kind start)) +ℤ (pos (rise R.kind) *ℤ m)) }
{}

/// From each corner of an accepted region directed steps lead to every other: what each step hands on holds at all
/// corners where it holds at one.
pub fn steps_hand_on()
    ensures { (R : Region) (holds : Corner → Bool) (v w : Corner) → Accepted R
        → ((u t : Corner) → IsTrue (is_step R u t) → IsTrue (holds u) → IsTrue (holds t))
        → IsTrue (is_corner_of R v) → IsTrue (is_corner_of R w) → IsTrue (holds v)
        → IsTrue (holds w) }
{}
