//! Steps, sweeps and flips keep tilings; and a region with a tiling has one sample, or is late.
//!
//! The crate has no code to run. Each of its functions has an empty body, and its contract is a theorem. All of them
//! hold of every set of cells in raster order (`IsPlaced`), with holes and pinches too.
#![tactic(auto)]

ghost use Rattle.std.specs.Prelude.{◌≡◌, ◌⊎◌, ℕ, Bool, List, IsTrue};
ghost use Rattle.tl_definitions.specs.declared.Corner.{Corner};
ghost use Rattle.tl_definitions.specs.declared.Tile.{Tile};
ghost use Rattle.tl_definitions.specs.Region.{Region};
ghost use Rattle.tl_definitions.specs.Accepted.{IsPlaced};
ghost use Rattle.tl_definitions.specs.Tiling.{is_tiling, HasTiling};
ghost use Rattle.tl_definitions.specs.Flip.{stands_high, stands_low, can_flip, put_high, put_low, flip};
ghost use Rattle.tl_definitions.specs.Sweep.{step, sweep_class, sweep, carried, Gathers, IsSample, IsLate};

/// Where a tiling stands high, putting it high changes nothing, and where it stands low, putting it low.
pub fn putting_what_stands_changes_nothing()
    ensures high { (R : Region) (A : List Tile) (v : Corner) → IsPlaced R → IsTrue (is_tiling R A)
        → IsTrue (stands_high R A v) → put_high R A v ≡ A }
    ensures low { (R : Region) (A : List Tile) (v : Corner) → IsPlaced R → IsTrue (is_tiling R A)
        → IsTrue (stands_low R A v) → put_low R A v ≡ A }
{}

/// Flips, steps and sweeps keep tilings, whatever the bits. A flip is made where the tiling stands high or low; a step,
/// at any corner.
pub fn steps_keep_tilings()
    ensures by_flip { (R : Region) (A : List Tile) (v : Corner) → IsPlaced R → IsTrue (is_tiling R A)
        → IsTrue (can_flip R A v) → IsTrue (is_tiling R (flip R A v)) }
    ensures by_step { (R : Region) (A : List Tile) (v : Corner) (bit : Bool) → IsPlaced R → IsTrue (is_tiling R A)
        → IsTrue (is_tiling R (step R A v bit)) }
    ensures by_class { (R : Region) (A : List Tile) (bits : ℕ → Bool) (class : ℕ) → IsPlaced R
        → IsTrue (is_tiling R A)
        → IsTrue (is_tiling R (sweep_class R bits class A)) }
    ensures by_sweep { (R : Region) (A : List Tile) (bits : ℕ → Bool) → IsPlaced R → IsTrue (is_tiling R A)
        → IsTrue (is_tiling R (sweep R bits A)) }
    ensures by_sweeps { (R : Region) (A : List Tile) (bits : ℕ → ℕ → Bool) (T : ℕ) → IsPlaced R
        → IsTrue (is_tiling R A)
        → IsTrue (is_tiling R (carried R bits T A)) }
{}

/// It is decided whether a start gathers: that speaks of all tilings of the region, and these are finitely many.
pub fn gathering_is_decided()
    ensures decided { (R : Region) (bits : ℕ → ℕ → Bool) (T : ℕ) → IsPlaced R → Gathers R bits T
        ⊎ (¬ Gathers R bits T) }
{}

/// For all bits and under each bound, a region that has a tiling has a start and a sample, or it is late: none of
/// 1, 2, 4, .., 2 ^ bound gathers. Small regions of both kinds are in `proofs/Examples.antt`, and in
/// `SampleExamples.antt` of `tl_definitions`.
pub fn each_sample_has_a_start_or_is_late()
    ensures either { (R : Region) (bits : ℕ → ℕ → Bool) (bound : ℕ) → IsPlaced R → HasTiling R
        → ((T : ℕ) × (S : List Tile) × IsSample R bits bound T S) ⊎ IsLate R bits bound }
{}

/// There are no two starts and no two samples, and a region that has a sample isn't late.
pub fn one_start_and_sample()
    ensures start { (R : Region) (bits : ℕ → ℕ → Bool) (bound T T' : ℕ) (S S' : List Tile)
        → IsSample R bits bound T S → IsSample R bits bound T' S' → T ≡ T' }
    ensures sample { (R : Region) (bits : ℕ → ℕ → Bool) (bound T T' : ℕ) (S S' : List Tile)
        → IsSample R bits bound T S → IsSample R bits bound T' S' → S ≡ S' }
    ensures never_late { (R : Region) (bits : ℕ → ℕ → Bool) (bound T : ℕ) (S : List Tile)
        → IsSample R bits bound T S → IsLate R bits bound → ⊥ }
{}
