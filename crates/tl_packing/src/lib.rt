//! Tilings in strings of bits: where the marks of corners stand, and that a step at all slots of a class is the step of the
//! class, for both ends of a pair of tilings.
//!
//! The crate has no code to run. Each of its functions has an empty body, and its contract is a theorem.
#![tactic(auto)]

ghost use Rattle.std.specs.Prelude.{◌≡◌, ℕ, ◌+◌, ◌-◌, ◌%◌, ◌<◌, ◌≤◌, Bool, ◌==◌, List, slice_get, Some, ℤ, IsTrue, IsFalse};
ghost use Rattle.tl_definitions.specs.declared.Kind.{Kind};
ghost use Rattle.tl_definitions.specs.declared.Kind.TheVariants.{Square, Triangle};
ghost use Rattle.tl_definitions.specs.declared.Corner.{Corner};
ghost use Rattle.tl_definitions.specs.Lattice.{class_of, is_corner};
ghost use Rattle.tl_definitions.specs.Region.{Region, inner_corners, is_corner_of, is_inner};
ghost use Rattle.tl_definitions.specs.Accepted.{Accepted};
ghost use Rattle.tl_definitions.specs.Heights.{AreLawful};
ghost use Rattle.tl_steps.specs.Stepping.{AreSwept, is_of_class};
ghost use Rattle.tl_strings.specs.Strings.{column, row_of, slot_of, string_bit};
ghost use Rattle.tl_strings.specs.Steps.{coin_bit};
ghost use Rattle.tl_packing.specs.Packing.{AreBesideSquare, AreBesideTriangle, AreFreeSlots, AreLowSlots, AreSameBut, AreSameBitsBut, AreSteppedSquareBits, AreSteppedSquares, AreSteppedTriangleBits, AreSteppedTriangles, HasCoinBits, HasCoins, HoldsBits, HoldsBoth, IsFrame};

/// The corners beside an inner corner are of the region, and have the rows and the slots beside it that a step reads. Its own
/// slot is in no first strip.
pub fn neighbours_in_strings()
    ensures squares { (R : Region) (height first : ℕ) (v : Corner) → R.kind ≡ Square → IsFrame R height first
        → IsTrue (is_inner R v) → AreBesideSquare R first v }
    ensures triangles { (R : Region) (height first : ℕ) (v : Corner) → R.kind ≡ Triangle → IsFrame R height first
        → IsTrue (is_inner R v) → AreBesideTriangle R first v }
    ensures not_first { (R : Region) (height first : ℕ) (v : Corner) → IsFrame R height first → IsTrue (is_inner R v)
        → 64 ≤ slot_of R.kind first v }
{}

/// Two corners of one class and row are at least two columns apart, and so no low slot of its class is beside that of an inner
/// corner. The slots of an inner corner, its own and the one after it, are free and have the coin of this corner. The slots of
/// other corners of the class aren't free.
pub fn one_class_apart()
    ensures apart { (k : Kind) (v w : Corner) → IsTrue (is_corner k v) → IsTrue (is_corner k w)
        → class_of k v ≡ class_of k w → v.r ≡ w.r → v.x < w.x → column k v + 2 ≤ column k w }
    ensures before { (R : Region) (height first k : ℕ) (v : Corner) (lows : List ℕ) → Accepted R → IsFrame R height first
        → AreLowSlots R height first k lows → IsTrue (is_inner R v) → IsTrue (is_of_class R k v)
        → IsFalse (string_bit height lows (row_of v) (slot_of R.kind first v - 1)) }
    ensures behind { (R : Region) (height first k : ℕ) (v : Corner) (lows : List ℕ) → Accepted R → IsFrame R height first
        → AreLowSlots R height first k lows → IsTrue (is_inner R v) → IsTrue (is_of_class R k v)
        → IsFalse (string_bit height lows (row_of v) (slot_of R.kind first v + 1)) }
    ensures coin { (R : Region) (height first k i shift : ℕ) (v : Corner) (bits : ℕ → Bool) (coins lows : List ℕ) → Accepted R
        → IsFrame R height first → AreLowSlots R height first k lows → HasCoins R height first bits coins
        → slice_get (inner_corners R) i ≡ Some v → IsTrue (is_of_class R k v) → shift ≤ 1
        → coin_bit height coins lows (row_of v) (slot_of R.kind first v + shift) ≡ bits i }
    ensures free { (R : Region) (height first k shift : ℕ) (v : Corner) (lows free : List ℕ) → Accepted R
        → IsFrame R height first → AreLowSlots R height first k lows → AreFreeSlots height lows free
        → IsTrue (is_inner R v) → IsTrue (is_of_class R k v) → shift ≤ 1
        → IsTrue (string_bit height free (row_of v) (slot_of R.kind first v + shift)) }
    ensures bound { (R : Region) (height first k shift : ℕ) (v : Corner) (lows free : List ℕ) → Accepted R
        → IsFrame R height first → AreLowSlots R height first k lows → AreFreeSlots height lows free
        → IsTrue (is_corner_of R v) → IsTrue (is_of_class R k v) → IsFalse (is_inner R v) → first ≤ column R.kind v + 1
        → shift ≤ 1 → IsFalse (string_bit height free (row_of v) (slot_of R.kind first v + shift)) }
{}

/// Where strings hold the marks of both ends of a pair of lawful heights, a step at all slots of a class leaves the marks of
/// both ends after the steps at all inner corners of this class, made with the same bits.
pub fn a_class_in_strings()
    ensures squares { (R : Region) (height first k : ℕ) (low high low' high' : List ℤ) (bits : ℕ → Bool)
        (strings new : ℕ → List ℕ) (coins lows free : List ℕ) → R.kind ≡ Square → Accepted R → IsFrame R height first
        → AreLawful R low → AreLawful R high
        → AreSwept R low low' bits (is_of_class R k) → AreSwept R high high' bits (is_of_class R k)
        → HasCoins R height first bits coins → AreLowSlots R height first k lows → AreFreeSlots height lows free
        → AreSameBut k strings new
        → AreSteppedSquares height (strings ((k + 1) % 2)) coins lows free (k == 1) (strings k) (new k)
        → HoldsBoth R height first low high strings → HoldsBoth R height first low' high' new }
    ensures triangles { (R : Region) (height first k : ℕ) (low high low' high' : List ℤ) (bits : ℕ → Bool)
        (strings new : ℕ → List ℕ) (coins lows free : List ℕ) → R.kind ≡ Triangle → Accepted R → IsFrame R height first
        → AreLawful R low → AreLawful R high
        → AreSwept R low low' bits (is_of_class R k) → AreSwept R high high' bits (is_of_class R k)
        → HasCoins R height first bits coins → AreLowSlots R height first k lows → AreFreeSlots height lows free
        → AreSameBut k strings new
        → AreSteppedTriangles height k (strings ((k + 1) % 3)) (strings ((k + 2) % 3)) coins lows free (strings k) (new k)
        → HoldsBoth R height first low high strings → HoldsBoth R height first low' high' new }
{}

/// The same of bits by class, row and slot, for the marks of one end, with a coin for each slot.
pub fn a_class_in_bits()
    ensures squares { (R : Region) (height first k shift : ℕ) (numbers others : List ℤ) (bits : ℕ → Bool)
        (old new : ℕ → ℕ → ℕ → Bool) (coin : ℕ → ℕ → Bool) (lows free : List ℕ) → R.kind ≡ Square → Accepted R
        → IsFrame R height first → AreLawful R numbers → AreSwept R numbers others bits (is_of_class R k)
        → HasCoinBits R first k bits coin → AreLowSlots R height first k lows → AreFreeSlots height lows free
        → AreSameBitsBut k old new
        → AreSteppedSquareBits 1 height (k == 1) (old ((k + 1) % 2)) coin (string_bit height free) (old k) (new k)
        → shift ≤ 1 → HoldsBits R first numbers old shift → HoldsBits R first others new shift }
    ensures triangles { (R : Region) (height first k shift : ℕ) (numbers others : List ℤ) (bits : ℕ → Bool)
        (old new : ℕ → ℕ → ℕ → Bool) (coin : ℕ → ℕ → Bool) (lows free : List ℕ) → R.kind ≡ Triangle → Accepted R
        → IsFrame R height first → AreLawful R numbers → AreSwept R numbers others bits (is_of_class R k)
        → HasCoinBits R first k bits coin → AreLowSlots R height first k lows → AreFreeSlots height lows free
        → AreSameBitsBut k old new
        → AreSteppedTriangleBits 1 height k (old ((k + 1) % 3)) (old ((k + 2) % 3)) coin (string_bit height free)
        (old k) (new k)
        → shift ≤ 1 → HoldsBits R first numbers old shift → HoldsBits R first others new shift }
{}
