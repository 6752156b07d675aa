//! The obstruction type.

use tl_lattice::Corner;

/// Why a region has no tiling.
#[derive(Drop)]
pub enum Obstruction {
    /// The sum of the signs of all boundary sides isn't 0.
    Open { total: i64 },
    /// The prefixes of two corners of the circuit differ by more than a directed path from the one to the other
    /// has steps: `rise` is that of the last corner less that of the first.
    Gap { rise: i64, path: Vec<Corner> },
}
