//! Obstructions: why a region has no tiling, and whether a reason that somebody gives holds.
#![tactic(auto)]

ghost use Rattle.std.specs.Prelude.{List, IsTrue};
ghost use Rattle.tl_definitions.specs.declared.Tile.{Tile};
ghost use Rattle.tl_definitions.specs.Region.{Region};
ghost use Rattle.tl_definitions.specs.Accepted.{Accepted};
ghost use Rattle.tl_definitions.specs.Obstruction as why;
ghost use Rattle.tl_definitions.specs.Tiling.{is_tiling};

mod checking;
mod fault;
mod numbers;
mod obstruction_type;
mod reading;
#[cfg(test)]
mod tests;
mod writing;

pub use checking::check;
pub use fault::TextFault;
pub use obstruction_type::Obstruction;
pub use reading::read_obstruction;
pub use writing::write_obstruction;

/// A region that has an obstruction has no tiling: the heights of a tiling come back to 0 round the circuit, and
/// along a directed path they rise by no more than its steps.
pub fn an_obstructed_region_has_no_tiling()
    ensures { (R : Region) → Accepted R → (o : why.Obstruction) → why.IsObstruction R o → (A : List Tile)
        → ¬ IsTrue (is_tiling R A) }
{}
