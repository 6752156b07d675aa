//! Checking an obstruction.

ghost use Rattle.std.specs.Prelude.{◌≡◌, ◌↔◌, IsTrue};
ghost use Rattle.tl_definitions.specs.Region.{is_step as is_step_of};
ghost use Rattle.tl_definitions.specs.Accepted.{IsCircuit};
ghost use Rattle.tl_definitions.specs.Obstruction as why;
ghost use Rattle.tl_definitions.specs.Obstruction.{IsGap, IsObstruction};
ghost use Rattle.tl_lists.specs.Lists.{linked};
ghost use Rattle.tl_obstruction.specs.Told.{told_by};

use crate::obstruction_type::Obstruction;
use tl_boundary::Circuit;
use tl_definitions::SIDE_LIMIT;
use tl_lattice::Corner;
use tl_region::Region;

// Whether a directed step of the region leads from each corner to the next.
fn is_directed(region: &Region, path: &[Corner]) -> bool
    ensures { result ≡ linked (is_step_of region.now) path.now }
{
    for k in 1..path.len() {
        if !region.is_step(path[k - 1], path[k]) {
            return false;
        }
    }
    true
}

// Whether this is the total, and isn't 0.
fn is_open(region: &Region, circuit: &Circuit, total: i64) -> bool
    requires { IsCircuit region.now circuit.now }
    ensures { IsTrue result ↔ IsObstruction region.now (why.Open total) }
{
    // the region's calls tell that it is accepted
    prove!(region.rows() <= SIDE_LIMIT);
    total != 0 && total == circuit.total()
}

// Whether the path leads from the circuit to the circuit, and the prefixes rise by so much, and by more than it
// has steps.
fn is_gap(region: &Region, circuit: &Circuit, rise: i64, path: &[Corner]) -> bool
    requires { IsCircuit region.now circuit.now }
    ensures { IsTrue result ↔ IsGap region.now rise path.now }
{
    // the region's calls tell that it is accepted
    prove!(region.rows() <= SIDE_LIMIT);
    if path.is_empty() {
        return false;
    }
    let steps = path.len() - 1;
    let Some(k) = circuit.place_of(path[0]) else {
        return false;
    };
    let Some(l) = circuit.place_of(path[steps]) else {
        return false;
    };
    if rise != circuit.rise_between(k, l) {
        return false;
    }
    rise > steps as i64 && is_directed(region, path)
}

/// Whether it is an obstruction of the region. The path of a gap may be any corners, also far outside.
pub fn check(region: &Region, circuit: &Circuit, told: &Obstruction) -> bool
    requires { IsCircuit region.now circuit.now }
    ensures { IsTrue result ↔ IsObstruction region.now (told_by told.now) }
{
    match told {
        Obstruction::Open { total } => is_open(region, circuit, *total),
        Obstruction::Gap { rise, path } => is_gap(region, circuit, *rise, path.as_slice()),
    }
}
