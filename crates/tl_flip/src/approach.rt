//! Heights that are moved towards a target's, flip by flip.

ghost use Rattle.std.specs.Prelude.{◌≡◌, ◌+◌, [], length, ℤ, pos, ◌+ℤ◌, int_lt, IfOk, IsTrue, MatchOption};
ghost use Rattle.tl_definitions.specs.declared.Corner.{Corner};
ghost use Rattle.tl_definitions.specs.Region.{is_corner_of, is_inner};
ghost use Rattle.tl_flip.specs.Approach.{AreTwo, HasReached, IsApproach, IsShort, can_move, counted};

use crate::direction::Direction;
use std::alloc::{AllocError, Global};
use tl_height::Heights;
use tl_lattice::Corner;

// Whether the height of this corner still lies short of the target's.
fn is_short(way: Direction, here: &Heights, target: &Heights, corner: Corner) -> bool
    requires region { here.now.region ≡ target.now.region }
    requires corner { IsTrue (is_corner_of target.now.region corner) }
    ensures { result ≡ int_lt (counted way target.now.region here.now.numbers corner)
        (counted way target.now.region target.now.numbers corner) }
{
    match way {
        Direction::Up => here.at(corner) < target.at(corner),
        Direction::Down => here.at(corner) > target.at(corner),
    }
}

// The corner that has to be moved before this one: its height is one less, counted in the direction, and lies short of
// the target's, too. None where this one can be moved.
fn blocker(way: Direction, here: &Heights, target: &Heights, corner: Corner) -> Option<Corner>
    requires region { here.now.region ≡ target.now.region }
    requires two { AreTwo target.now.region here.now.numbers target.now.numbers }
    requires inner { IsTrue (is_inner target.now.region corner) }
    requires short { IsShort way target.now.region here.now.numbers target.now.numbers corner }
    ensures { MatchOption result (IsTrue (can_move way target.now.region here.now.numbers corner))
        (λ first. IsTrue (is_inner target.now.region first)
        × (counted way target.now.region here.now.numbers corner
        ≡ counted way target.now.region here.now.numbers first +ℤ pos 1)
        × IsShort way target.now.region here.now.numbers target.now.numbers first) }
{
    match way {
        Direction::Up => here.rising_to(corner),
        Direction::Down => here.rising_from(corner),
    }
}

// Moves the height of this corner, and notes the flip.
fn advance(
    way: Direction,
    here: &mut Heights,
    target: &Heights,
    corner: Corner,
    path: &mut Vec<Corner>,
) -> Result<(), AllocError>
    requires region { here.old.region ≡ target.now.region }
    requires two { AreTwo target.now.region here.old.numbers target.now.numbers }
    requires inner { IsTrue (is_inner target.now.region corner) }
    requires short { IsShort way target.now.region here.old.numbers target.now.numbers corner }
    requires free { IsTrue (can_move way target.now.region here.old.numbers corner) }
    ensures region { here.new.region ≡ target.now.region }
    ensures approach { IfOk result (λ _. IsApproach way target.now.region target.now.numbers here.old.numbers
        here.new.numbers path.old.items path.new.items) }
    ensures one_more { IfOk result (λ _. length path.new.items ≡ length path.old.items + 1) }
{
    match way {
        Direction::Up => here.raise(corner),
        Direction::Down => here.lower(corner),
    }
    path.push(corner)?;
    Ok(())
}

// Moves heights until this corner's lies short of the target's no longer. Corners wait for those that block them.
fn approach_at(
    way: Direction,
    here: &mut Heights,
    target: &Heights,
    mut corner: Corner,
    waiting: &mut Vec<Corner>,
    path: &mut Vec<Corner>,
) -> Result<(), AllocError>
    requires region { here.old.region ≡ target.now.region }
    requires two { AreTwo target.now.region here.old.numbers target.now.numbers }
    requires inner { IsTrue (is_inner target.now.region corner) }
    requires none_waits { waiting.old.items ≡ [] }
    ensures region { here.new.region ≡ target.now.region }
    ensures none_waits { IfOk result (λ _. waiting.new.items ≡ []) }
    ensures approach { IfOk result (λ _. IsApproach way target.now.region target.now.numbers here.old.numbers
        here.new.numbers path.old.items path.new.items) }
    ensures reached { IfOk result (λ _. HasReached way target.now.region here.new.numbers target.now.numbers corner) }
{
    loop {
        if !is_short(way, here, target, corner) {
            match waiting.pop() {
                Some(next) => corner = next,
                None => return Ok(()),
            }
        } else if let Some(first) = blocker(way, here, target, corner) {
            waiting.push(corner)?;
            corner = first;
        } else {
            advance(way, here, target, corner, path)?;
            // the one that waited for it may be moved now
            if let Some(next) = waiting.pop() {
                corner = next;
            }
        }
    }
}

/// Moves heights until none lies short of the target's, and notes the flips.
///
/// # Errors
/// Want of memory.
pub(crate) fn approach(
    alloc: Global,
    way: Direction,
    here: &mut Heights,
    target: &Heights,
    path: &mut Vec<Corner>,
) -> Result<(), AllocError>
    requires region { here.old.region ≡ target.now.region }
    ensures region { here.new.region ≡ target.now.region }
    ensures approach { IfOk result (λ _. IsApproach way target.now.region target.now.numbers here.old.numbers
        here.new.numbers path.old.items path.new.items) }
    ensures reached { IfOk result (λ _. (v : Corner) → IsTrue (is_corner_of target.now.region v)
        → HasReached way target.now.region here.new.numbers target.now.numbers v) }
{
    let mut waiting = Vec::new(alloc);
    let region = target.region();
    // the calls tell that both are lawful
    prove!(here.region().kind() == region.kind());
    for i in 0..region.inner_count() {
        approach_at(way, here, target, region.inner(i), &mut waiting, path)?;
    }
    Ok(())
}
