//! How a board is made.
ghost use Rattle.std.specs.Prelude.{◌≡◌, ℕ, ◌+◌, ◌<◌, ◌≤◌, [], map, length, All, Some, IfOk};
ghost use Rattle.std.specs.Prelude.{false};
ghost use Rattle.tl_board.specs.Hands.{hand, unposted, IsCaller};
ghost use Rattle.tl_board.specs.Calls.{view, IsCallerOf, IsSeatOf, callers_of, fresh_of, AreFreshViews};

use crate::board::Board;
use crate::caller::Caller;
use crate::piece::Piece;
use crate::plays::Cut;
use crate::rule::{Hands, Kept, Plan};
use atomic_table::{Seat, Shared, Table};
use std::alloc::{AllocError, Global};
use std::snapshot::Snapshot;

// The blanks, each in a slot of its own.
fn slots_of<P: Drop>(alloc: Global, blanks: Vec<P>) -> Result<Vec<Option<P>>, AllocError>
    ensures { IfOk result (λ slots. slots.items ≡ map Some blanks.items) }
{
    let mut slots = Vec::with_capacity(alloc, blanks.len())?;
    for blank in blanks {
        slots.push(Some(blank))?;
    }
    Ok(slots)
}

fn caller_of<P: Piece>(seat: Seat<Option<P>, Hands<P::Job>>) -> Caller<P>
    requires { IsCaller seat.table_id.slots false seat.me.0 × (seat.me.1 ≡ []) × (unposted (hand seat.me.0) ≡ []) }
    ensures { result.seat ≡ seat }
{
    Caller { seat, done: false }
}

// A caller for each hand that the seat stands for.
fn deal<P: Piece>(
    alloc: Global,
    shared: &Shared<Option<P>, Hands<P::Job>, Plan<P>, Kept<P>>,
    mut seat: Seat<Option<P>, Hands<P::Job>>,
    count: u32,
) -> Result<Vec<Caller<P>>, AllocError>
    requires seat { seat.table_id ≡ shared.now.table_id }
    requires hands { seat.me ≡ (fresh_of P.job shared.now.key shared.now.table_id count, []) }
    requires table { (0 < shared.now.table_id.words) × (0 < count) }
    ensures views { IfOk result (λ r. map view r.items ≡ fresh_of P.job shared.now.key shared.now.table_id count) }
    ensures seats { IfOk result (λ r. All (IsSeatOf shared.now.table_id) r.items) }
{
    let mut callers = Vec::with_capacity(alloc, count as usize)?;
    for index in 0..count - 1 {
        callers.push(caller_of(shared.split_seat::<Cut>(&mut seat)))?;
    }
    callers.push(caller_of(seat))?;
    Ok(callers)
}

impl<P: Piece> Board<P> {
    /// A board on which each blank is the piece of its place, with this many callers.
    pub fn open(
        alloc: Global,
        blanks: Vec<P>,
        callers: u32,
    ) -> Result<(Board<P>, Vec<Caller<P>>), AllocError>
        requires job { (job : P.Job) × All (λ p. P.job p ≡ job) blanks.items }
        requires count { (0 < length blanks.items) × (length blanks.items ≤ 65536) }
        requires callers { (0 < callers) × (callers ≤ 64) }
        ensures callers { IfOk result (λ r. (callers_of r.0 ≡ callers) × All (IsCallerOf r.0) r.1.items) }
        ensures views { IfOk result (λ r. AreFreshViews P.job blanks.items callers (map view r.1.items)) }
    {
        let plan = Plan {
            like: Snapshot::of(&blanks[0]),
            count: blanks.len() as u64,
            callers: callers as u64,
        };
        let words = Vec::from_elem(alloc, 0u64, blanks.len() + 1)?;
        let slots = slots_of(alloc, blanks)?;
        let Ok((table, seat)) = Table::new(alloc, words.as_slice(), slots, &plan) else {
            return Err(AllocError);
        };
        let hands = deal(alloc, &table.shared, seat, callers)?;
        Ok((Board { table }, hands))
    }
}
