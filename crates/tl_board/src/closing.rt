//! How a board is closed.
ghost use Rattle.std.specs.Prelude.{◌≡◌, ◌<◌, ◌≤◌, [], map, length, All, IfOk};
ghost use Rattle.tl_board.specs.Calls.{view, IsCallerOf, IsSeatOf, IsClosed, left_of, callers_of, count_of};
ghost use Rattle.tl_board.specs.Hands.{unposted};

use crate::board::Board;
use crate::caller::{Caller, Left};
use crate::piece::Piece;
use crate::plays::Merge;
use crate::rule::{Hands, Kept, Plan};
use atomic_table::{Seat, Shared};
use std::alloc::{AllocError, Global};

// One seat that stands for all callers, in their order.
fn merge_all<P: Piece>(
    shared: &Shared<Option<P>, Hands<P::Job>, Plan<P>, Kept<P>>,
    mut callers: Vec<Caller<P>>,
) -> Seat<Option<P>, Hands<P::Job>>
    requires seats { All (IsSeatOf shared.now.table_id) callers.items }
    requires some_caller { 0 < length callers.items }
    requires table { 0 < shared.now.table_id.words }
    requires none_out { All (λ c. unposted (view c) ≡ []) callers.items }
    ensures table { result.table_id ≡ shared.now.table_id }
    ensures views { result.me.0 ≡ map view callers.items }
{
    let Some(last) = callers.pop() else {
        unreachable!()
    };
    let Caller { mut seat, done: _ } = last;
    while let Some(caller) = callers.pop() {
        let Caller {
            seat: other,
            done: _,
        } = caller;
        shared.join_seat::<Merge>(&mut seat, other);
    }
    seat
}

impl<P: Piece> Board<P> {
    /// What is left of each number, once all callers are back and each claim is posted.
    pub fn close(self, alloc: Global, callers: Vec<Caller<P>>) -> Result<Vec<Left<P>>, AllocError>
        requires callers { (length callers.items ≡ callers_of self) × All (IsCallerOf self) callers.items }
        requires none_out { All (λ c. unposted (view c) ≡ []) callers.items }
        ensures { IfOk result (λ left.
            IsClosed P.job P.filled_for (map view callers.items) (count_of self) left.items) }
    {
        let Board { table } = self;
        let mut left = Vec::with_capacity(alloc, table.slot_count())?;
        let seat = merge_all(&table.shared, callers);
        let mut closed = table.close_with(seat);
        for number in 0..closed.slot_count() {
            let slot = closed.take(number);
            left.push_reserved(left_in(closed.word(number + 1), slot));
        }
        closed.free();
        Ok(left)
    }
}

// What a number's word and slot leave of it. A number that is not posted was not drawn.
fn left_in<P: Drop>(word: u64, slot: Option<P>) -> Left<P>
    ensures { result ≡ left_of word slot }
{
    match slot {
        Some(piece) if word == 0 => Left::Unclaimed(piece),
        Some(piece) if word == 1 => Left::Posted(piece),
        _ => Left::Taken,
    }
}
