//! The board itself.
ghost use Rattle.std.specs.Prelude.{◌≡◌, ℕ, ◌+◌, ◌<◌, ◌≤◌, ◌==◌, ◌||◌, not, true, [], Some, is_some, IsTrue};

use crate::caller::{Caller, Claim};
use crate::piece::Piece;
use crate::plays::{Draw, Grab, HandBack, Look, Post};
use crate::rule::{Hands, Kept, Plan};
use atomic_table::Table;
use std::alloc::Global;

/// Numbers that callers on threads of their own claim, and the pieces that they post for them.
#[derive(Drop)]
pub struct Board<P: Piece> {
    pub(crate) table: Table<Option<P>, Hands<P::Job>, Plan<P>, Kept<P>, Global>,
    ghost counts: { (table.shared.table_id.words ≡ table.shared.table_id.slots + 1) × (table.shared.key.count ≡ table.shared.table_id.slots) },
    ghost limits: { (0 < table.shared.key.count) × (table.shared.key.count ≤ 65536) × (0 < table.shared.key.callers) × (table.shared.key.callers ≤ 64) },
}

impl<P: Piece> Board<P> {
    ghost use Rattle.tl_board.specs.Calls.{view, IsCallerOf, IsClaimOrPast, IsDrawnOnly, IsTakeOf, IsTakeAlone};
    ghost use Rattle.tl_board.specs.Steps.{after_post, after_read};
    ghost use Rattle.tl_board.specs.Board.{is_member};
    ghost use Rattle.tl_board.specs.Hands.{unposted};

    /// A number below count that no other claim gives, with its blank. None where there is none left.
    pub fn claim(&self, caller: &mut Caller<P>) -> Option<Claim<P>>
        requires caller { IsCallerOf self.now caller.old }
        requires none_out { unposted (view caller.old) ≡ [] }
        ensures caller { IsCallerOf self.now caller.new }
        ensures claim { IsClaimOrPast P.job (view caller.old) (view caller.new) result }
    {
        if caller.done {
            return None;
        }
        let shared = &self.table.shared;
        let number = shared.fetch_add::<Draw<P>>(&mut caller.seat, 0, 1);
        if number >= self.table.slot_count() as u64 {
            caller.done = true;
            return None;
        }
        let Some(piece) = shared.exchange(&mut caller.seat, number as usize, None) else {
            unreachable!()
        };
        Some(Claim {
            number: number as u32,
            piece,
        })
    }

    /// Puts the piece of a claimed number on the board.
    pub fn post(&self, caller: &mut Caller<P>, claim: Claim<P>)
        requires caller { IsCallerOf self.now caller.old }
        requires claimed { IsDrawnOnly (view caller.old) claim.number }
        requires filled { (Some (P.job claim.piece) ≡ (view caller.old).job) × P.filled_for claim.piece claim.number }
        ensures caller { IsCallerOf self.now caller.new }
        ensures posted { view caller.new ≡ after_post (view caller.old) claim.number }
    {
        let Claim { number, piece } = claim;
        let index = number as usize;
        let shared = &self.table.shared;
        match shared.exchange(&mut caller.seat, index, Some(piece)) {
            None => {}
            Some(_) => unreachable!(),
        }
        shared.store::<Post<P>>(&mut caller.seat, index + 1, 1);
    }

    /// Whether the number is posted or taken, as its word says that this one step reads.
    pub fn look(&self, caller: &mut Caller<P>, number: u32) -> bool
        requires caller { IsCallerOf self.now caller.old }
        requires number { number < (view caller.old).count }
        ensures caller { IsCallerOf self.now caller.new }
        ensures read { (word : ℕ) × (result ≡ not (word == 0)) × (view caller.new ≡ after_read (view caller.old) number word) }
        ensures known { IsTrue (is_member (view caller.old).posted number || is_member (view caller.old).seen number) → result ≡ true }
    {
        let word = self
            .table
            .shared
            .load::<Look<P>>(&mut caller.seat, number as usize + 1);
        word != 0
    }

    /// The piece of a posted number. None where this one step found the number not posted or already taken.
    pub fn take(&self, caller: &mut Caller<P>, number: u32) -> Option<P>
        requires caller { IsCallerOf self.now caller.old }
        requires number { number < (view caller.old).count }
        ensures caller { IsCallerOf self.now caller.new }
        ensures taken { IsTakeOf P.job P.filled_for (view caller.old) (view caller.new) number result }
        ensures alone { IsTakeAlone (view caller.old) number (is_some result) }
    {
        let index = number as usize;
        let shared = &self.table.shared;
        if shared.compare_exchange::<Grab<P>>(&mut caller.seat, index + 1, 1, 2) != 1 {
            return None;
        }
        let piece = shared.exchange(&mut caller.seat, index, None);
        shared.store::<HandBack<P>>(&mut caller.seat, index + 1, 3);
        piece
    }
}
