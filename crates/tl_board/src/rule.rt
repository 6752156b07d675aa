//! The rule of the table that the callers share.
use crate::piece::Piece;
use crate::views::CallerView;
use atomic_table::{Seat, Table, TableRule};
use std::alloc::Global;
use std::collections::LinkedList;
use std::marker::PhantomData;
use std::snapshot::Snapshot;

/// What a board is opened with. `like` is a piece of its job.
#[derive(Drop)]
pub struct Plan<P> {
    pub like: Snapshot<P>,
    pub count: u64,
    pub callers: u64,
}

pub struct Kept<P> {
    marker: PhantomData<P>,
}

/// What a seat knows: the views of the callers that it stands for.
pub(crate) type Hands<J> = LinkedList<CallerView<Option<J>>>;

impl<P: Piece> TableRule<Option<P>, Hands<P::Job>, Plan<P>> for Kept<P> {
    ghost use Rattle.tl_board.specs.Hands.{fresh_hands};
    ghost use Rattle.tl_board.specs.Rule.{Keeps};

    ghost holds = { λ plan. Keeps P.job P.filled_for (P.job plan.like.value) plan.count plan.callers };

    ghost first = { λ plan. fresh_hands (P.job plan.like.value) plan.count plan.callers };
}
