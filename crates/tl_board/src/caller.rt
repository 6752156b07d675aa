//! A caller of a board, and what it is given.
ghost use Rattle.std.specs.Prelude.{◌≡◌};
ghost use Rattle.tl_board.specs.Hands.{hand, slots_out, IsCaller};

use crate::piece::Piece;
use crate::rule::Hands;
use atomic_table::Seat;

/// One who uses a board. It is made by `Board::open`. Contracts see it by its `view`.
#[derive(Drop)]
pub struct Caller<P: Piece> {
    pub(crate) seat: Seat<Option<P>, Hands<P::Job>>,
    /// It was told that there are no more numbers.
    pub(crate) done: bool,
    ghost known: { IsCaller seat.table_id.slots done seat.me.0 },
    ghost slots_held: { seat.me.1 ≡ slots_out (hand seat.me.0) },
}

/// A number that one caller alone was given, and the piece to be filled for it.
#[derive(Drop)]
pub struct Claim<P> {
    pub number: u32,
    pub piece: P,
}

/// What is left of a number when the board is closed.
#[derive(Drop)]
pub enum Left<P> {
    Unclaimed(P),
    Posted(P),
    Taken,
}
