//! What each step tells its caller. These types are for the proofs alone.
use crate::piece::Piece;
use crate::rule::Hands;
use atomic_table::{Join, Play, Split};
use std::marker::PhantomData;

/// A number is drawn.
pub(crate) struct Draw<P> {
    marker: PhantomData<P>,
}

impl<P: Piece> Play<Option<P>, Hands<P::Job>> for Draw<P> {
    ghost use Rattle.tl_board.specs.Steps.{Draws};

    ghost then = { λ s m k n. Draws P.job m k n };
}

/// The slot of a claimed number comes back with its piece.
pub(crate) struct Post<P> {
    marker: PhantomData<P>,
}

impl<P: Piece> Play<Option<P>, Hands<P::Job>> for Post<P> {
    ghost use Rattle.tl_board.specs.Steps.{Posts};

    ghost then = { λ s m k n. Posts s.word m n };
}

/// A word is read.
pub(crate) struct Look<P> {
    marker: PhantomData<P>,
}

impl<P: Piece> Play<Option<P>, Hands<P::Job>> for Look<P> {
    ghost use Rattle.tl_board.specs.Steps.{Looks};

    ghost then = { λ s m k n. Looks s.word m k n };
}

/// A word is read, and its number taken where it is posted.
pub(crate) struct Grab<P> {
    marker: PhantomData<P>,
}

impl<P: Piece> Play<Option<P>, Hands<P::Job>> for Grab<P> {
    ghost use Rattle.tl_board.specs.Steps.{Grabs};

    ghost then = { λ s m k n. Grabs P.job P.filled_for s.word m k n };
}

/// The slot of a number that was taken comes back empty.
pub(crate) struct HandBack<P> {
    marker: PhantomData<P>,
}

impl<P: Piece> Play<Option<P>, Hands<P::Job>> for HandBack<P> {
    ghost use Rattle.tl_board.specs.Steps.{HandsBack};

    ghost then = { λ s m k n. HandsBack m n };
}

/// The first caller is cut off from the others.
pub(crate) struct Cut;

impl<J> Split<Hands<J>> for Cut {
    ghost use Rattle.std.specs.Prelude.{take, drop};

    ghost left = { λ hands. drop 1 hands };

    ghost right = { λ hands. take 1 hands };
}

/// Two seats become one that stands for the callers of both, the other's first.
pub(crate) struct Merge;

impl<J> Join<Hands<J>> for Merge {
    ghost use Rattle.std.specs.Prelude.{[], ◌++◌};

    ghost both = { λ hands others. others ++ hands };

    ghost spent = { [] };
}
