//! One direction of a border: a queue with one sender and one receiver.
ghost use Rattle.std.specs.Prelude.{◌≡◌, ℕ, IfOk};
ghost use Rattle.crossbeam_queue.specs.Passes.{view, IsPassOf, IsSamePass, ruled_capacity};
ghost use Rattle.tl_border.specs.Rule.{sender_of, receiver_of, after_failure, IsAtWork};

use crate::job::{JobRows, RowJob};
use crate::row::{Row, Side};
use crossbeam_queue::protocol::{Lesson, Outcome, Protocol, Split};
use crossbeam_queue::{Pass, RuledArrayQueue};
use std::alloc::{AllocError, Global};
use std::marker::{Brand, PhantomData};

/// What a pass is for.
pub(crate) enum Role {
    Opener,
    Sender,
    Receiver,
    Spent,
}

/// What a pass knows, as contracts see it. No value of it is made.
pub(crate) struct PassView {
    pub role: Role,
    pub job: JobRows,
    /// The side that sends.
    pub from: Side,
    /// How many rows were sent or got by this pass.
    pub count: u64,
    /// How many of its pushes found the queue full, or of its pops the queue empty. There is no greatest number.
    pub failed: u64,
    /// How many rows the queue held right after the last push or pop of this pass.
    pub held: u64,
}

pub(crate) struct InOrder;

impl Protocol<Row, PassView> for InOrder {
    ghost use Rattle.tl_border.specs.Rule.{Keeps, opener};

    ghost holds = { Keeps };

    ghost first = { opener };
}

/// A queue that holds the next rows of one side, in their order.
pub(crate) type Line = RuledArrayQueue<Row, PassView, InOrder>;

pub(crate) type LinePass = Pass<Row, PassView>;

/// A row is pushed, or the queue found full.
pub(crate) struct Sends;

impl Outcome<Row, PassView> for Sends {
    ghost use Rattle.tl_border.specs.Rule.{IsSent};

    ghost then = { λ before row after. IsSent before after };
}

impl Lesson<Row, PassView> for Sends {
    ghost use Rattle.tl_border.specs.Rule.{HoldsAtMost};

    ghost fact = { HoldsAtMost };
}

/// A row is popped, or the queue found empty.
pub(crate) struct Gets;

impl Outcome<Row, PassView> for Gets {
    ghost use Rattle.tl_border.specs.Rule.{IsGot};

    ghost then = { IsGot };
}

impl Lesson<Row, PassView> for Gets {
    ghost use Rattle.tl_border.specs.Rule.{HoldsAtLeast};

    ghost fact = { HoldsAtLeast };
}

/// A push that found the queue full, or a pop that found it empty, is counted.
pub(crate) struct Fails;

impl Split<PassView> for Fails {
    ghost use Rattle.tl_border.specs.Rule.{after_failure, spent};

    ghost left = { after_failure };

    ghost right = { λ _. spent };
}

/// Which job a direction is opened for, and which side sends.
pub(crate) trait Opening {
    ghost use Rattle.tl_border.specs.declared.job.JobRows.{JobRows};
    ghost use Rattle.tl_border.specs.declared.row.Side.{Side};

    ghost job: { JobRows };

    ghost from: { Side };
}

impl Opening for Brand {
    ghost use Rattle.std.specs.Prelude.{[]};
    ghost use Rattle.tl_border.specs.declared.row.Side.TheVariants.{Upper};

    ghost job = { record { upper = []; lower = [] } };

    ghost from = { Upper };
}

/// The first pass becomes the sender, and the second one is the receiver.
pub(crate) struct Parts<K> {
    marker: PhantomData<K>,
}

impl<K: Opening> Split<PassView> for Parts<K> {
    ghost use Rattle.tl_border.specs.Rule.{sender_of, receiver_of};

    ghost left = { λ _. sender_of K.job K.from 0 0 0 };

    ghost right = { λ _. receiver_of K.job K.from 0 0 0 };
}

/// How many rows a direction has room for.
pub(crate) const ROOM: usize = 2;

/// An empty queue with its sender and its receiver.
pub(crate) fn open_line<K: Opening, J: RowJob>(
    alloc: Global,
    job: &J,
    from: Side,
) -> Result<(Line, LinePass, LinePass), AllocError>
    requires job { K.job ≡ J.rows job.now }
    requires from { K.from ≡ from }
    ensures passes { IfOk result (λ r. IsPassOf r.0 r.1 × IsPassOf r.0 r.2 × (ruled_capacity r.0 ≡ 2)) }
    ensures sender { IfOk result (λ r. view r.1 ≡ sender_of (J.rows job.now) from 0 0 0) }
    ensures receiver { IfOk result (λ r. view r.2 ≡ receiver_of (J.rows job.now) from 0 0 0) }
{
    let (line, mut sender) = Line::ruled(alloc, ROOM)?;
    let receiver = line.another::<Parts<K>>(&mut sender);
    Ok((line, sender, receiver))
}

/// Counts a push or a pop that found no room or no row.
pub(crate) fn count_failure(line: &Line, pass: &mut LinePass)
    requires queue { IsPassOf line.now pass.old }
    requires role { IsAtWork (view pass.old) }
    ensures queue { IsSamePass pass.old pass.new }
    ensures view { view pass.new ≡ after_failure (view pass.old) }
{
    line.another::<Fails>(pass);
}
