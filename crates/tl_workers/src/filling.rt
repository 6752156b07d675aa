//! How workers share the numbers of a job.
ghost use Rattle.std.specs.Prelude.{◌≡◌, ℕ, ◌<◌, ◌≤◌, ◌^◌, map, length, slice_index_or, All, IfOk};
ghost use Rattle.tl_board.specs.Calls.{view, IsCallerOf};
ghost use Rattle.tl_workers.specs.Filled.{AreFilled};
ghost use Rattle.tl_workers.specs.Seats.{IsIdle, IsDone, Serves, IsPosted};

use crate::worker::Worker;
use std::alloc::{AllocError, Global};
use std::thread;
use std::thread::Threads;
use tl_board::{Board, Caller, Claim, Left, Piece};
use tl_io::Gate;

// A worker, and the caller by which it claims and posts.
#[derive(Drop)]
struct Seat<P: Piece, W> {
    caller: Caller<P>,
    worker: W,
}

fn seats_of<P: Piece, W: Drop>(
    alloc: Global,
    callers: Vec<Caller<P>>,
    workers: Vec<W>,
) -> Result<Vec<Seat<P, W>>, AllocError>
    requires count { length workers.items ≡ length callers.items }
    ensures callers { IfOk result (λ seats. map (λ s. s.caller) seats.items ≡ callers.items) }
    ensures workers { IfOk result (λ seats. map (λ s. s.worker) seats.items ≡ workers.items) }
{
    let mut seats = Vec::with_capacity(alloc, callers.len())?;
    for (caller, worker) in callers.into_iter().zip(workers) {
        seats.push(Seat { caller, worker })?;
    }
    Ok(seats)
}

// Claims, fills and posts until there are no more numbers.
fn work<P: Piece, W: Worker<P>, G: Gate>(
    board: &Board<P>,
    gate: &G,
    index: u32,
    seat: &mut Seat<P, W>,
)
    requires caller { IsCallerOf board.now seat.old.caller }
    requires idle { IsIdle (view seat.old.caller) }
    requires served { Serves W.serves (view seat.old.caller) seat.old.worker }
    ensures caller { IsCallerOf board.now seat.new.caller }
    ensures done { IsDone (view seat.old.caller).job (view seat.old.caller).count (view seat.new.caller) }
{
    while let Some(claim) = board.claim(&mut seat.caller) {
        let Claim { number, piece } = claim;
        gate.pass(index, number);
        let piece = seat.worker.fill(number, piece);
        board.post(&mut seat.caller, Claim { number, piece });
        gate.posted(index, number);
    }
}

// All work beside each other.
fn work_all<R: Threads + Sync, P: Piece, W: Worker<P> + Send + Drop, G: Gate + Sync>(
    rt: &R,
    board: &Board<P>,
    gate: &G,
    seats: &mut [Seat<P, W>],
)
    requires count { (0 < length seats.old) × (length seats.old ≤ 64) }
    requires callers { All (λ s. IsCallerOf board.now s.caller) seats.old }
    requires idle { All (λ s. IsIdle (view s.caller)) seats.old }
    requires served { All (λ s. Serves W.serves (view s.caller) s.worker) seats.old }
    ensures callers { All (λ s. IsCallerOf board.now s.caller) seats.new }
    ensures done { (k : ℕ) (d : _) → k < length seats.old →
        let before = view (slice_index_or seats.old k d).caller in
        IsDone before.job before.count (view (slice_index_or seats.new k d).caller) }
{
    let threads = seats.len();
    thread::for_each_mut(
        rt,
        seats,
        threads,
        &|index: usize, seat: &mut Seat<P, W>|
            requires { (index < 64) × IsCallerOf board.now seat.old.caller × IsIdle (view seat.old.caller)
                × Serves W.serves (view seat.old.caller) seat.old.worker }
            ensures { IsCallerOf board.entry.now seat.new.caller
                × IsDone (view seat.old.caller).job (view seat.old.caller).count (view seat.new.caller) }
        { work(board, gate, index as u32, seat) },
    );
}

fn callers_from<P: Piece, W: Drop>(
    alloc: Global,
    seats: Vec<Seat<P, W>>,
) -> Result<Vec<Caller<P>>, AllocError>
    ensures { IfOk result (λ callers. callers.items ≡ map (λ s. s.caller) seats.items) }
{
    let mut callers = Vec::with_capacity(alloc, seats.len())?;
    for seat in seats {
        callers.push(seat.caller)?;
    }
    Ok(callers)
}

fn pieces_of<P: Drop>(alloc: Global, left: Vec<Left<P>>) -> Result<Vec<P>, AllocError>
    requires { All IsPosted left.items }
    ensures { IfOk result (λ pieces. map Left.Posted pieces.items ≡ left.items) }
{
    let mut pieces = Vec::with_capacity(alloc, left.len())?;
    for entry in left {
        let Left::Posted(piece) = entry else {
            unreachable!()
        };
        pieces.push(piece)?;
    }
    Ok(pieces)
}

/// Has these workers fill the blanks of one job, each on a thread of its own where one can be had.
///
/// Piece `n` is filled for the number `n`, whichever worker drew it, in any schedule. `gate` is told before and after
/// each piece. `Err` where memory ran out; some pieces may have been filled then.
pub fn fill_all<R: Threads + Sync, P: Piece, W: Worker<P> + Send + Drop, G: Gate + Sync>(
    rt: &R,
    alloc: Global,
    blanks: Vec<P>,
    workers: Vec<W>,
    gate: &G,
) -> Result<Vec<P>, AllocError>
    requires job { (job : P.Job) × All (λ p. P.job p ≡ job) blanks.items × All (λ w. W.serves w job) workers.items }
    requires blanks { (0 < length blanks.items) × (length blanks.items ≤ 65536) }
    requires workers { (0 < length workers.items) × (length workers.items ≤ 64) }
    ensures { IfOk result (λ pieces. AreFilled P.job P.filled_for blanks.items pieces.items) }
{
    let (board, callers) = Board::open(alloc, blanks, workers.len() as u32)?;
    let mut seats = seats_of(alloc, callers, workers)?;
    work_all(rt, &board, gate, seats.as_mut_slice());
    let callers = callers_from(alloc, seats)?;
    let left = board.close(alloc, callers)?;
    pieces_of(alloc, left)
}
