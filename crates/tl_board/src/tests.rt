ghost use Rattle.std.specs.Prelude.{◌≡◌, ◌+◌, ◌<◌, ◌≤◌, map, length, All, IfOk};
ghost use Rattle.tl_board.specs.Calls.{view, callers_of, IsIdleOf};

use super::*;
use std::alloc::{AllocError, Global};
use std::test::Fail;
use std::thread;
use std::thread::Threads;

// A number's piece is filled with the sum of the number and the job's start.
#[derive(Drop)]
struct Sum {
    start: u32,
    sum: u64,
}

impl Piece for Sum {
    type Job = u32;

    ghost job = { λ p. p.start };

    ghost filled_for = { λ p n. p.sum ≡ p.start + n };
}

// A piece with nothing to fill.
#[derive(Drop)]
struct Token;

impl Piece for Token {
    type Job = ();

    ghost job = { λ p. tt };

    ghost filled_for = { λ p n. Unit {0} };
}

fn filled(claim: Claim<Sum>) -> Claim<Sum>
    ensures number { result.number ≡ claim.number }
    ensures piece { (result.piece.start ≡ claim.piece.start) × (result.piece.sum ≡ claim.piece.start + claim.number) }
{
    let Claim { number, piece } = claim;
    let sum = piece.start as u64 + number as u64;
    Claim {
        number,
        piece: Sum {
            start: piece.start,
            sum,
        },
    }
}

fn open_sums(alloc: Global, callers: u32) -> Result<(Board<Sum>, Vec<Caller<Sum>>), AllocError>
    requires callers { (0 < callers) × (callers ≤ 64) }
    ensures callers { IfOk result (λ r. (callers_of r.0 ≡ callers) × (length r.1.items ≡ callers)) }
    ensures ready { IfOk result (λ r. All (λ c. IsIdleOf r.0 c × ((view c).count ≡ 2)) r.1.items) }
{
    let mut blanks = Vec::with_capacity(alloc, 2)?;
    blanks.push_reserved(Sum { start: 5, sum: 0 });
    blanks.push_reserved(Sum { start: 5, sum: 0 });
    let (board, callers) = Board::open(alloc, blanks, callers)?;
    Ok((board, callers))
}

// The number that the caller claimed and posted.
fn work(board: &Board<Sum>, callers: &mut Vec<Caller<Sum>>, index: usize) -> Option<u32>
    requires index { index < length callers.old.items }
    requires ready { All (λ c. IsIdleOf board.now c × ((view c).count ≡ 2)) callers.old.items }
    ensures length { length callers.new.items ≡ length callers.old.items }
    ensures ready { All (λ c. IsIdleOf board.now c × ((view c).count ≡ 2)) callers.new.items }
{
    let caller = &mut callers[index];
    let claim = board.claim(caller)?;
    let number = claim.number;
    board.post(caller, filled(claim));
    Some(number)
}

// The sum of the piece that the caller took.
fn take_sum(
    board: &Board<Sum>,
    callers: &mut Vec<Caller<Sum>>,
    index: usize,
    number: u32,
) -> Option<u64>
    requires index { (index < length callers.old.items) × (number < 2) }
    requires ready { All (λ c. IsIdleOf board.now c × ((view c).count ≡ 2)) callers.old.items }
    ensures length { length callers.new.items ≡ length callers.old.items }
    ensures ready { All (λ c. IsIdleOf board.now c × ((view c).count ≡ 2)) callers.new.items }
{
    let piece = board.take(&mut callers[index], number)?;
    Some(piece.sum)
}

fn has(board: &Board<Sum>, callers: &mut Vec<Caller<Sum>>, index: usize, number: u32) -> bool
    requires index { (index < length callers.old.items) × (number < 2) }
    requires ready { All (λ c. IsIdleOf board.now c × ((view c).count ≡ 2)) callers.old.items }
    ensures length { length callers.new.items ≡ length callers.old.items }
    ensures ready { All (λ c. IsIdleOf board.now c × ((view c).count ≡ 2)) callers.new.items }
{
    board.look(&mut callers[index], number)
}

#[test]
fn a_posted_piece_is_taken_once(rt: HostRuntime) -> Result<(), Fail> {
    let (board, mut callers) = open_sums(rt.alloc(), 3)?;
    let Some(mut first) = callers.pop() else {
        unreachable!()
    };
    let Some(claim) = board.claim(&mut first) else {
        panic!(rt; "no number")
    };
    assert_eq!(rt; claim.number, 0);
    assert!(rt; !has(&board, &mut callers, 0, 0));
    assert!(rt; take_sum(&board, &mut callers, 0, 0).is_none());
    board.post(&mut first, filled(claim));
    assert!(rt; board.look(&mut first, 0));
    assert!(rt; has(&board, &mut callers, 0, 0));
    assert_eq!(rt; take_sum(&board, &mut callers, 1, 0), Some(5));
    assert!(rt; take_sum(&board, &mut callers, 1, 0).is_none());
    assert!(rt; has(&board, &mut callers, 0, 0));
    assert_eq!(rt; work(&board, &mut callers, 1), Some(1));
    callers.push(first)?;
    let left = board.close(rt.alloc(), callers)?;
    match left.as_slice() {
        [Left::Taken, Left::Posted(piece)] => assert_eq!(rt; piece.sum, 6),
        _ => panic!(rt; "not what is left"),
    }
    Ok(())
}

#[test]
fn three_callers_claim_each_number_once(rt: HostRuntime) -> Result<(), Fail> {
    let (board, mut callers) = open_sums(rt.alloc(), 3)?;
    assert_eq!(rt; work(&board, &mut callers, 2), Some(0));
    assert_eq!(rt; work(&board, &mut callers, 0), Some(1));
    for index in 0..3 {
        assert!(rt; work(&board, &mut callers, index).is_none());
        assert!(rt; work(&board, &mut callers, index).is_none());
    }
    let left = board.close(rt.alloc(), callers)?;
    match left.as_slice() {
        [Left::Posted(one), Left::Posted(two)] => assert!(rt; one.sum == 5 && two.sum == 6),
        _ => panic!(rt; "not what is left"),
    }
    Ok(())
}

#[test]
fn what_is_not_claimed_is_left(rt: HostRuntime) -> Result<(), Fail> {
    let mut blanks = Vec::new(rt.alloc());
    blanks.push(Token)?;
    let (board, callers) = Board::open(rt.alloc(), blanks, 1)?;
    let left = board.close(rt.alloc(), callers)?;
    assert!(rt; matches!(left.as_slice(), [Left::Unclaimed(_)]));
    Ok(())
}

// A caller on a thread of its own, and how often it was given each of the two numbers.
#[derive(Drop)]
struct Hand {
    caller: Caller<Sum>,
    zeros: u32,
    ones: u32,
    told: bool,
}

fn hands_of(alloc: Global, callers: Vec<Caller<Sum>>) -> Result<Vec<Hand>, AllocError>
    ensures { IfOk result (λ hands. map (λ h. h.caller) hands.items ≡ callers.items) }
{
    let mut hands = Vec::with_capacity(alloc, callers.len())?;
    for caller in callers {
        hands.push(Hand {
            caller,
            zeros: 0,
            ones: 0,
            told: false,
        })?;
    }
    Ok(hands)
}

fn callers_back(alloc: Global, hands: Vec<Hand>) -> Result<Vec<Caller<Sum>>, AllocError>
    ensures { IfOk result (λ callers. callers.items ≡ map (λ h. h.caller) hands.items) }
{
    let mut callers = Vec::with_capacity(alloc, hands.len())?;
    for hand in hands {
        callers.push(hand.caller)?;
    }
    Ok(callers)
}

// Claims and posts a number, or is told that there are no more.
fn turn(board: &Board<Sum>, hand: &mut Hand)
    requires { IsIdleOf board.now hand.old.caller }
    ensures { IsIdleOf board.now hand.new.caller }
{
    let Some(claim) = board.claim(&mut hand.caller) else {
        hand.told = true;
        return;
    };
    match claim.number {
        0 => hand.zeros = hand.zeros.saturating_add(1),
        _ => hand.ones = hand.ones.saturating_add(1),
    }
    board.post(&mut hand.caller, filled(claim));
}

// Three turns of each, on threads of their own.
fn work_beside<R: Threads + Sync>(rt: &R, board: &Board<Sum>, hands: &mut [Hand])
    requires { All (λ h. IsIdleOf board.now h.caller) hands.old }
    ensures { All (λ h. IsIdleOf board.now h.caller) hands.new }
{
    thread::for_each_mut(
        rt,
        hands,
        3,
        &|_: usize, hand: &mut Hand|
            requires { IsIdleOf board.now hand.old.caller }
            ensures { IsIdleOf board.entry.now hand.new.caller }
        {
            turn(board, hand);
            turn(board, hand);
            turn(board, hand)
        },
    );
}

#[test]
fn callers_on_three_threads_are_given_each_number_once(rt: HostRuntime) -> Result<(), Fail> {
    let (board, callers) = open_sums(rt.alloc(), 3)?;
    let mut hands = hands_of(rt.alloc(), callers)?;
    work_beside(&rt, &board, hands.as_mut_slice());
    let (mut zeros, mut ones) = (0u32, 0u32);
    for hand in &hands {
        assert!(rt; hand.told);
        zeros = zeros.saturating_add(hand.zeros);
        ones = ones.saturating_add(hand.ones);
    }
    assert_eq!(rt; (zeros, ones), (1, 1));
    let callers = callers_back(rt.alloc(), hands)?;
    let left = board.close(rt.alloc(), callers)?;
    match left.as_slice() {
        [Left::Posted(one), Left::Posted(two)] => assert!(rt; one.sum == 5 && two.sum == 6),
        _ => panic!(rt; "not what is left"),
    }
    Ok(())
}
