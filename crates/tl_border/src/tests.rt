//! Both ends of a border, in turn on one thread, and on a thread each.
ghost use Rattle.std.specs.Prelude.{◌≡◌, ◌+◌, ◌≤◌, map, IfOk};
ghost use Rattle.tl_lists.specs.Lists.{upto};
ghost use Rattle.tl_border.specs.Rows.{bits_of_row, listed, rows_of};
ghost use Rattle.tl_border.specs.Ends.{IsNextToSend, IsSentBy, IsReceivedBy};
ghost use Rattle.tl_border.specs.Levels.{level, three_up};

use super::*;
use std::alloc::{AllocError, Global};
use std::process::Abort;
use std::sync::Wait;
use std::test::Fail;
use std::thread;
use std::thread::{Threads, join};

// Two words with one number.
fn level_row(alloc: Global, number: u64) -> Result<Row, AllocError>
    ensures { IfOk result (λ row. bits_of_row row ≡ level number) }
{
    let words = vec![in alloc; number, number]?;
    Ok(Row { words })
}

fn three_rows(alloc: Global) -> Result<ListedRows, AllocError>
    ensures { IfOk result (λ job. listed job ≡ three_up) }
{
    let first = level_row(alloc, 1)?;
    let second = level_row(alloc, 2)?;
    let third = level_row(alloc, 3)?;
    let upper = vec![in alloc; first, second, third]?;
    Ok(ListedRows {
        upper,
        lower: Vec::new(alloc),
    })
}

// A job that holds nothing. Each side sends the same row twice.
struct ToAndFro;

impl RowJob for ToAndFro {
    ghost use Rattle.tl_border.specs.Levels.{to_and_fro};

    ghost rows = { λ _. to_and_fro };
}

fn assert_level(rt: &impl Abort, row: &Row, number: u64) {
    assert_eq!(rt; row.words.as_slice(), [number, number].as_slice());
}

#[test]
fn the_upper_side_sends_and_the_lower_side_receives(rt: HostRuntime) -> Result<(), Fail> {
    let alloc = rt.alloc();
    let job = three_rows(alloc)?;
    let Opened {
        mut upper,
        mut lower,
        rows,
    } = Border::open(alloc, &job, 2)?;
    assert_eq!(rt; rows.len(), 4);
    assert!(rt; lower.receive(&rt).is_none());
    assert!(rt; upper.send(&rt, level_row(alloc, 1)?).is_ok());
    assert!(rt; upper.send(&rt, level_row(alloc, 2)?).is_ok());
    let Err(third) = upper.send(&rt, level_row(alloc, 3)?) else {
        panic!(&rt; "there was room for a third row");
    };
    assert_level(&rt, &third, 3);
    let Some(first) = lower.receive(&rt) else {
        panic!(&rt; "the first row did not come");
    };
    assert_level(&rt, &first, 1);
    assert!(rt; upper.send(&rt, third).is_ok());
    for number in 2..4 {
        let Some(row) = lower.receive(&rt) else {
            panic!(&rt; "row {number} did not come");
        };
        assert_level(&rt, &row, number);
    }
    assert!(rt; lower.receive(&rt).is_none());
    assert!(rt; upper.receive(&rt).is_none());
    Ok(())
}

// Only what another thread may take can be moved by this.
fn moved<T: Send>(end: T) -> T
    ensures { result ≡ end }
{
    end
}

// What comes at one end after it was sent at the other.
fn sent_on<R: Abort + Wait>(rt: &R, from: &mut End, to: &mut End, row: Row) -> Row
    requires { IsNextToSend from.old row }
    ensures sent { IsSentBy from.old from.new }
    ensures received { IsReceivedBy to.old result to.new }
{
    assert!(rt; from.send(rt, row).is_ok());
    let Some(row) = to.receive(rt) else {
        panic!(rt; "nothing came");
    };
    row
}

// Each side sends what it received.
#[test]
fn a_received_row_is_sent_back(rt: HostRuntime) -> Result<(), Fail> {
    let alloc = rt.alloc();
    let Opened { upper, lower, rows } = Border::open(alloc, &ToAndFro, 2)?;
    let mut upper = moved(upper);
    let mut lower = moved(lower);
    for row in &rows {
        assert_eq!(rt; row.words.len(), 2);
    }
    let row = level_row(alloc, 7)?;
    let row = sent_on(&rt, &mut upper, &mut lower, row);
    let row = sent_on(&rt, &mut lower, &mut upper, row);
    let row = sent_on(&rt, &mut upper, &mut lower, row);
    let row = sent_on(&rt, &mut lower, &mut upper, row);
    assert_level(&rt, &row, 7);
    Ok(())
}

// A job that holds nothing. The upper side sends so many rows, each with its number throughout.
#[derive(Drop)]
struct Rising {
    count: u32,
}

impl RowJob for Rising {
    ghost use Rattle.tl_border.specs.Levels.{rising};

    ghost rows = { λ job. rising job.count };
}

fn rising_rows(alloc: Global, count: u32) -> Result<Vec<Row>, AllocError>
    requires { count ≤ 1000 }
    ensures { IfOk result (λ rows. map bits_of_row rows.items ≡ map level (upto count)) }
{
    let mut rows = Vec::with_capacity(alloc, count as usize)?;
    for number in 0..count {
        rows.push(level_row(alloc, u64::from(number))?)?;
    }
    Ok(rows)
}

// Sends the next row, again and again until there is room for it.
fn send_patiently<R: Wait>(rt: &R, end: &mut End, row: Row)
    requires { IsNextToSend end.old row }
    ensures job { (end.new.job ≡ end.old.job) × (end.new.side ≡ end.old.side) }
    ensures sent { end.new.sent ≡ end.old.sent + 1 }
{
    let mut row = row;
    for _ in rt.forever() {
        match end.send(rt, row) {
            Ok(()) => return,
            Err(back) => row = back,
        }
        thread::yield_now();
    }
    unreachable!()
}

fn send_all<R: Wait>(rt: &R, mut end: End, rows: Vec<Row>)
    requires rows { map bits_of_row rows.items ≡ rows_of end.job end.side }
    requires first { end.sent ≡ 0 }
{
    for row in rows {
        send_patiently(rt, &mut end, row);
    }
}

// The next row, asked for again and again until it comes.
fn receive_patiently<R: Wait>(rt: &R, end: &mut End) -> Row {
    for _ in rt.forever() {
        if let Some(row) = end.receive(rt) {
            return row;
        }
        thread::yield_now();
    }
    unreachable!()
}

fn is_level(row: &Row, number: u64) -> bool {
    row.words.as_slice() == [number, number].as_slice()
}

// How many of the rows come in their order.
fn receive_all<R: Wait>(rt: &R, mut end: End, count: u32) -> u32
    requires { count ≤ 1000 }
{
    let mut in_order = 0;
    for number in 0..count {
        let row = receive_patiently(rt, &mut end);
        if is_level(&row, u64::from(number)) {
            in_order += 1;
        }
    }
    in_order
}

// How many of so many rows come in their order from another thread.
fn relay<R: Threads + Wait + Sync>(rt: &R, alloc: Global, count: u32) -> Result<u32, AllocError>
    requires { count ≤ 1000 }
{
    let job = Rising { count };
    let rows = rising_rows(alloc, count)?;
    let Opened {
        upper,
        lower,
        rows: _,
    } = Border::open(alloc, &job, 2)?;
    let (_, in_order) = join(
        rt,
        move ||
            requires { (map bits_of_row rows.items ≡ rows_of upper.job upper.side) × (upper.sent ≡ 0) }
        { send_all(rt, upper, rows) },
        move ||
            requires { count ≤ 1000 }
        { receive_all(rt, lower, count) },
    );
    Ok(in_order)
}

#[test]
fn rows_come_in_order_from_another_thread(rt: HostRuntime) -> Result<(), Fail> {
    assert_eq!(rt; relay(&rt, rt.alloc(), 300)?, 300);
    Ok(())
}
