//! The search.

ghost use Rattle.std.specs.Prelude.{◌≡◌, ℕ, ◌<◌, ◌≤◌, ◌^◌, length, slice_index, slice_get, IfOk, IfSome, MatchOption, IsTrue, ◌↔◌, pos, neg_ℤ, ◌+ℤ◌, ◌≤ℤ◌, ◌<ℤ◌};
ghost use Rattle.tl_search.specs.Graphs.{IsGraph, has_step};
ghost use Rattle.tl_search.specs.Spreading.{AreSources, IsSpread};
ghost use Rattle.tl_search.specs.Searching.{
  number_of,
  AreFirstNumbers,
  IsTaken,
  IsPlaceOf,
  IsOffered,
  ArePassed,
  HasNumber,
  IsBefore,
  IsTraced,
};

use crate::Graph;
use std::alloc::{AllocError, Global};
use std::collections::VecDeque;

/// The number of a place that no path reaches.
pub const UNREACHED: i32 = i32::MAX;

/// A place from which numbers spread, and its own number.
#[derive(Clone, Copy, Debug, PartialEq, Eq)]
pub struct Source {
    pub place: u32,
    pub number: i32,
}

/// What a search comes to.
#[derive(Drop)]
pub enum Outcome {
    /// For each place the least number with which it is reached, or `UNREACHED`. Each source has its own.
    Filled(Vec<i32>),
    /// A path from a source to a source whose number is greater by more than the path has steps.
    Undercut(Vec<u32>),
}

// The numbers with which the search begins.
fn first_numbers<G: Graph>(
    alloc: Global,
    graph: &G,
    sources: &[Source],
) -> Result<Vec<i32>, AllocError>
    requires is_graph { IsGraph (G.meaning graph.now) }
    requires sources { AreSources (G.meaning graph.now) sources.now }
    ensures { IfOk result (λ numbers. AreFirstNumbers (G.meaning graph.now) sources.now numbers.items) }
{
    let mut numbers = vec![in alloc; UNREACHED; graph.count() as usize]?;
    for source in sources {
        numbers[source.place as usize] = source.number;
    }
    Ok(numbers)
}

// Whether a number is less than that of the next source, if there is one.
fn is_below_next(number: i32, sources: &[Source], next: usize) -> bool
    ensures { MatchOption (slice_get sources.now next) (IsTrue result) (λ s. IsTrue result ↔ (number <ℤ s.number)) }
{
    match sources.get(next) {
        Some(source) => number < source.number,
        None => true,
    }
}

// Takes the place with the least number from the queue, or from the sources, of which `next` have been taken.
fn take(
    sources: &[Source],
    numbers: &[i32],
    queue: &mut VecDeque<u32>,
    next: &mut usize,
) -> Option<u32>
    requires { (i : ℕ) → i < length queue.old.items → slice_index queue.old.items i < length numbers.now }
    ensures { IsTaken sources.now numbers.now queue.old.items next.old queue.new.items next.new result }
{
    if let Some(&place) = queue.front() {
        if is_below_next(numbers[place as usize], sources, *next) {
            return queue.pop_front();
        }
    }
    if *next < sources.len() {
        let place = sources[*next].place;
        *next += 1;
        return Some(place);
    }
    None
}

// Gives this number to the place to which a step leads, where it has none, and puts the place last into the queue. Tells
// whether the place has a greater number already.
fn give(
    numbers: &mut [i32],
    queue: &mut VecDeque<u32>,
    number: i32,
    step: Option<u32>,
) -> Result<bool, AllocError>
    requires { IsPlaceOf numbers.old step }
    ensures { IfOk result (λ too_great. IsOffered number step numbers.old queue.old.items numbers.new queue.new.items
        too_great) }
{
    let Some(to) = step else {
        return Ok(false);
    };
    let old = numbers[to as usize];
    if old <= number {
        return Ok(false);
    }
    if old != UNREACHED {
        return Ok(true);
    }
    numbers[to as usize] = number;
    queue.push_back(to)?;
    Ok(false)
}

// Passes a number on from a place to all to which steps lead. Tells the first that has a greater number already.
fn pass_on<G: Graph>(
    graph: &G,
    place: u32,
    number: i32,
    numbers: &mut [i32],
    queue: &mut VecDeque<u32>,
) -> Result<Option<u32>, AllocError>
    requires is_graph { IsGraph (G.meaning graph.now) }
    requires is_place { IsTrue ((G.meaning graph.now).is_place place) }
    requires count { length numbers.old ≡ (G.meaning graph.now).count }
    ensures { IfOk result (λ stop. ArePassed number ((G.meaning graph.now).steps place) numbers.old queue.old.items
        numbers.new queue.new.items stop) }
{
    let [first, second, third] = graph.steps(place);
    if give(numbers, queue, number, first)? {
        return Ok(first);
    }
    if give(numbers, queue, number, second)? {
        return Ok(second);
    }
    if give(numbers, queue, number, third)? {
        return Ok(third);
    }
    Ok(None)
}

fn has_number(numbers: &[i32], number: i32, place: Option<u32>) -> bool
    requires { IsPlaceOf numbers.now place }
    ensures { IsTrue result ↔ HasNumber numbers.now number place }
{
    match place {
        Some(place) => numbers[place as usize] == number,
        None => false,
    }
}

// A place from which a step leads to this one, and whose number is less by 1.
fn place_before<G: Graph>(graph: &G, numbers: &[i32], place: u32) -> Option<u32>
    requires is_graph { IsGraph (G.meaning graph.now) }
    requires is_place { IsTrue ((G.meaning graph.now).is_place place) }
    requires count { length numbers.now ≡ (G.meaning graph.now).count }
    requires low { neg_ℤ (pos (2 ^ 30)) ≤ℤ number_of numbers.now place }
    ensures { IsBefore (G.meaning graph.now) numbers.now place result }
{
    let number = numbers[place as usize] - 1;
    let [first, second, third] = graph.steps_back(place);
    if has_number(numbers, number, first) {
        return first;
    }
    if has_number(numbers, number, second) {
        return second;
    }
    if has_number(numbers, number, third) {
        return third;
    }
    None
}

// The path by which the number of a place came there, and one step more.
fn path_to<G: Graph>(
    alloc: Global,
    graph: &G,
    numbers: &[i32],
    place: u32,
    end: u32,
) -> Result<Vec<u32>, AllocError>
    requires is_graph { IsGraph (G.meaning graph.now) }
    requires is_place { IsTrue ((G.meaning graph.now).is_place place) }
    requires is_step { IsTrue (has_step (G.meaning graph.now).steps place end) }
    requires count { length numbers.now ≡ (G.meaning graph.now).count }
    requires low { (v : ℕ) → IsTrue ((G.meaning graph.now).is_place v) → neg_ℤ (pos (2 ^ 30)) ≤ℤ number_of numbers.now v }
    ensures { IfOk result (λ path. IsTraced (G.meaning graph.now) numbers.now place end path.items) }
{
    let mut path = Vec::new(alloc);
    path.push(end)?;
    path.push(place)?;
    let mut first = place;
    while let Some(from) = place_before(graph, numbers, first) {
        path.push(from)?;
        first = from;
    }
    path.reverse();
    Ok(path)
}

/// Spreads the numbers of the sources, which come from the least number to the greatest.
///
/// The sources, and the places that got a number, each wait in their order; whoever has the least number passes the next
/// one on. So each step is looked at once, and a place has its least number as soon as it has one.
///
/// # Errors
/// Want of memory.
pub fn spread<G: Graph>(alloc: Global, graph: &G, sources: &[Source]) -> Result<Outcome, AllocError>
    requires is_graph { IsGraph (G.meaning graph.now) }
    requires sources { AreSources (G.meaning graph.now) sources.now }
    ensures { IfOk result (IsSpread (G.meaning graph.now) sources.now) }
{
    let mut numbers = first_numbers(alloc, graph, sources)?;
    let mut queue = VecDeque::new(alloc);
    let mut next = 0;
    while let Some(place) = take(sources, numbers.as_slice(), &mut queue, &mut next) {
        let number = numbers[place as usize] + 1;
        if let Some(end) = pass_on(graph, place, number, numbers.as_mut_slice(), &mut queue)? {
            return Ok(Outcome::Undercut(path_to(alloc, graph, numbers.as_slice(), place, end)?));
        }
    }
    Ok(Outcome::Filled(numbers))
}
