//! Numbers that spread over a small graph, by hand.

ghost use Rattle.std.specs.Prelude.{◌≡◌, IsTrue};
ghost use Rattle.tl_search.specs.Tables.{are_sources, is_table, table_graph};

use crate::{Graph, Outcome, Reversed, Source, UNREACHED, spread};
use std::alloc::Global;

// A graph whose steps stand in tables: from each place, and back to each.
#[derive(Drop)]
struct Table {
    steps: [[Option<u32>; 3]; 6],
    back: [[Option<u32>; 3]; 6],
    ghost lawful: { IsTrue (is_table steps back) },
}

impl Graph for Table {
    ghost meaning = { λ table. table_graph table.steps table.back };

    fn count(&self) -> u32 {
        6
    }

    fn steps(&self, place: u32) -> [Option<u32>; 3] {
        self.steps[place as usize]
    }

    fn steps_back(&self, place: u32) -> [Option<u32>; 3] {
        self.back[place as usize]
    }
}

// 0 -> 1 -> 2 -> 3 -> 4, with a shortcut 0 -> 3, and 5 -> 0.
fn shortcut_graph() -> Table {
    Table {
        steps: [
            [Some(1), None, Some(3)],
            [None, Some(2), None],
            [Some(3), None, None],
            [None, None, Some(4)],
            [None, None, None],
            [Some(0), None, None],
        ],
        back: [
            [Some(5), None, None],
            [Some(0), None, None],
            [None, Some(1), None],
            [Some(0), Some(2), None],
            [None, Some(3), None],
            [None, None, None],
        ],
    }
}

fn at(place: u32, number: i32) -> Source
    ensures { result ≡ record { place = place; number = number } }
{
    Source { place, number }
}

fn is_filled(alloc: Global, sources: &[Source], wanted: &[i32]) -> bool
    requires { IsTrue (are_sources sources.now) }
{
    match spread(alloc, &shortcut_graph(), sources) {
        Ok(Outcome::Filled(numbers)) => numbers[..] == wanted[..],
        _ => false,
    }
}

fn is_filled_backwards(alloc: Global, sources: &[Source], wanted: &[i32]) -> bool
    requires { IsTrue (are_sources sources.now) }
{
    match spread(alloc, &Reversed(&shortcut_graph()), sources) {
        Ok(Outcome::Filled(numbers)) => numbers[..] == wanted[..],
        _ => false,
    }
}

fn is_undercut(alloc: Global, sources: &[Source], wanted: &[u32]) -> bool
    requires { IsTrue (are_sources sources.now) }
{
    match spread(alloc, &shortcut_graph(), sources) {
        Ok(Outcome::Undercut(path)) => path[..] == wanted[..],
        _ => false,
    }
}

#[test]
fn one_source_gives_distances(rt: HostRuntime) {
    assert!(rt; is_filled(rt.alloc(), &[at(0, 0)], &[0, 1, 2, 1, 2, UNREACHED]));
    assert!(rt; is_filled_backwards(rt.alloc(), &[at(4, 0)], &[2, 3, 2, 1, 0, 3]));
}

#[test]
fn two_sources_give_the_lesser_number(rt: HostRuntime) {
    let numbers = [0, 1, 2, -1, 0, UNREACHED];
    assert!(rt; is_filled(rt.alloc(), &[at(3, -1), at(0, 0)], &numbers));
}

// Two steps lead from 5 to 3.
#[test]
fn a_source_that_is_reached_earlier_is_undercut(rt: HostRuntime) {
    assert!(rt; is_filled(rt.alloc(), &[at(5, -1), at(3, 1)], &[0, 1, 2, 1, 2, -1]));
    assert!(rt; is_undercut(rt.alloc(), &[at(5, -1), at(3, 2)], &[5, 0, 3]));
}
