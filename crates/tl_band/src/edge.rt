//! The edges of a band, and its ends of the borders there.

ghost use Rattle.std.specs.Prelude.{◌≡◌, ◌+◌, ◌<◌, ◌≤◌, ◌↔◌, ℕ, length, IsTrue, MatchOption};
ghost use Rattle.tl_definitions.specs.Lattice.{classes};
ghost use Rattle.tl_border.specs.Ends.{IsNextToSend};
ghost use Rattle.tl_border.specs.Rows.{other, rows_of};
ghost use Rattle.tl_packed.specs.OfClasses.{AreOfLayout, of_class};
ghost use Rattle.tl_row_sweep.specs.Rows.{AreKeptBeside};
ghost use Rattle.tl_courses.specs.Courses.{IsCourseOf, class_at as swept_class, steps_of};
ghost use Rattle.tl_band.specs.Edges.{
  AreLinked,
  AreOfSize,
  arrived,
  IsEdgeAt,
  IsFree,
  IsFreeAt,
  IsLinkAt,
  IsOffered,
  IsReadyToSend,
  IsRowAfter,
  IsServed,
};
ghost use Rattle.tl_band.specs.Handed.{edge_rows};

use crate::stretch::Sweeping;
use crate::words::{read_row, write_row};
use std::sync::Wait;
use tl_border::{End, Row};
use tl_lattice::Kind;
use tl_layout::Layout;
use tl_packed::Strings;

/// A band's end of a border.
#[derive(Drop)]
pub struct Link {
    pub(crate) end: End,
    // the row that is to be sent, where there was no room for it yet
    pub(crate) unsent: Option<Row>,
    // how many rows have come
    pub(crate) received: u64,
    pub(crate) spare: Vec<Row>,
}

/// An edge row of a band, the row beside it, and the border between them where there is one.
#[derive(Drop)]
pub struct Edge {
    pub own: usize,
    pub beside: usize,
    pub(crate) link: Option<Link>,
}

// The class that is swept after so many others.
pub(crate) fn class_at(kind: Kind, done: u64) -> u8
    ensures { result ≡ swept_class kind done }
{
    match kind {
        Kind::Square => (done % 2) as u8,
        Kind::Triangle => (done % 3) as u8,
    }
}

impl Link {
    // Sends the row that waits, where there is room for it.
    fn send<R: Wait>(&mut self, rt: &R)
        requires { MatchOption self.old.unsent (Unit {0}) (λ row. IsNextToSend self.old.end row) }
        ensures { IsServed self.old self.new }
    {
        if let Some(row) = self.unsent.take() {
            if let Err(back) = self.end.send(rt, row) {
                self.unsent = Some(back);
            }
        }
    }

    // Takes over the next row beside the band, where it has come.
    fn receive<R: Wait, S: Sweeping>(
        &mut self,
        rt: &R,
        stretch: &S,
        done: u64,
        beside: usize,
        strings: &mut Strings,
    )
        requires course { IsCourseOf (S.region stretch.now) (S.bits stretch.now) (S.course stretch.now) }
        requires gets { rows_of self.old.end.job (other self.old.end.side) ≡ edge_rows (S.course stretch.now) beside }
        requires counted { self.old.end.received ≡ self.old.received }
        requires not_ahead { self.old.received ≤ done }
        requires size { AreOfLayout (S.course stretch.now).layout strings.old }
        requires beside { beside < (S.course stretch.now).layout.height }
        requires row { IsRowAfter (S.course stretch.now) self.old.received beside strings.old }
        ensures link { (own : ℕ) → IsLinkAt (S.course stretch.now) own beside done self.old
            → IsLinkAt (S.course stretch.now) own beside done self.new }
        ensures size { AreOfLayout (S.course stretch.now).layout strings.new }
        ensures outside { (class : ℕ) → class < classes (S.course stretch.now).layout.kind
            → AreKeptBeside (S.course stretch.now).layout.height beside (beside + 1) (of_class strings.old class) (of_class strings.new class) }
        ensures row { IsRowAfter (S.course stretch.now) self.new.received beside strings.new }
    {
        if self.received < done {
            if let Some(row) = self.end.receive(rt) {
                let layout = stretch.layout();
                let class = class_at(layout.kind, self.received);
                write_row(layout, strings, class, beside, &row.words);
                self.received += 1;
                self.put_by(row);
            }
        }
    }

    // Keeps a row for later, where there is room for it.
    fn put_by(&mut self, row: Row)
        ensures end { self.new.end ≡ self.old.end }
        ensures unsent { self.new.unsent ≡ self.old.unsent }
        ensures received { self.new.received ≡ self.old.received }
        ensures spare { (strips : ℕ) → AreOfSize strips self.old.spare.items → length row.words.items ≡ strips
            → AreOfSize strips self.new.spare.items }
    {
        if self.spare.len() < self.spare.capacity() {
            self.spare.push_reserved(row);
        }
    }

    // Whether a row can be made ready for sending.
    fn is_free(&self) -> bool
        ensures { IsTrue result → IsFree self.now }
    {
        self.unsent.is_none() && !self.spare.is_empty()
    }

    // Makes the words of the band's edge row ready for sending.
    fn offer(&mut self, layout: &Layout, strings: &Strings, class: u8, own: usize)
        requires free { IsFree self.old }
        requires spare { AreOfSize layout.now.strips self.old.spare.items }
        requires size { AreOfLayout layout.now strings.now }
        requires class { class < classes layout.now.kind }
        requires own { own < layout.now.height }
        ensures { IsOffered layout.now own (of_class strings.now class) self.old self.new }
    {
        let Some(mut row) = self.spare.pop() else {
            unreachable!()
        };
        read_row(layout, strings, class, own, &mut row.words);
        self.unsent = Some(row);
    }
}

impl Edge {
    /// Sends the row that waits, where there is room for it.
    pub(crate) fn send<R: Wait>(&mut self, rt: &R)
        requires { IsReadyToSend self.old }
        ensures own { self.new.own ≡ self.old.own }
        ensures beside { self.new.beside ≡ self.old.beside }
        ensures served { AreLinked IsServed self.old.link self.new.link }
    {
        if let Some(link) = &mut self.link {
            link.send(rt);
        }
    }

    /// Takes over the next row beside the band, where it has come.
    pub(crate) fn receive<R: Wait, S: Sweeping>(
        &mut self,
        rt: &R,
        stretch: &S,
        done: u64,
        strings: &mut Strings,
    )
        requires course { IsCourseOf (S.region stretch.now) (S.bits stretch.now) (S.course stretch.now) }
        requires edge { IsEdgeAt (S.course stretch.now) done self.old }
        requires size { AreOfLayout (S.course stretch.now).layout strings.old }
        requires beside { self.old.beside < (S.course stretch.now).layout.height }
        requires row { IsRowAfter (S.course stretch.now) (arrived self.old done) self.old.beside strings.old }
        ensures own { self.new.own ≡ self.old.own }
        ensures beside { self.new.beside ≡ self.old.beside }
        ensures edge { IsEdgeAt (S.course stretch.now) done self.new }
        ensures size { AreOfLayout (S.course stretch.now).layout strings.new }
        ensures outside { (class : ℕ) → class < classes (S.course stretch.now).layout.kind
            → AreKeptBeside (S.course stretch.now).layout.height self.old.beside (self.old.beside + 1)
            (of_class strings.old class) (of_class strings.new class) }
        ensures row { IsRowAfter (S.course stretch.now) (arrived self.new done) self.old.beside strings.new }
    {
        let beside = self.beside;
        if let Some(link) = &mut self.link {
            link.receive(rt, stretch, done, beside, strings);
        }
    }

    /// Whether the band may sweep its next class, as far as this edge goes.
    pub(crate) fn is_free(&self, done: u64) -> bool
        ensures { IsTrue result → IsFreeAt done self.now.link }
    {
        match &self.link {
            Some(link) => link.received == done && link.is_free(),
            None => true,
        }
    }

    /// Makes the words of the band's edge row ready for sending, where there is a border.
    pub(crate) fn offer(&mut self, layout: &Layout, strings: &Strings, class: u8)
        requires free { (done : ℕ) × IsFreeAt done self.old.link }
        requires spare { AreLinked (λ old new. AreOfSize layout.now.strips old.spare.items) self.old.link self.old.link }
        requires size { AreOfLayout layout.now strings.now }
        requires class { class < classes layout.now.kind }
        requires own { self.old.own < layout.now.height }
        ensures own { self.new.own ≡ self.old.own }
        ensures beside { self.new.beside ≡ self.old.beside }
        ensures offered { AreLinked (IsOffered layout.now self.old.own (of_class strings.now class)) self.old.link self.new.link }
    {
        let own = self.own;
        if let Some(link) = &mut self.link {
            link.offer(layout, strings, class, own);
        }
    }
}
