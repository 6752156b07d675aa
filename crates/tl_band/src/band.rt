//! One band of rows.

ghost use Rattle.std.specs.Prelude.{◌≡◌, ◌+◌, ◌<◌, ◌≤◌, ◌^◌, ◌*◌, IsTrue, IfOk};
ghost use Rattle.tl_definitions.specs.Lattice.{classes};
ghost use Rattle.tl_bits.specs.Bits.{bit_at};
ghost use Rattle.tl_layout.specs.Coins.{ArePiecesOf};
ghost use Rattle.tl_packed.specs.OfClasses.{AreOfLayout};
ghost use Rattle.tl_courses.specs.Courses.{IsCourseOf, steps_of, time_at as time_of};
ghost use Rattle.tl_band.specs.Bands.{AreRowsDone, AreRowsKept, AreSameRows, IsBandAt, IsOfRows, IsPlacedIn};
ghost use Rattle.tl_band.specs.Edges.{IsFreeAt, IsSideAt};

use crate::coins::Coins;
use crate::edge::{Edge, Link, class_at};
use crate::stretch::Sweeping;
use std::alloc::{AllocError, Global};
use std::sync::Wait;
use tl_bits::Bits;
use tl_lattice::Kind;
use tl_layout::Layout;
use tl_packed::Strings;
use tl_row_sweep::{copy_rows, sweep_rows};

/// The rows of words between two edges, in strings of the whole layout. The row above and the row below are kept too.
#[derive(Drop)]
pub struct Band {
    pub(crate) strings: Strings,
    pub upper: Edge,
    pub lower: Edge,
    /// How many classes of the stretch are swept.
    pub done: u64,
}

// The time of the sweep to which a class belongs that is swept after so many others.
fn time_at(kind: Kind, from: u64, done: u64) -> u64
    requires { done < from * classes kind }
    ensures time { result ≡ time_of kind from done }
    ensures first { 1 ≤ result }
    ensures last { result ≤ from }
{
    match kind {
        Kind::Square => from - done / 2,
        Kind::Triangle => from - done / 3,
    }
}

/// How many classes a stretch sweeps.
pub fn steps<S: Sweeping>(stretch: &S) -> u64
    requires { (S.course stretch.now).from ≤ 2 ^ 30 }
    ensures { result ≡ steps_of (S.course stretch.now) }
{
    match stretch.layout().kind {
        Kind::Square => stretch.from() * 2,
        Kind::Triangle => stretch.from() * 3,
    }
}

impl Band {
    /// Room for a band of the rows of words from `first` to before `end`.
    ///
    /// # Errors
    /// Want of memory.
    pub fn new(alloc: Global, layout: &Layout, first: usize, end: usize) -> Result<Band, AllocError>
        requires first { 1 ≤ first }
        requires some { first < end }
        ensures { IfOk result (IsOfRows layout.now first end) }
    {
        Ok(Band {
            strings: Strings::new(alloc, layout)?,
            upper: Edge {
                own: first,
                beside: first - 1,
                link: None,
            },
            lower: Edge {
                own: end - 1,
                beside: end,
                link: None,
            },
            done: 0,
        })
    }

    /// Goes to the start of a stretch, with these ends of the borders above and below.
    pub fn begin<S: Sweeping>(&mut self, stretch: &S, upper: Option<Link>, lower: Option<Link>)
        requires course { IsCourseOf (S.region stretch.now) (S.bits stretch.now) (S.course stretch.now) }
        requires placed { IsPlacedIn (S.course stretch.now).layout self.old }
        requires upper { IsSideAt (S.course stretch.now) self.old.upper.own self.old.upper.beside 0 upper }
        requires lower { IsSideAt (S.course stretch.now) self.old.lower.own self.old.lower.beside 0 lower }
        ensures at { IsBandAt (S.course stretch.now) self.new }
        ensures rows { AreSameRows self.old self.new }
    {
        let above = self.upper.beside;
        let below = self.lower.beside + 1;
        copy_rows(
            stretch.layout(),
            stretch.start(),
            &mut self.strings,
            above,
            below,
        );
        self.upper.link = upper;
        self.lower.link = lower;
        self.done = 0;
    }

    /// Copies the band's own rows, with all classes swept, to strings of the whole layout.
    pub fn store<S: Sweeping>(&self, stretch: &S, both: &mut Strings)
        requires at { IsBandAt (S.course stretch.now) self.now }
        requires done { self.now.done ≡ steps_of (S.course stretch.now) }
        requires size { AreOfLayout (S.course stretch.now).layout both.old }
        ensures size { AreOfLayout (S.course stretch.now).layout both.new }
        ensures own { AreRowsDone (S.course stretch.now) self.now.upper.own self.now.lower.beside both.new }
        ensures outside { AreRowsKept (S.course stretch.now).layout self.now.upper.own self.now.lower.beside both.old both.new }
    {
        let first = self.upper.own;
        let end = self.lower.beside;
        copy_rows(stretch.layout(), &self.strings, both, first, end);
    }

    // Sends the rows that wait, where there is room for them.
    fn send<R: Wait, S: Sweeping>(&mut self, rt: &R, stretch: &S)
        requires { IsBandAt (S.course stretch.now) self.old }
        ensures at { IsBandAt (S.course stretch.now) self.new }
        ensures rows { AreSameRows self.old self.new }
    {
        self.upper.send(rt);
        self.lower.send(rt);
        let _steps = stretch.from();
    }

    // Takes over the rows beside the band that have come.
    fn receive<R: Wait, S: Sweeping>(&mut self, rt: &R, stretch: &S)
        requires course { IsCourseOf (S.region stretch.now) (S.bits stretch.now) (S.course stretch.now) }
        requires at { IsBandAt (S.course stretch.now) self.old }
        ensures at { IsBandAt (S.course stretch.now) self.new }
        ensures rows { AreSameRows self.old self.new }
    {
        self.upper
            .receive(rt, stretch, self.done, &mut self.strings);
        self.lower
            .receive(rt, stretch, self.done, &mut self.strings);
    }

    // Whether the rows have come that the next class needs, and one is left.
    fn is_ready<S: Sweeping>(&self, stretch: &S) -> bool
        requires { (S.course stretch.now).from ≤ 2 ^ 30 }
        ensures left { IsTrue result → self.now.done < steps_of (S.course stretch.now) }
        ensures upper { IsTrue result → IsFreeAt self.now.done self.now.upper.link }
        ensures lower { IsTrue result → IsFreeAt self.now.done self.now.lower.link }
    {
        self.done < steps(stretch) && self.upper.is_free(self.done) && self.lower.is_free(self.done)
    }

    // Sweeps the next class.
    fn sweep<S: Sweeping, B: Bits>(&mut self, stretch: &S, coins: &mut Coins<B>)
        requires course { IsCourseOf (S.region stretch.now) (S.bits stretch.now) (S.course stretch.now) }
        requires from { (S.course stretch.now).from ≤ 2 ^ 30 }
        requires pieces { ∥ ArePiecesOf (S.region stretch.now) (S.course stretch.now).layout coins.old.pieces ∥₁ }
        requires bits { bit_at (B.word_at coins.old.kept.bits) ≡ S.bits stretch.now }
        requires at { IsBandAt (S.course stretch.now) self.old }
        requires left { self.old.done < steps_of (S.course stretch.now) }
        requires upper { IsFreeAt self.old.done self.old.upper.link }
        requires lower { IsFreeAt self.old.done self.old.lower.link }
        ensures at { IsBandAt (S.course stretch.now) self.new }
        ensures rows { AreSameRows self.old self.new }
        ensures words { B.words coins.new.kept.bits ≡ B.words coins.old.kept.bits }
        ensures function { B.word_at coins.new.kept.bits ≡ B.word_at coins.old.kept.bits }
        ensures pieces { coins.new.pieces ≡ coins.old.pieces }
    {
        let layout = stretch.layout();
        let class = class_at(layout.kind, self.done);
        coins.lay_out(time_at(layout.kind, stretch.from(), self.done));
        sweep_rows(
            layout,
            stretch.slots(),
            &coins.words,
            &mut self.strings,
            class,
            self.upper.own,
            self.lower.beside,
        );
        self.done += 1;
        self.upper.offer(layout, &self.strings, class);
        self.lower.offer(layout, &self.strings, class);
    }

    /// Sweeps the next class, where the rows have come that it needs, and hands on the edge rows. Tells whether it did.
    pub fn turn<R: Wait, S: Sweeping, B: Bits>(
        &mut self,
        rt: &R,
        stretch: &S,
        coins: &mut Coins<B>,
    ) -> bool
        requires course { IsCourseOf (S.region stretch.now) (S.bits stretch.now) (S.course stretch.now) }
        requires from { (S.course stretch.now).from ≤ 2 ^ 30 }
        requires pieces { ∥ ArePiecesOf (S.region stretch.now) (S.course stretch.now).layout coins.old.pieces ∥₁ }
        requires bits { bit_at (B.word_at coins.old.kept.bits) ≡ S.bits stretch.now }
        requires at { IsBandAt (S.course stretch.now) self.old }
        ensures at { IsBandAt (S.course stretch.now) self.new }
        ensures rows { AreSameRows self.old self.new }
        ensures words { B.words coins.new.kept.bits ≡ B.words coins.old.kept.bits }
        ensures function { B.word_at coins.new.kept.bits ≡ B.word_at coins.old.kept.bits }
        ensures pieces { coins.new.pieces ≡ coins.old.pieces }
    {
        self.send(rt, stretch);
        self.receive(rt, stretch);
        let is_ready = self.is_ready(stretch);
        if is_ready {
            self.sweep(stretch, coins);
            self.send(rt, stretch);
        }
        is_ready
    }
}
