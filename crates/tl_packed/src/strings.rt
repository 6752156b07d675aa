//! One string for each class of corners.

ghost use Rattle.std.specs.Prelude.{◌≡◌, IfOk};

use std::alloc::{AllocError, Global};
use tl_lattice::Kind;
use tl_layout::Layout;

/// The strings of the classes. On the square lattice, which has two classes, the third is empty.
#[derive(Drop)]
pub struct Strings {
    pub first: Vec<u64>,
    pub second: Vec<u64>,
    pub third: Vec<u64>,
}

impl Strings {
    ghost use Rattle.tl_packed.specs.OfClasses.{AreOfLayout, AreCopies};

    /// Strings of a layout, with no bit set.
    ///
    /// # Errors
    /// Want of memory.
    pub fn new(alloc: Global, layout: &Layout) -> Result<Strings, AllocError>
        ensures size { IfOk result (λ strings. AreOfLayout layout.now strings) }
    {
        let size = layout.size();
        let third = match layout.kind {
            Kind::Square => 0,
            Kind::Triangle => size,
        };
        Ok(Strings {
            first: vec![in alloc; 0u64; size]?,
            second: vec![in alloc; 0u64; size]?,
            third: vec![in alloc; 0u64; third]?,
        })
    }

    /// A copy.
    ///
    /// # Errors
    /// Want of memory.
    pub fn copy(&self, alloc: Global) -> Result<Strings, AllocError>
        ensures { IfOk result (λ strings. AreCopies strings self.now) }
    {
        Ok(Strings {
            first: self.first.to_vec(alloc)?,
            second: self.second.to_vec(alloc)?,
            third: self.third.to_vec(alloc)?,
        })
    }

    /// Takes over the words of other strings of the same layout.
    pub fn copy_from(&mut self, layout: &Layout, other: &Strings)
        requires size { AreOfLayout layout.now self.old }
        requires other_size { AreOfLayout layout.now other.now }
        ensures { AreCopies self.new other.now }
    {
        self.first.copy_from_slice(&other.first);
        self.second.copy_from_slice(&other.second);
        if !other.third.is_empty() {
            self.third.copy_from_slice(&other.third);
        }
    }
}
