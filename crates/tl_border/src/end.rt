//! One end of a border.
ghost use Rattle.std.specs.Prelude.{◌≡◌, MatchOption, MatchResult};
ghost use Rattle.tl_border.specs.Ends.{IsNextToSend, IsSentBy, IsRefusedBy, IsReceivedBy, IsMissedBy};

use crate::line::{Gets, Line, LinePass, Sends, count_failure};
use crate::row::Row;
use std::alloc::Global;
use std::marker::Model;
use std::sync::{Arc, Wait};

/// The end of a border on one side. It sends this side's rows and receives the other's.
#[derive(Drop)]
pub struct End {
    pub(crate) outgoing: Arc<Line, Global>,
    pub(crate) incoming: Arc<Line, Global>,
    pub(crate) sender: LinePass,
    pub(crate) receiver: LinePass,
}

impl Model for End {
    ghost use Rattle.std.specs.Arc.{arc_value};
    ghost use Rattle.tl_border.specs.Ends.{EndView};
    ghost use Rattle.tl_border.specs.Lines.{IsEndOf, end_of};

    ghost Value = { EndView };

    ghost view = { λ e. end_of e.sender e.receiver };

    ghost invariant = { λ e. IsEndOf (arc_value e.outgoing) (arc_value e.incoming) e.sender e.receiver };
}

impl End {
    /// Sends this side's next row. `Err` hands it back, where the push found no room for it.
    pub fn send<R: Wait>(&mut self, rt: &R, row: Row) -> Result<(), Row>
        requires { IsNextToSend self.old row }
        ensures { MatchResult result (λ _. IsSentBy self.old self.new) (λ back. (back ≡ row) × IsRefusedBy self.old self.new) }
    {
        let line = &*self.outgoing;
        match line.push_as::<Sends, R>(rt, &mut self.sender, row) {
            Ok(()) => Ok(()),
            Err(back) => {
                count_failure(line, &mut self.sender);
                Err(back)
            }
        }
    }

    /// The other side's next row. `None` where the pop found nothing.
    pub fn receive<R: Wait>(&mut self, rt: &R) -> Option<Row>
        ensures { MatchOption result (IsMissedBy self.old self.new) (λ row. IsReceivedBy self.old row self.new) }
    {
        let line = &*self.incoming;
        match line.pop_as::<Gets, R>(rt, &mut self.receiver) {
            Some(row) => Some(row),
            None => {
                count_failure(line, &mut self.receiver);
                None
            }
        }
    }
}
