//! Who fills pieces.
ghost use Rattle.std.specs.Prelude.{◌≡◌};

use tl_board::Piece;

/// Fills blank pieces of one kind.
pub trait Worker<P: Piece> {
    /// Whether this worker can fill the pieces of that job.
    ghost serves: { Self → P.Job → Type 0 };

    /// The piece of that number, made of a blank of its job. The worker serves after it whatever it served before.
    fn fill(&mut self, number: u32, blank: P) -> P
        requires serves { serves self.old (P.job blank) }
        ensures job { P.job result ≡ P.job blank }
        ensures filled { P.filled_for result number }
        ensures serves { (job : P.Job) → serves self.old job → serves self.new job };
}
