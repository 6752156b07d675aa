//! What is drawn and posted.
ghost use Rattle.std.specs.Prelude.{ℕ};

/// A piece is for one number of a job.
pub trait Piece: Send + Drop {
    /// Plain data that names what is drawn.
    type Job;

    ghost job: { Self → Self.Job };

    /// The piece is the answer of that number of its job.
    ghost filled_for: { Self → ℕ → Type 0 };
}
