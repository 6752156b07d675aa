//! Replies: a text and a status.

ghost use Rattle.std.specs.Prelude.{◌≡◌, IsTrue};
ghost use Rattle.tl_run.specs.Answers.{is_whole};
ghost use Rattle.tl_run.specs.Statuses.{code_of};

use crate::status::Status;
use std::alloc::{AllocError, Global};
use std::borrow::CowSlice;

/// A whole text that is to be printed, and the status that goes with it.
#[derive(Drop)]
pub struct Reply {
    pub text: CowSlice<'static, u8, Global>,
    pub status: Status,
    ghost whole: { IsTrue (is_whole (code_of status)) },
}

impl Reply {
    ghost use Rattle.std.specs.String.{string_bytes};
    ghost use Rattle.tl_run.specs.Answers.{answer};
    ghost use Rattle.tl_run.specs.Replying.{answer_of};

    /// A reply of fixed text. It takes no memory.
    pub fn fixed(text: &'static str, status: Status) -> Reply
        requires { IsTrue (is_whole (code_of status)) }
        ensures { answer_of result ≡ answer text.now (code_of status) }
    {
        Reply {
            text: CowSlice::Borrowed(text.as_bytes()),
            status,
        }
    }

    /// A reply of a text that was made for it.
    pub fn made(text: String, status: Status) -> Reply
        requires { IsTrue (is_whole (code_of status)) }
        ensures { answer_of result ≡ answer (string_bytes text) (code_of status) }
    {
        Reply::of_bytes(text.into_bytes(), status)
    }

    /// A reply of the bytes of a text that was made for it.
    pub fn of_bytes(text: Vec<u8>, status: Status) -> Reply
        requires { IsTrue (is_whole (code_of status)) }
        ensures { answer_of result ≡ answer text.items (code_of status) }
    {
        Reply {
            text: CowSlice::Owned(text),
            status,
        }
    }
}

/// Why a command came to no reply of its own: it was refused, which has a reply too, or memory is wanted.
#[derive(Drop)]
pub enum Stop {
    Refused(Reply),
    Memory,
}

impl From<AllocError> for Stop {
    ghost use Rattle.tl_run.specs.declared.reply.Stop.TheVariants.{Memory};

    ghost from_gives = { λ _ stop. stop ≡ Memory };

    fn from(_: AllocError) -> Stop {
        Stop::Memory
    }
}
