// What serving means: definitions alone, in specs/, shared by the code that serves and by what is promised of it.
#![tactic(auto)]

ghost use Rattle.std.specs.Prelude.{◌≡◌};
ghost use Rattle.serving.specs.Serve.{Served, served_told, numbers_told, served_succeeds, served_fails};

use outcome::{Refusal, Status};

// A frame that was served: its status, the bytes consumed and the reply's length, 0 where it is silent.
#[derive(Clone, Copy)]
pub struct Served {
    pub status: Result<(), Status>,
    pub used: usize,
    pub reply: usize,
}

// A call's answer by its numbers, of which any may stand here: an outcome and the bytes needed from the frame's start, or a status, the
// bytes consumed and the reply's length.
#[derive(Clone, Copy)]
pub enum ServedNumbers {
    Refused(u8, usize),
    Done(u8, usize, usize),
}

// What tells a call's answer. told: the answer in 01's numbers.
pub trait AnswerCode: Copy {
    ghost told: { Self → Served };

    fn numbers(self) -> ServedNumbers
        ensures { numbers_told result ≡ told self };

    // Whether a frame was served with status 0.
    fn succeeds(self) -> bool
        ensures { result ≡ served_succeeds (told self) };

    // Whether a frame was served with another status.
    fn fails(self) -> bool
        ensures { result ≡ served_fails (told self) };
}

impl AnswerCode for ServedNumbers {
    ghost told = { numbers_told };

    #[inline(always)]
    fn numbers(self) -> ServedNumbers {
        self
    }

    #[inline(always)]
    fn succeeds(self) -> bool {
        matches!(self, ServedNumbers::Done(0, _, _))
    }

    #[inline(always)]
    fn fails(self) -> bool {
        matches!(self, ServedNumbers::Done(1.., _, _))
    }
}

impl AnswerCode for Result<Served, Refusal> {
    ghost told = { served_told };

    #[inline(always)]
    fn numbers(self) -> ServedNumbers {
        match self {
            Ok(frame) => ServedNumbers::Done(
                outcome::status_of(frame.status),
                frame.used,
                frame.reply,
            ),
            Err(refusal) => ServedNumbers::Refused(refusal.number(), refusal.needed()),
        }
    }

    #[inline(always)]
    fn succeeds(self) -> bool {
        self.is_ok_and(|frame| frame.status.is_ok())
    }

    #[inline(always)]
    fn fails(self) -> bool {
        self.is_ok_and(|frame| frame.status.is_err())
    }
}

// The reply room that serving asks for, whatever the request: header, flags, key and value of the longest reply.
pub const ROOM: usize = 1302;
