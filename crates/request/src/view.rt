// The view of a request: the received bytes, and what reading them gave.
ghost use Rattle.std.specs.Prelude.{◌≡◌};
ghost use Rattle.request.specs.Reading.{gate_needed, gate_of, reading, reading_needed, reading_told};
ghost use Rattle.request.specs.View.{bytes_shown, extras_shown, key_shown, value_shown};

use crate::{Frame, ReadingCode, Span, Unread};

#[derive(Clone, Copy)]
pub struct Request<'a, R = Result<Frame, Unread>> {
    pub received: &'a [u8],
    pub reading: R,
}

// The bytes of a span, none where there is none.
fn shown(s: &[u8], span: Option<Span>) -> &[u8]
    ensures { result.now ≡ bytes_shown s.now span }
{
    match span {
        Some(span) => crate::bytes_in(s, span),
        None => &s[..0],
    }
}

impl<'a> Request<'a, Result<Frame, Unread>> {
    pub fn open(received: &'a [u8]) -> Request<'a, Result<Frame, Unread>>
        ensures reading { (result.received ≡ received.entry) × (reading_told result.reading ≡ reading received.now) }
        ensures needed { reading_needed result.reading ≡ gate_needed (gate_of received.now) }
    {
        Request {
            received,
            reading: crate::read(received),
        }
    }
}

impl<'a, R: ReadingCode> Request<'a, R> {
    pub fn extras(self) -> &'a [u8]
        ensures { result.now ≡ extras_shown self.entry.received.now (R.told self.entry.reading) }
    {
        shown(
            self.received,
            self.reading.numbers().accepted().map(|frame| frame.extras),
        )
    }

    pub fn key(self) -> &'a [u8]
        ensures { result.now ≡ key_shown self.entry.received.now (R.told self.entry.reading) }
    {
        shown(
            self.received,
            self.reading.numbers().accepted().map(|frame| frame.key),
        )
    }

    pub fn value(self) -> &'a [u8]
        ensures { result.now ≡ value_shown self.entry.received.now (R.told self.entry.reading) }
    {
        shown(
            self.received,
            self.reading.numbers().accepted().map(|frame| frame.value),
        )
    }
}

// The same as functions of the view.
pub fn open<'a>(received: &'a [u8]) -> Request<'a, Result<Frame, Unread>>
    ensures reading { (result.received ≡ received.entry) × (reading_told result.reading ≡ reading received.now) }
    ensures needed { reading_needed result.reading ≡ gate_needed (gate_of received.now) }
{
    Request::open(received)
}

pub fn extras<'a, R: ReadingCode>(request: Request<'a, R>) -> &'a [u8]
    ensures { result.now ≡ extras_shown request.entry.received.now (R.told request.entry.reading) }
{
    request.extras()
}

pub fn key<'a, R: ReadingCode>(request: Request<'a, R>) -> &'a [u8]
    ensures { result.now ≡ key_shown request.entry.received.now (R.told request.entry.reading) }
{
    request.key()
}

pub fn value<'a, R: ReadingCode>(request: Request<'a, R>) -> &'a [u8]
    ensures { result.now ≡ value_shown request.entry.received.now (R.told request.entry.reading) }
{
    request.value()
}
