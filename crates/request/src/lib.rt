// Requests, read from received bytes. A frame is refused by the outcomes and statuses of document 01 that need no table;
// else its fields are shown, with extras, key and value as parts of the caller's bytes.
#![tactic(auto)]

ghost use Rattle.std.specs.Prelude.{◌≡◌};
ghost use Rattle.outcome.specs.Outcome.{status_of};
ghost use Rattle.request.specs.declared.Unread.TheVariants.{Refused, Status as Answered};
ghost use Rattle.request.specs.Reading.{Reading, gate_told, numbers_told, reading_told, reading_needed, accepted, gate_needed, gate_of, extras_span, key_span, value_span, bytes_in, fields_of, frame_of, frame_status, reading};

use header::Header;
use numbers::Cas;
use outcome::{Refusal, Status};

pub mod view;

// The header fields that a sender chooses.
#[derive(Clone, Copy)]
pub struct Fields {
    pub opcode: u8,
    pub datatype: u8,
    pub vbucket: u16,
    pub opaque: u32,
    pub cas: Cas,
}

// Bytes of a frame: a place counted from the frame's start, and a length.
#[derive(Clone, Copy)]
pub struct Span {
    pub at: usize,
    pub len: usize,
}

// A request that was read. Its value ends with `meta` bytes of extended meta.
#[derive(Clone, Copy)]
pub struct Frame {
    pub fields: Fields,
    pub extras: Span,
    pub key: Span,
    pub value: Span,
    pub meta: usize,
}

// The longest body that is taken.
pub const LONGEST_BODY: u32 = 1400;

// Why there is no request to show.
#[derive(Clone, Copy, Debug, PartialEq, Eq)]
pub enum Unread {
    Refused(Refusal),
    Status(Status),
}

impl From<Refusal> for Unread {
    ghost from_gives = { λ refusal unread. unread ≡ Refused refusal };

    fn from(refusal: Refusal) -> Unread {
        Unread::Refused(refusal)
    }
}

impl From<Status> for Unread {
    ghost from_gives = { λ status unread. unread ≡ Answered status };

    fn from(status: Status) -> Unread {
        Unread::Status(status)
    }
}

// An answer of the reader by its numbers, of which any may stand here: an outcome, a status, or the request.
#[derive(Clone, Copy)]
pub enum ReadingNumbers {
    Outcome(u8),
    Status(u8),
    Accepted(Frame),
}

impl ReadingNumbers {
    // The request, where it was read.
    #[inline(always)]
    pub fn accepted(self) -> Option<Frame>
        ensures { result ≡ accepted (numbers_told self) }
    {
        match self {
            ReadingNumbers::Accepted(frame) => Some(frame),
            _ => None,
        }
    }
}

// What tells what reading gave: the reader's own answer, or an answer by its numbers.
pub trait ReadingCode: Copy {
    ghost told: { Self → Reading };

    fn numbers(self) -> ReadingNumbers
        ensures { numbers_told result ≡ told self };
}

impl ReadingCode for ReadingNumbers {
    ghost told = { numbers_told };

    #[inline(always)]
    fn numbers(self) -> ReadingNumbers {
        self
    }
}

impl ReadingCode for Result<Frame, Unread> {
    ghost told = { reading_told };

    #[inline(always)]
    fn numbers(self) -> ReadingNumbers {
        match self {
            Ok(frame) => ReadingNumbers::Accepted(frame),
            Err(Unread::Refused(refusal)) => ReadingNumbers::Outcome(refusal.number()),
            Err(Unread::Status(status)) => ReadingNumbers::Status(status.number()),
        }
    }
}

// The header of the frame at the start of the received bytes, where it is there whole: outcomes 1, 2, 3 in the order tested.
#[tactic(auto, unfolding(crate::specs::Reading::gate_of))]
pub fn gate_of(received: &[u8]) -> Result<Header, Refusal>
    ensures { gate_told result ≡ gate_of received.now }
{
    if received.len() < header::SIZE {
        return Err(Refusal::Incomplete(header::SIZE));
    }
    let h = header::read(received);
    if h.magic != header::REQUEST_MAGIC {
        return Err(Refusal::BadMagic);
    }
    if LONGEST_BODY < h.body {
        return Err(Refusal::TooLong);
    }
    let end = header::layout_of(h).end;
    if received.len() < end {
        return Err(Refusal::Incomplete(end));
    }
    Ok(h)
}

#[tactic(auto, unfolding(crate::specs::Reading::extras_span))]
pub fn extras_span(h: Header) -> Span
    ensures { result ≡ extras_span h }
{
    Span {
        at: header::layout_of(h).extras,
        len: usize::from(h.extlen),
    }
}

#[tactic(auto, unfolding(crate::specs::Reading::key_span))]
pub fn key_span(h: Header) -> Span
    ensures { result ≡ key_span h }
{
    Span {
        at: header::layout_of(h).key,
        len: usize::from(h.keylen),
    }
}

#[tactic(auto, unfolding(crate::specs::Reading::value_span))]
pub fn value_span(h: Header) -> Span
    ensures { result ≡ value_span h }
{
    let l = header::layout_of(h);
    Span {
        at: l.value,
        len: l.end.saturating_sub(l.value),
    }
}

// The bytes of a span, as far as they are there.
pub fn bytes_in(s: &[u8], p: Span) -> &[u8]
    ensures { result.now ≡ bytes_in s.now p }
{
    octets::part(s, p.at, p.len)
}

#[tactic(auto, unfolding(crate::specs::Reading::fields_of))]
fn fields_of(h: Header) -> Fields
    ensures { result ≡ fields_of h }
{
    Fields {
        opcode: h.opcode,
        datatype: h.datatype,
        vbucket: h.vbucket,
        opaque: h.opaque,
        cas: h.cas,
    }
}

// What reading shows of a frame with this header.
#[tactic(auto, unfolding(crate::specs::Reading::frame_of))]
pub fn frame_of(s: &[u8], h: Header) -> Frame
    ensures { result ≡ frame_of s.now h }
{
    let extras = extras_span(h);
    Frame {
        fields: fields_of(h),
        extras,
        key: key_span(h),
        value: value_span(h),
        meta: rules::meta_size(shape::shape_of(h.opcode), bytes_in(s, extras)),
    }
}

// Statuses 1 to 3 of a frame with this header. Serving puts the rules that need mode or clock before a 0x03.
#[tactic(auto, unfolding(crate::specs::Reading::frame_status))]
pub fn frame_status(s: &[u8], h: Header) -> Result<(), Status>
    ensures { status_of result ≡ frame_status s.now h }
{
    rules::status(h, bytes_in(s, extras_span(h)), bytes_in(s, value_span(h)))
}

// Reads the request at the start of the received bytes.
#[tactic(auto, unfolding(crate::specs::Reading::reading, crate::specs::Reading::whole_reading))]
pub fn read(received: &[u8]) -> Result<Frame, Unread>
    ensures reading { reading_told result ≡ reading received.now }
    ensures needed { reading_needed result ≡ gate_needed (gate_of received.now) }
{
    let h = gate_of(received)?;
    frame_status(received, h)?;
    Ok(frame_of(received, h))
}
