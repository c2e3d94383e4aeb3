// The answers as C takes them: structs of numbers, in which outcomes and statuses are document 01's. What an answer
// doesn't have is 0.
#![tactic(auto)]

ghost use Rattle.std.specs.Prelude.{◌≡◌};
ghost use Rattle.outcome.specs.Outcome.{status_number};
ghost use Rattle.owning.specs.Owner.{read_told, purged_told, activated_told};
ghost use Rattle.replay.specs.Replay.{ending_told};
ghost use Rattle.request_writer.specs.Writing.{written_told};
ghost use Rattle.answers.specs.Answers.{served_answer, ran_answer, part_of, lifetime_of, live_answer, no_document, document_answer, purged_answer, activated_answer, request_refused, request_shown, request_answer, written_answer, replayed_answer};

use numbers::Numbers;
use owning::{ActivateError, Document, PurgeError, ReadError};
use replay::ReplayError;
use request::{Frame, ReadingCode, ReadingNumbers, Span};
use request_writer::WriteError;
use run::RanCode;
use serving::{AnswerCode, ServedNumbers};
use tally::Tally;

// Bytes of a frame or of a table: a place counted from its first byte, and a length.
#[repr(C)]
#[derive(Clone, Copy)]
pub struct Part {
    pub at: usize,
    pub len: usize,
}

#[repr(C)]
#[derive(Clone, Copy)]
pub struct ServedAnswer {
    pub outcome: u8,
    pub status: u8,
    pub used: usize,
    pub reply: usize,
    pub needed: usize,
}

// Why a run stopped, and what was consumed and answered before.
#[repr(C)]
#[derive(Clone, Copy)]
pub struct RanAnswer {
    pub outcome: u8,
    pub used: usize,
    pub reply: usize,
    pub needed: usize,
}

#[repr(C)]
#[derive(Clone, Copy)]
pub struct DocumentAnswer {
    pub outcome: u8,
    pub status: u8,
    // 1: the document never expires; 2: left has the seconds, none or fewer where it has expired; 0: there is none to tell
    pub lifetime: u8,
    pub flags: u32,
    pub expiry: u32,
    pub revision: u64,
    pub cas: u64,
    pub left: i64,
    pub value: Part,
}

#[repr(C)]
#[derive(Clone, Copy)]
pub struct PurgedAnswer {
    pub outcome: u8,
    pub freed: usize,
}

#[repr(C)]
#[derive(Clone, Copy)]
pub struct ActivatedAnswer {
    pub outcome: u8,
    pub status: u8,
}

// The value ends with `meta` bytes of extended meta.
#[repr(C)]
#[derive(Clone, Copy)]
pub struct RequestAnswer {
    pub outcome: u8,
    pub status: u8,
    pub opcode: u8,
    pub datatype: u8,
    pub vbucket: u16,
    pub opaque: u32,
    pub cas: u64,
    pub extras: Part,
    pub key: Part,
    pub value: Part,
    pub meta: usize,
}

#[repr(C)]
#[derive(Clone, Copy)]
pub struct WrittenAnswer {
    pub outcome: u8,
    pub status: u8,
    pub len: usize,
}

#[repr(C)]
#[derive(Clone, Copy)]
pub struct ReplayedAnswer {
    pub outcome: u8,
    // 1: differs, 2: stopped, both at a place; 3: replayed, so many frames
    pub end: u8,
    pub place: usize,
    pub frames: usize,
}

const NO_PART: Part = Part { at: 0, len: 0 };

pub fn served_answer<A: AnswerCode>(answer: A) -> ServedAnswer
    ensures { result ≡ served_answer (A.told answer) }
{
    match answer.numbers() {
        ServedNumbers::Refused(outcome, needed) => ServedAnswer {
            outcome,
            status: 0,
            used: 0,
            reply: 0,
            needed,
        },
        ServedNumbers::Done(status, used, reply) => ServedAnswer {
            outcome: 0,
            status,
            used,
            reply,
            needed: 0,
        },
    }
}

pub fn ran_answer<R: RanCode>(r: R) -> RanAnswer
    ensures { result ≡ ran_answer (R.told r) }
{
    let ran = r.numbers();
    let stop = served_answer(ran.stop);
    RanAnswer {
        outcome: stop.outcome,
        used: ran.cursor.at,
        reply: ran.filled,
        needed: stop.needed,
    }
}

// The counts after a run.
pub fn ran_tally<R: RanCode>(r: R) -> Tally
    ensures { result ≡ (R.told r).tally }
{
    r.numbers().tally
}

fn part_of(p: Span) -> Part
    ensures { result ≡ part_of p }
{
    Part {
        at: p.at,
        len: p.len,
    }
}

fn lifetime_of(left: Option<i64>) -> u8
    ensures { result ≡ lifetime_of left }
{
    match left {
        None => 1,
        Some(_) => 2,
    }
}

fn live_answer(d: Document) -> DocumentAnswer
    ensures { result ≡ live_answer d.numbers d.left d.at d.len }
{
    DocumentAnswer {
        outcome: 0,
        status: 0,
        lifetime: lifetime_of(d.left),
        flags: d.numbers.flags,
        expiry: d.numbers.expiry,
        revision: d.numbers.revision.0,
        cas: d.numbers.cas.0,
        left: numbers::seconds_in(d.left),
        value: Part {
            at: d.at,
            len: d.len,
        },
    }
}

fn no_document(outcome: u8, status: u8, lifetime: u8, left: i64) -> DocumentAnswer
    ensures { result ≡ no_document outcome status lifetime left }
{
    DocumentAnswer {
        outcome,
        status,
        lifetime,
        flags: 0,
        expiry: 0,
        revision: 0,
        cas: 0,
        left,
        value: NO_PART,
    }
}

pub fn document_answer(answer: Result<Document, ReadError>) -> DocumentAnswer
    ensures { result ≡ document_answer (read_told answer) }
{
    match answer {
        Ok(document) => live_answer(document),
        Err(ReadError::Damaged) => no_document(5, 0, 0, 0),
        Err(ReadError::Missing) => no_document(0, 0x01, 0, 0),
        Err(ReadError::Expired(seconds)) => no_document(0, 0x01, 2, seconds),
    }
}

pub fn purged_answer(answer: Result<usize, PurgeError>) -> PurgedAnswer
    ensures { result ≡ purged_answer (purged_told answer) }
{
    match answer {
        Ok(freed) => PurgedAnswer { outcome: 0, freed },
        Err(PurgeError::Damaged) => PurgedAnswer {
            outcome: 5,
            freed: 0,
        },
    }
}

pub fn activated_answer(answer: Result<(), ActivateError>) -> ActivatedAnswer
    ensures { result ≡ activated_answer (activated_told answer) }
{
    match answer {
        Ok(()) => ActivatedAnswer {
            outcome: 0,
            status: 0,
        },
        Err(ActivateError::Damaged) => ActivatedAnswer {
            outcome: 5,
            status: 0,
        },
        Err(ActivateError::Dead) => ActivatedAnswer {
            outcome: 0,
            status: 0x07,
        },
    }
}

fn request_refused(outcome: u8, status: u8) -> RequestAnswer
    ensures { result ≡ request_refused outcome status }
{
    RequestAnswer {
        outcome,
        status,
        opcode: 0,
        datatype: 0,
        vbucket: 0,
        opaque: 0,
        cas: 0,
        extras: NO_PART,
        key: NO_PART,
        value: NO_PART,
        meta: 0,
    }
}

fn request_shown(f: Frame) -> RequestAnswer
    ensures { result ≡ request_shown f }
{
    RequestAnswer {
        outcome: 0,
        status: 0,
        opcode: f.fields.opcode,
        datatype: f.fields.datatype,
        vbucket: f.fields.vbucket,
        opaque: f.fields.opaque,
        cas: f.fields.cas.0,
        extras: part_of(f.extras),
        key: part_of(f.key),
        value: part_of(f.value),
        meta: f.meta,
    }
}

pub fn request_answer<R: ReadingCode>(answer: R) -> RequestAnswer
    ensures { result ≡ request_answer (R.told answer) }
{
    match answer.numbers() {
        ReadingNumbers::Outcome(outcome) => request_refused(outcome, 0),
        ReadingNumbers::Status(status) => request_refused(0, status),
        ReadingNumbers::Accepted(frame) => request_shown(frame),
    }
}

pub fn written_answer(answer: Result<usize, WriteError>) -> WrittenAnswer
    ensures { result ≡ written_answer (written_told answer) }
{
    match answer {
        Ok(len) => WrittenAnswer {
            outcome: 0,
            status: 0,
            len,
        },
        Err(WriteError::Refused) => WrittenAnswer {
            outcome: 0,
            status: 0x04,
            len: 0,
        },
        Err(WriteError::NoRoom) => WrittenAnswer {
            outcome: 4,
            status: 0,
            len: 0,
        },
    }
}

// A replay that ended at a place of its trace: 1 where the reply differs, 2 where it was stopped.
fn ended_at(end: u8, place: usize) -> ReplayedAnswer
    ensures { result ≡ (record { outcome = 0; end = end; place = place; frames = 0 }) }
{
    ReplayedAnswer {
        outcome: 0,
        end,
        place,
        frames: 0,
    }
}

pub fn replayed_answer(answer: Result<usize, ReplayError>) -> ReplayedAnswer
    ensures { result ≡ replayed_answer (ending_told answer) }
{
    match answer {
        Ok(frames) => ReplayedAnswer {
            outcome: 0,
            end: 3,
            place: 0,
            frames,
        },
        Err(ReplayError::Damaged) => ReplayedAnswer {
            outcome: 5,
            end: 0,
            place: 0,
            frames: 0,
        },
        Err(ReplayError::Differs(place)) => ended_at(1, place),
        Err(ReplayError::Stopped(place)) => ended_at(2, place),
    }
}
