// Recording what is served as a trace, to a file.
ghost use Rattle.std.specs.Prelude.{◌≡◌, ◌+◌, ◌≤◌, length};
ghost use Rattle.serving.specs.Serve.{served_told};
ghost use Rattle.trace_writer.specs.Writing.{opening_bytes, frame_fields};
ghost use Rattle.contact_box.specs.Recorder.{opened, is_on, stopped, grown, Grows, Short, Records, Hands, HandsOn};

use crate::{report, writing};
use outcome::Refusal;
use serving::Served;
use std::env::{Env, FillError};
use std::fs::Files;
use std::io::Write;
use std::{fmt, fs, io};
use trace::LONGEST;
use trace_writer::BEGINNING;

// Nothing is recorded; all is, so far; or the recording has stopped for good: the next fields would make the trace longer than one
// may be, or the file couldn't be written.
#[derive(Clone, Copy)]
pub(crate) enum Recording {
    Off,
    On,
    Full,
    Failed,
}

// at: the trace's length, which is the place of its next field; clock: the one that it told last, 0 before any.
#[derive(Clone, Copy)]
pub(crate) struct Recorder {
    at: usize,
    frames: u64,
    clock: u32,
    recording: Recording,
}

pub(crate) fn none() -> Recorder {
    Recorder {
        at: 0,
        frames: 0,
        clock: 0,
        recording: Recording::Off,
    }
}

const NAME_TOO_LONG: i32 = 36;

const NOT_THERE: i32 = 22;

const NOT_TEXT: i32 = 84;

// The system's error for an argument that can't be had.
fn error_of(why: FillError) -> io::Error {
    match why {
        FillError::TooLong => io::Error::from_raw_os_error(NAME_TOO_LONG),
        FillError::NotPresent => io::Error::from_raw_os_error(NOT_THERE),
    }
}

// Opens the file of a name, which is empty then.
fn open_named<R: Files>(files: &R, name: &[u8]) -> io::Result<R::File> {
    let Ok(path) = std::str::from_utf8(name) else {
        return Err(io::Error::from_raw_os_error(NOT_TEXT));
    };
    fs::create(files, path)
}

// Opens the file that an argument names, or says why it can't.
pub(crate) fn open<R: Env + Files, W: Write>(rt: &R, said: &mut W, i: usize) -> Option<R::File> {
    let mut name = [0u8; 4096];
    let n = match rt.arg(i, &mut name) {
        Ok(n) => n,
        Err(why) => {
            report::failed(said, b"contact_box: TRACE", error_of(why));
            return None;
        }
    };
    match open_named(rt, &name[..n]) {
        Ok(file) => Some(file),
        Err(why) => {
            report::failed(said, &name[..n], why);
            None
        }
    }
}

// A recorder whose opening was written or not.
fn opened(written: bool) -> Recorder
    ensures { result ≡ opened written }
{
    if written {
        return Recorder {
            at: BEGINNING,
            frames: 0,
            clock: 0,
            recording: Recording::On,
        };
    }
    Recorder {
        at: 0,
        frames: 0,
        clock: 0,
        recording: Recording::Failed,
    }
}

// Begins a trace by its opening and the rule of force that the box serves by.
pub(crate) fn begin<T: Write>(trace: &mut T, mode: u8, vbucket: u16) -> Recorder
    ensures fields { Hands result.recording (T.contents trace.old) (T.contents trace.new) (opening_bytes mode vbucket) }
{
    let mut opening = [0u8; BEGINNING];
    trace_writer::put_opening(&mut opening, mode, vbucket);
    opened(writing::all(trace, &opening))
}

pub(crate) fn is_on(r: Recorder) -> bool
    ensures { result ≡ is_on r.recording }
{
    matches!(r.recording, Recording::On)
}

// The recorder after n bytes more for one frame, which were written or not.
fn grown(r: Recorder, clock: u32, n: usize, written: bool) -> Recorder
    requires { r.at + n ≤ 65536 }
    ensures { result ≡ grown r clock n written }
{
    if written {
        return Recorder {
            at: r.at + n,
            frames: numbers::next(r.frames),
            clock,
            recording: Recording::On,
        };
    }
    stopped(r, Recording::Failed)
}

fn stopped(r: Recorder, recording: Recording) -> Recorder
    ensures { result ≡ stopped r recording }
{
    Recorder { recording, ..r }
}

// Records a frame that was served at a clock, and its reply, which is empty for a silent frame.
fn record<T: Write>(trace: &mut T, r: Recorder, clock: u32, frame: &[u8], reply: &[u8]) -> Recorder
    requires { (length frame.now ≤ 1424) × (length reply.now ≤ 1302) }
    ensures fields { Hands result.recording (T.contents trace.old) (T.contents trace.new)
        (frame_fields r.clock clock frame.now reply.now) }
    ensures grows { Grows r clock (frame_fields r.clock clock frame.now reply.now) result }
{
    let mut fields = [0u8; 2739];
    let n = trace_writer::put_served(&mut fields, r.clock, clock, frame, reply);
    if octets::minus(LONGEST, r.at) < n {
        return stopped(r, Recording::Full);
    }
    let written = writing::all(trace, octets::part(&fields, 0, n));
    grown(r, clock, n, written)
}

// Records what a call answered, if it served a frame.
pub(crate) fn record_answer<T: Write>(
    trace: &mut T,
    r: Recorder,
    clock: u32,
    answer: Result<Served, Refusal>,
    frame: &[u8],
    reply: &[u8],
) -> Recorder
    requires { Short (served_told answer) frame.now reply.now }
    ensures fields { HandsOn (served_told answer) result.recording (T.contents trace.old) (T.contents trace.new)
        (frame_fields r.clock clock frame.now reply.now) }
    ensures records { Records r clock (served_told answer) frame.now reply.now result }
{
    match answer {
        Ok(_) => record(trace, r, clock, frame, reply),
        Err(_) => r,
    }
}

// What was recorded, or where the recording stopped.
impl fmt::Display for Recorder {
    fn fmt<W: fmt::Write>(&self, f: &mut fmt::Formatter<W>) -> fmt::Result {
        let at = self.at;
        let frames = self.frames;
        match self.recording {
            Recording::Off => Ok(()),
            Recording::On => write!(f, "recorded {frames} frames, {at} bytes"),
            Recording::Full => write!(
                f,
                "recording stopped at {at} after {frames} frames: the trace is full"
            ),
            Recording::Failed => write!(
                f,
                "recording stopped at {at} after {frames} frames: the file can't be written and may end in a cut field"
            ),
        }
    }
}

// Says so, where anything was to be recorded.
pub(crate) fn ended<W: Write>(said: &mut W, r: Recorder) {
    if !matches!(r.recording, Recording::Off) {
        report::line(said, &r);
    }
}
