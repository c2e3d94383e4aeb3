// Serving what comes on standard input, in pieces of any size.
ghost use Rattle.std.specs.Prelude.{◌≡◌, cond, ◌+◌, ◌≤◌, ◌<◌, ◌^◌, length, take, drop};
ghost use Rattle.std.specs.Io.KnownBytes.{Consumes};
ghost use Rattle.run.specs.Run.{begun, run_end};
ghost use Rattle.serving.specs.Serve.{served_told, served_length};
ghost use Rattle.trace_writer.specs.Writing.{frame_fields};
ghost use Rattle.contact_box.specs.Recorder.{HandsOn};
ghost use Rattle.contact_box.specs.Session.{held_of, past, Receives, next_of, Waits, Goes, SendsAll, first_frame, GoesOne, first_answer, first_reply, Sends};

use crate::recorder::Recorder;
use crate::{clock, recorder, writing};
use engine::Config;
use outcome::Refusal;
use serving::Served;
use std::io::{Read, Write};
use std::time::Clock;
use tally::Tally;

// What is next: read on, serve on with the reply area free again, or end. An end by its name is plainer than None in an Option of two.
#[derive(Clone, Copy)]
pub(crate) enum Next {
    Receive,
    Serve,
    Close,
}

// Where the received bytes that no frame has consumed start and end.
#[derive(Clone, Copy)]
pub(crate) struct Held {
    at: usize,
    end: usize,
}

#[derive(Clone, Copy)]
pub(crate) struct Session {
    held: Held,
    pub(crate) tally: Tally,
    next: Next,
    pub(crate) recorder: Recorder,
}

fn held_of(received: &[u8], h: Held) -> &[u8]
    ensures { result.now ≡ held_of h received.now }
{
    octets::rest(octets::part(received, 0, h.end), h.at)
}

// What is held once so many of its bytes are consumed.
fn past(h: Held, used: usize) -> Held
    requires { h.at + used < 2 ^ 64 }
    ensures { result ≡ past h used }
{
    Held {
        at: h.at + used,
        end: h.end,
    }
}

// Reads once behind the bytes held, and answers how many came: none at the end of the input or where reading fails.
fn receive<R: Read>(input: &mut R, received: &mut [u8], held: usize) -> usize
    requires { held ≤ length received.old }
    ensures kept { (held + result ≤ length received.old) × (take held received.new ≡ take held received.old) }
    ensures came { Consumes (R.remaining input.old) (R.remaining input.new) (take result (drop held received.new)) }
{
    let space = &mut received[held..];
    input.read(space).unwrap_or(0)
}

// Moves the bytes held to the start, and answers how many they are. They go by an array, which the compiler knows to be apart from them.
fn keep(received: &mut [u8], h: Held) -> usize
    requires { (length (held_of h received.old) < 1424) × (1424 ≤ length received.old) }
    ensures { (result ≡ length (held_of h received.old)) × (take result received.new ≡ held_of h received.old) }
{
    let held = held_of(received, h);
    if held.is_empty() {
        return 0;
    }
    let mut left = [0u8; 1424];
    let n = held.len();
    left[..n].copy_from_slice(held);
    octet_writer::put_bytes(received, 0, octets::part(&left, 0, n));
    n
}

// Reads on behind the bytes held. There is room for more, so where nothing comes the input has ended or can't be read.
fn receive_on<R: Read>(input: &mut R, received: &mut [u8], s: Session) -> Session
    requires { (length (held_of s.held received.old) < 1424) × (1424 ≤ length received.old) }
    ensures kept { Receives (held_of s.held received.old) received.new s result }
    ensures came { Consumes (R.remaining input.old) (R.remaining input.new)
        (drop (length (held_of s.held received.old)) (held_of result.held received.new)) }
{
    let left = keep(received, s.held);
    let came = receive(input, received, left);
    let held = Held {
        at: 0,
        end: left + came,
    };
    if came == 0 {
        let next = Next::Close;
        return Session { held, next, ..s };
    }
    let next = Next::Serve;
    Session { held, next, ..s }
}

// What is next after an answer, where what was sent was written or not.
fn next_after(answer: Result<Served, Refusal>, written: bool) -> Next
    ensures { result ≡ cond written (next_of (served_told answer)) Next.Close }
{
    if !written {
        return Next::Close;
    }
    match answer {
        Ok(_) | Err(Refusal::NoRoom) => Next::Serve,
        Err(Refusal::Incomplete(_)) => Next::Receive,
        Err(_) => Next::Close,
    }
}

// Serves the frames that are held, and writes their replies.
fn serve_held<W: Write>(
    config: Config,
    output: &mut W,
    table: &mut [u8],
    clock: u32,
    received: &[u8],
    replies: &mut [u8],
    s: Session,
) -> Session
    ensures goes { Goes
        (run_end config clock (held_of s.held received.now) (begun table.old replies.old s.tally))
        table.new received.now s result }
    ensures sent { SendsAll config clock (held_of s.held received.now)
        (run_end config clock (held_of s.held received.now) (begun table.old replies.old s.tally))
        (W.contents output.old) (W.contents output.new) result.next }
{
    let held = s.held;
    let run = held_of(received, held);
    let ran = run::serve_run(config, table, clock, run, replies, s.tally);
    let written = writing::all(output, octets::part(replies, 0, ran.filled));
    Session {
        held: past(held, ran.cursor.at),
        tally: ran.tally,
        next: next_after(ran.stop, written),
        ..s
    }
}

// The first frame of a run, or as much of it as there is.
fn first_frame(run: &[u8]) -> &[u8]
    ensures { result.now ≡ first_frame run.now }
{
    let layout = header::layout_of(header::read(run));
    octets::part(run, 0, layout.end)
}

fn length_of(answer: Result<Served, Refusal>) -> usize
    ensures { result ≡ served_length (served_told answer) }
{
    answer.map_or(0, |served| served.reply)
}

// Serves the first of the frames that are held, without what stands behind it, writes its reply, and records both.
fn serve_first<W: Write, T: Write>(
    config: Config,
    output: &mut W,
    trace: &mut T,
    table: &mut [u8],
    clock: u32,
    received: &[u8],
    replies: &mut [u8],
    s: Session,
) -> Session
    ensures goes { GoesOne config clock (held_of s.held received.now) table.old replies.old
        table.new received.now s result }
    ensures sent { Sends (first_answer config clock (held_of s.held received.now) table.old replies.old)
        (first_reply config clock (held_of s.held received.now) table.old replies.old)
        (W.contents output.old) (W.contents output.new) result.next }
    ensures traced { HandsOn (first_answer config clock (held_of s.held received.now) table.old replies.old)
        result.recorder.recording (T.contents trace.old) (T.contents trace.new)
        (frame_fields s.recorder.clock clock (first_frame (held_of s.held received.now))
        (first_reply config clock (held_of s.held received.now) table.old replies.old)) }
{
    let held = s.held;
    let frame = first_frame(held_of(received, held));
    let answer = serve::serve_one(config, table, clock, frame, replies);
    let used = run::used_of(answer);
    let reply = octets::part(replies, 0, length_of(answer));
    let written = writing::all(output, reply);
    let recorder = recorder::record_answer(trace, s.recorder, clock, answer, frame, reply);
    Session {
        held: past(held, used),
        tally: tally::counted(s.tally, answer),
        next: next_after(answer, written),
        recorder,
    }
}

// Serves what is held, on rows in key order: all frames at once, or one by one where they are recorded.
fn serve_some<C: Clock, W: Write, T: Write>(
    clock: &C,
    output: &mut W,
    trace: &mut T,
    table: &mut [u8],
    received: &[u8],
    replies: &mut [u8],
    s: Session,
) -> Session
    ensures { Waits result.next (held_of result.held received.now) }
{
    let config = engine::config_for(false);
    let now = clock::now(clock);
    if recorder::is_on(s.recorder) {
        return serve_first(config, output, trace, table, now, received, replies, s);
    }
    serve_held(config, output, table, now, received, replies, s)
}

// Structs of the streams and of what is lent were tried: 894 instructions a frame in place of 885.
fn turn<C: Clock, R: Read, W: Write, T: Write>(
    clock: &C,
    input: &mut R,
    output: &mut W,
    trace: &mut T,
    table: &mut [u8],
    received: &mut [u8],
    replies: &mut [u8],
    s: Session,
) -> Session
    requires { (1424 ≤ length received.old) × Waits s.next (held_of s.held received.old) }
    ensures { Waits result.next (held_of result.held received.new) }
{
    match s.next {
        Next::Receive => receive_on(input, received, s),
        Next::Serve => serve_some(clock, output, trace, table, received, replies, s),
        Next::Close => s,
    }
}

// Serves the input to its end. A proved loop has to end, and nothing says that an input does, so the turns are counted up to a number
// that no input uses up.
pub(crate) fn serve_input<C: Clock, R: Read, W: Write, T: Write>(
    clock: &C,
    input: &mut R,
    output: &mut W,
    trace: &mut T,
    table: &mut [u8],
    received: &mut [u8],
    replies: &mut [u8],
    recorder: Recorder,
) -> Session
    requires { 1424 ≤ length received.old }
{
    let mut s = Session {
        held: Held { at: 0, end: 0 },
        tally: Tally {
            served: 0,
            refused: 0,
            silent: 0,
        },
        next: Next::Receive,
        recorder,
    };
    for _ in 0..u64::MAX {
        if matches!(s.next, Next::Close) {
            break;
        }
        s = turn(clock, input, output, trace, table, received, replies, s);
    }
    s
}
