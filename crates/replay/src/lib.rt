// Replaying the trace of a voyage on a fresh table: its frames are served and its purges made one by one, and each expected
// reply is compared with what was sent. The table is sound from the start and stays so: nothing tests it for damage.
#![tactic(auto)]

ghost use Rattle.std.specs.Prelude.{◌≡◌, true, ◌+◌, ◌≤◌, eqb, length};
ghost use Rattle.header.specs.Header.{header_of};
ghost use Rattle.octets.specs.Compare.{same};
ghost use Rattle.engines.specs.Damage.{sound_by};
ghost use Rattle.replay.specs.Replay.{ending_told, replayed, ruled_by, walked};
ghost use Rattle.replay.specs.Turns.{passed, reply_step, FrameTurns, Turns, Walks};

use engine::Config;
use serving::ROOM;
use trace::{FRONT, Field, OPENING};

// The rows of the table that a voyage is replayed on, and the bytes that it takes.
pub const ROWS: usize = 32;

pub const SIZE: usize = rows::HEADER + ROWS * rows::ROW;

const ACTIVE: u8 = 1;

// Why a replay ended before its trace did: outcome 5, where the lent memory is of another size; at the place of an expected reply that was
// not sent; or at the place of what stopped it.
#[derive(Clone, Copy, Debug, PartialEq, Eq)]
pub enum ReplayError {
    Damaged,
    Differs(usize),
    Stopped(usize),
}

// Between two fields: the place of the next, the clock, the frames served, and how many bytes the last one's reply has.
#[derive(Clone, Copy)]
struct Progress {
    at: usize,
    clock: u32,
    frames: usize,
    filled: usize,
}

// Past a field that holds n bytes.
fn passed(p: Progress, n: usize) -> Progress
    requires { p.at + (3 + n) ≤ 65536 }
    ensures { result ≡ passed p n }
{
    Progress {
        at: p.at + FRONT + n,
        ..p
    }
}

// Whether the bytes are as many as the frame takes that they begin with. Its body length stands at 8; reading the whole header here
// would make it a call of its own in every serving.
fn is_one(frame: &[u8]) -> bool
    ensures { result ≡ eqb (24 + (header_of frame.now).body) (length frame.now) }
{
    24 + octets::be32(frame, 8) as usize == frame.len()
}

// Serves a field's frame. Where it is more than one frame, or none that can be served, nothing is served and the replay ends.
fn serve_field(
    config: Config,
    b: &mut [u8],
    frame: &[u8],
    out: &mut [u8],
    p: Progress,
) -> Result<Progress, ReplayError>
    requires b_value { sound_by config b.old ≡ true }
    requires out_len { (length out.old ≡ 1302) × ((p.frames ≤ p.at) × (p.at + (3 + length frame.now) ≤ 65536)) }
    ensures { FrameTurns config b.old frame.now out.old p result b.new out.new }
{
    if !is_one(frame) {
        return Err(ReplayError::Stopped(p.at));
    }
    let ran = run::serve_frames(config, b, p.clock, frame, out, tally::none(), 0);
    let Ok(served) = ran.stop else {
        return Err(ReplayError::Stopped(p.at));
    };
    Ok(Progress {
        at: p.at + FRONT + served.used,
        clock: p.clock,
        frames: p.frames + 1,
        filled: served.reply,
    })
}

// Compares the reply that a field expects with the last frame's.
fn compare_reply(expected: &[u8], sent: &[u8], p: Progress) -> Result<Progress, ReplayError>
    requires { p.at + (3 + length expected.now) ≤ 65536 }
    ensures { result ≡ reply_step (same expected.now sent.now) (length expected.now) p }
{
    if p.frames == 0 {
        return Err(ReplayError::Stopped(p.at));
    }
    if !compare::equal(expected, sent) {
        return Err(ReplayError::Differs(p.at));
    }
    Ok(passed(p, expected.len()))
}

// Replays the field at the start of s, the trace from a place on.
fn turn(
    config: Config,
    b: &mut [u8],
    s: &[u8],
    out: &mut [u8],
    p: Progress,
) -> Result<Progress, ReplayError>
    requires b_value { sound_by config b.old ≡ true }
    requires out_len { (length out.old ≡ 1302) × ((p.frames ≤ p.at) × (p.at + length s.now ≤ 65536)) }
    ensures { Turns config b.old s.now out.old p result b.new out.new }
{
    let Some(field) = trace::field_at(s, p.at) else {
        return Err(ReplayError::Stopped(p.at));
    };
    match field {
        Field::Clock(clock) => Ok(Progress {
            at: p.at + FRONT + 4,
            clock,
            ..p
        }),
        Field::Frame(len) => serve_field(config, b, octets::part(s, FRONT, len), out, p),
        Field::Reply(len) => compare_reply(
            octets::part(s, FRONT, len),
            octets::part(out, 0, p.filled),
            p,
        ),
        Field::Purge(bound) => {
            owner::purge_step(config, b, p.clock, bound);
            Ok(passed(p, 8))
        }
        Field::Rule(_) => Ok(passed(p, 1)),
    }
}

// Replays the fields of a trace on a table, one after another, until one ends it.
fn replay_fields(
    config: Config,
    b: &mut [u8],
    trace: &[u8],
    out: &mut [u8],
) -> Result<usize, ReplayError>
    requires b_value { sound_by config b.old ≡ true }
    requires out_len { (length out.old ≡ 1302) × ((3 ≤ length trace.now) × (length trace.now ≤ 65536)) }
    ensures { Walks config b.old trace.now (ending_told result) b.new }
{
    let mut p = Progress {
        at: OPENING,
        clock: 0,
        frames: 0,
        filled: 0,
    };
    // Each field says how far the next is, so that there is nothing to go over.
    while p.at < trace.len() {
        p = turn(config, b, octets::rest(trace, p.at), out, p)?;
    }
    Ok(p.frames)
}

// The engine of a call, and the rule of force that the trace says.
fn ruled_by(config: Config, trace: &[u8]) -> Config
    ensures { result ≡ ruled_by config trace.now }
{
    Config {
        forcing: trace::forcing_in(trace),
        ..config
    }
}

// Replays a trace on a fresh active table of 32 rows, made in lent memory, which is left as the voyage leaves it, and answers how many
// frames it served. Of the call's rule of force nothing depends: the trace says it.
pub fn replay(config: Config, b: &mut [u8], trace: &[u8]) -> Result<usize, ReplayError>
    ensures { (ending_told result ≡ (replayed config b.old trace.now).answer) × (b.new ≡ (replayed config b.old trace.now).table) }
{
    if b.len() != SIZE {
        return Err(ReplayError::Damaged);
    }
    let Some(opening) = trace::opening_of(trace) else {
        return Err(ReplayError::Stopped(0));
    };
    let mut out = [0u8; ROOM];
    // The size is right, so that a table is made.
    let _ = owner::make(b, ROWS, ACTIVE, opening.mode, opening.vbucket);
    replay_fields(ruled_by(config, trace), b, trace, &mut out)
}
