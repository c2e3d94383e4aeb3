// Serves a run of frames a step of the cursor at a time, then at places where no bytes are left, then by one call, and prints what each
// gives: the cursor's place before and after, outcome and bytes needed or status and reply length; for a run what was consumed, the
// tally, why it stopped, and the replies. The rows stand in key order; the call is made on the plain engine too, and a line follows if
// that replies otherwise.
//
// The expected output was worked out by hand from document 01.
#![tactic(auto)]

use engine::Config;
use outcome::Refusal;
use run::{Cursor, Ran};
use serving::Served;
use tally::Tally;
use vector_text::show::{decimal, octets, text};

const CLOCK: u32 = 1000000;

const ACTIVE: u8 = 1;

const BY_REVISION: u8 = 1;

const VBUCKET: u16 = 7;

const ROWS: usize = 2;

const SIZE: usize = rows::HEADER + ROWS * rows::ROW;

// Room for the run's replies and what the call after them asks for.
const ROOM: usize = 2 * serving::ROOM;

// What the reply area holds before a frame is served.
const FILL: u8 = 0xee;

// Of the received bytes: the run's four frames, and those up to the middle of the second one's key.
const RUN: usize = 124;

const CUT: usize = 69;

fn answer(answer: Result<Served, Refusal>) {
    match answer {
        Ok(served) => {
            let status = outcome::status_of(served.status);
            decimal(b"status ", u64::from(status));
            decimal(b", reply ", served.reply as u64);
        }
        Err(refusal) => {
            decimal(b"outcome ", u64::from(refusal.number()));
            decimal(b", needs ", refusal.needed() as u64);
        }
    }
}

// Serves the frame at a place, and answers where the cursor stands then.
fn step(table: &mut [u8], run: &[u8], out: &mut [u8], at: usize) -> usize {
    let moved = Cursor { at }.step(engine::config_for(false), table, CLOCK, run, out);
    decimal(b"at ", at as u64);
    text(b": ");
    answer(moved.served);
    decimal(b", then at ", moved.cursor.at as u64);
    text(b"\n");
    moved.cursor.at
}

// Serves at a place without bytes, and says whether table and reply area are what they were.
fn past(table: &mut [u8], run: &[u8], at: usize) {
    let mut before = [0u8; SIZE];
    let filled = [FILL; ROOM];
    let mut out = [FILL; ROOM];
    octet_writer::put_bytes(&mut before, 0, table);
    step(table, run, &mut out, at);
    if compare::same(table, &before) && compare::same(&out, &filled) {
        text(b"  table and reply area unchanged\n");
    } else {
        text(b"  CHANGED\n");
    }
}

fn by_steps(run: &[u8]) {
    let mut table = [0u8; SIZE];
    let mut out = [FILL; ROOM];
    let _ = owner::make(&mut table, ROWS, ACTIVE, BY_REVISION, VBUCKET);
    let second = step(&mut table, run, &mut out, 0);
    let third = step(&mut table, run, &mut out, second);
    let fourth = step(&mut table, run, &mut out, third);
    let end = step(&mut table, run, &mut out, fourth);
    text(b"# The cursor at the run's end, one past it, and as far as a cursor goes\n");
    past(&mut table, run, end);
    past(&mut table, run, RUN + 1);
    past(&mut table, run, usize::MAX);
}

// Serves a run by one call on a fresh table.
fn ran_by(config: Config, run: &[u8], out: &mut [u8]) -> Ran {
    let mut table = [0u8; SIZE];
    let none = Tally {
        served: 0,
        refused: 0,
        silent: 0,
    };
    let _ = owner::make(&mut table, ROWS, ACTIVE, BY_REVISION, VBUCKET);
    run::serve_run(config, &mut table, CLOCK, run, out, none)
}

fn whole(run: &[u8]) {
    let mut out = [FILL; ROOM];
    let mut plain = [FILL; ROOM];
    let ran = ran_by(engine::config_for(false), run, &mut out);
    ran_by(engine::config_for(true), run, &mut plain);
    decimal(b"consumed ", ran.cursor.at as u64);
    decimal(b", tally ", ran.tally.served);
    decimal(b" ", ran.tally.refused);
    decimal(b" ", ran.tally.silent);
    text(b", stop ");
    answer(ran.stop);
    decimal(b"\n  replies ", ran.filled as u64);
    text(b": ");
    octets(octets::part(&out, 0, ran.filled));
    text(b"\n");
    if !compare::same(&out, &plain) {
        text(b"  THE PLAIN ENGINE REPLIES OTHERWISE\n");
    }
}

fn main() {
    // Set net:4 to `adrift` with flags 42; Get net:4; GetQ reef, which isn't there; Noop; and a reply's header, which is no request.
    let received =
        b"\x80\x01\0\x05\x08\0\0\x07\0\0\0\x13\0\0\0\x01\0\0\0\0\0\0\0\0\0\0\0\x2a\0\0\0\0net:4adrift\
        \x80\x00\0\x05\0\0\0\x07\0\0\0\x05\0\0\0\x02\0\0\0\0\0\0\0\0net:4\
        \x80\x09\0\x04\0\0\0\x07\0\0\0\x04\0\0\0\x03\0\0\0\0\0\0\0\0reef\
        \x80\x0a\0\0\0\0\0\0\0\0\0\0\0\0\0\x04\0\0\0\0\0\0\0\0\
        \x81\x0a\0\0\0\0\0\0\0\0\0\0\0\0\0\x05\0\0\0\0\0\0\0\0";
    text(b"# A run of Set, Get, GetQ of a missing key and Noop, a step of the cursor at a time\n");
    by_steps(octets::part(received, 0, RUN));
    text(b"# The run by one call\n");
    whole(octets::part(received, 0, RUN));
    text(b"# Its first 69 bytes, which end in the second frame's key\n");
    whole(octets::part(received, 0, CUT));
    text(b"# The run and a frame of magic 0x81\n");
    whole(received);
}
