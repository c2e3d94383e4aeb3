// Copies that shore sends with their own revision and CAS, and what a boat then answers and holds, a line for each.
use crate::frames::Call;
use crate::tell::Line;
use crate::{frames, tell};
use document::Metadata;
use numbers::{Cas, Numbers, Revision};
use outcome::Refusal;
use serving::Served;

const CLOCK_COLUMN: usize = 2;

const REQUEST_COLUMN: usize = 13;

const KEY_COLUMN: usize = 26;

const VALUE_COLUMN: usize = 44;

const REVISION_COLUMN: usize = 57;

const CAS_COLUMN: usize = 67;

const EXPIRY_COLUMN: usize = 72;

const ANSWER_COLUMN: usize = 83;

pub(crate) fn columns() {
    tell::text(
        b"  clock      request      contact           value        revision  CAS  expires    answer\n",
    );
}

pub(crate) fn numbers_of(revision: u64, cas: u64, expiry: u32) -> Numbers {
    Numbers {
        flags: 0,
        expiry,
        revision: Revision(revision),
        cas: Cas(cas),
    }
}

fn put_contact(line: &mut Line, name: &[u8], key: &[u8], value: &[u8]) {
    line.put_at(REQUEST_COLUMN, name);
    line.put_at(KEY_COLUMN, key);
    line.put_at(VALUE_COLUMN, value);
}

fn put_numbers(line: &mut Line, n: Numbers) {
    line.go_to(REVISION_COLUMN);
    line.put_number(n.revision.0);
    line.go_to(CAS_COLUMN);
    line.put_number(n.cas.0);
    if n.expiry != 0 {
        line.go_to(EXPIRY_COLUMN);
        line.put_clock(n.expiry);
    }
}

fn send(
    boat: &mut [u8],
    call: Call,
    n: Numbers,
    key: &[u8],
    value: &[u8],
    reply: &mut [u8],
) -> Result<Served, Refusal> {
    let mut extras = [0u8; 24];
    octet_writer::put_be(&mut extras, 0, 4, u64::from(n.flags));
    octet_writer::put_be(&mut extras, 4, 4, u64::from(n.expiry));
    octet_writer::put_be(&mut extras, 8, 8, n.revision.0);
    octet_writer::put_be(&mut extras, 16, 8, n.cas.0);
    frames::send(boat, call, &extras, key, value, reply)
}

// Serves a copy, and tells the line that names it.
fn sent(
    name: &[u8],
    boat: &mut [u8],
    call: Call,
    n: Numbers,
    key: &[u8],
    value: &[u8],
) -> Result<Served, Refusal> {
    let mut reply = [0u8; frames::ROOM];
    let mut line = Line::at(CLOCK_COLUMN);
    line.put_clock(call.clock);
    put_contact(&mut line, name, key, value);
    put_numbers(&mut line, n);
    let served = send(boat, call, n, key, value, &mut reply);
    line.go_to(ANSWER_COLUMN);
    line.put_answer(served, &reply);
    line.tell();
    served
}

pub(crate) fn set(
    boat: &mut [u8],
    clock: u32,
    n: Numbers,
    key: &[u8],
    value: &[u8],
) -> Result<Served, Refusal> {
    let call = Call {
        clock,
        opcode: 0xa2,
        cas: Cas(0),
    };
    sent(b"SetWithMeta", boat, call, n, key, value)
}

pub(crate) fn delete(
    boat: &mut [u8],
    clock: u32,
    n: Numbers,
    key: &[u8],
) -> Result<Served, Refusal> {
    let call = Call {
        clock,
        opcode: 0xa8,
        cas: Cas(0),
    };
    sent(b"DelWithMeta", boat, call, n, key, b"")
}

pub(crate) fn get(boat: &mut [u8], clock: u32, key: &[u8]) {
    let mut reply = [0u8; frames::ROOM];
    let mut line = Line::at(CLOCK_COLUMN);
    let call = Call {
        clock,
        opcode: 0x00,
        cas: Cas(0),
    };
    line.put_clock(clock);
    put_contact(&mut line, b"Get", key, b"");
    let served = frames::send(boat, call, b"", key, b"", &mut reply);
    line.go_to(ANSWER_COLUMN);
    line.put_answer(served, &reply);
    line.tell();
}

fn put_row(line: &mut Line, m: Metadata, value: &[u8]) {
    line.put_at(VALUE_COLUMN, if m.tomb { b"deleted" } else { value });
    put_numbers(line, m.numbers);
}

// What a boat's table holds under a key, expired or not.
pub(crate) fn held(name: &[u8], boat: &[u8], key: &[u8]) {
    let mut line = Line::at(CLOCK_COLUMN);
    line.put(name);
    put_contact(&mut line, b"holds", key, b"");
    let found = table::find(frames::config(), boat, key, false);
    match found.stored {
        Some(m) => put_row(&mut line, m, octets::part(boat, found.at, found.len)),
        None => line.put(b"nothing"),
    }
    line.tell();
}
