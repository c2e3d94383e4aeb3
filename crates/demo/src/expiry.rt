// The first failure: one command forgot that contacts expire.
use crate::frames::Call;
use crate::tell::Line;
use crate::{frames, tell};
use numbers::Cas;
use outcome::{Refusal, Status};
use owning::{Document, ReadError};

const SET_AT: u32 = 1000000;

const BEFORE: u32 = 1000059;

const EXPIRY: u32 = 1000060;

const NAME_COLUMN: usize = 2;

const BEFORE_COLUMN: usize = 27;

const EXPIRY_COLUMN: usize = 62;

// A command's opcode, and whether its request names the contact's CAS. Opcodes are numbers: each stands once, beside its name.
#[derive(Clone, Copy)]
struct Try {
    opcode: u8,
    by_cas: bool,
}

fn any(opcode: u8) -> Try {
    Try {
        opcode,
        by_cas: false,
    }
}

fn by_cas(opcode: u8) -> Try {
    Try {
        opcode,
        by_cas: true,
    }
}

// Sets the contact on a fresh table, to live for a minute, and answers the CAS that the reply gives it.
fn set_contact(boat: &mut [u8], reply: &mut [u8]) -> Cas {
    let mut extras = [0u8; 8];
    octet_writer::put_be(&mut extras, 4, 4, 60);
    let call = Call {
        clock: SET_AT,
        opcode: 0x01,
        cas: Cas(0),
    };
    frames::fresh(boat);
    let _ = frames::send(boat, call, &extras, b"wreck:north-bank", b"38", reply);
    Cas(octets::be64(reply, 16))
}

// Tries a command at a clock, on a table of its own, and puts the answer at a column.
fn put_tried(line: &mut Line, column: usize, clock: u32, t: Try, extras: &[u8], value: &[u8]) {
    let mut boat = [0u8; frames::SIZE];
    let mut reply = [0u8; frames::ROOM];
    let held = set_contact(&mut boat, &mut reply);
    let call = Call {
        clock,
        opcode: t.opcode,
        cas: if t.by_cas { held } else { Cas(0) },
    };
    let served = frames::send(
        &mut boat,
        call,
        extras,
        b"wreck:north-bank",
        value,
        &mut reply,
    );
    line.go_to(column);
    line.put_answer(served, &reply);
}

fn tried(name: &[u8], t: Try, extras: &[u8], value: &[u8]) {
    let mut line = Line::at(NAME_COLUMN);
    line.put(name);
    put_tried(&mut line, BEFORE_COLUMN, BEFORE, t, extras, value);
    put_tried(&mut line, EXPIRY_COLUMN, EXPIRY, t, extras, value);
    line.tell();
}

fn gets() {
    tried(b"Get", any(0x00), b"", b"");
    tried(b"GetQ", any(0x09), b"", b"");
    tried(b"GetK", any(0x0c), b"", b"");
    tried(b"GetKQ", any(0x0d), b"", b"");
}

fn writes() {
    let extras = [0u8; 8];
    tried(b"Set by CAS", by_cas(0x01), &extras, b"36");
    tried(b"SetQ by CAS", by_cas(0x11), &extras, b"36");
    tried(b"Add", any(0x02), &extras, b"36");
    tried(b"AddQ", any(0x12), &extras, b"36");
    tried(b"Replace", any(0x03), &extras, b"36");
    tried(b"ReplaceQ", any(0x13), &extras, b"36");
    tried(b"Delete", any(0x04), b"", b"");
    tried(b"DeleteQ", any(0x14), b"", b"");
}

// Counts by one. An expiry of 0xffffffff asks that a contact that isn't there be left so.
fn counts() {
    let mut extras = [0u8; 20];
    octet_writer::put_be(&mut extras, 0, 8, 1);
    octet_writer::put_be(&mut extras, 16, 4, 0xffffffff);
    tried(b"Increment", any(0x05), &extras, b"");
    tried(b"IncrementQ", any(0x15), &extras, b"");
    tried(b"Decrement", any(0x06), &extras, b"");
    tried(b"DecrementQ", any(0x16), &extras, b"");
}

fn begins() {
    let mut extras = [0u8; 20];
    octet_writer::put_be(&mut extras, 0, 8, 1);
    octet_writer::put_be(&mut extras, 8, 8, 5);
    tried(b"Increment, else from 5", any(0x05), &extras, b"");
    tried(b"Decrement, else from 5", any(0x06), &extras, b"");
}

fn joins() {
    tried(b"Append", any(0x0e), b"", b" m");
    tried(b"AppendQ", any(0x19), b"", b" m");
    tried(b"Prepend", any(0x0f), b"", b"at ");
    tried(b"PrependQ", any(0x1a), b"", b"at ");
}

// Another minute to live.
fn touches() {
    let mut extras = [0u8; 4];
    octet_writer::put_be(&mut extras, 0, 4, 60);
    tried(b"Touch", any(0x1c), &extras, b"");
    tried(b"Get-and-touch", any(0x1d), &extras, b"");
}

fn copied(extras: &[u8]) {
    tried(b"SetWithMeta by CAS", by_cas(0xa2), extras, b"36");
    tried(b"SetQWithMeta by CAS", by_cas(0xa3), extras, b"36");
    tried(b"AddWithMeta", any(0xa4), extras, b"36");
    tried(b"AddQWithMeta", any(0xa5), extras, b"36");
    tried(b"DelWithMeta by CAS", by_cas(0xa8), extras, b"");
    tried(b"DelQWithMeta by CAS", by_cas(0xa9), extras, b"");
}

// Copies from shore, newer than the contact: revision 2 and CAS 2.
fn copies() {
    let mut extras = [0u8; 24];
    octet_writer::put_be(&mut extras, 8, 8, 2);
    octet_writer::put_be(&mut extras, 16, 8, 2);
    copied(&extras);
}

fn put_read(line: &mut Line, column: usize, clock: u32) {
    let mut boat = [0u8; frames::SIZE];
    let mut reply = [0u8; frames::ROOM];
    set_contact(&mut boat, &mut reply);
    line.go_to(column);
    match owner::read(frames::config(), &boat, clock, b"wreck:north-bank") {
        Ok(found) => {
            line.put_status(Ok(()));
            line.put_found(octets::part(&boat, found.at, found.len));
        }
        Err(ReadError::Damaged) => line.put_refusal(Refusal::Damaged),
        Err(ReadError::Missing | ReadError::Expired(_)) => {
            line.put_status(Err(Status::NotFound));
        }
    }
}

// What the owner's read tells of the time that is left.
fn put_left(line: &mut Line, read: Result<Document, ReadError>) {
    match read {
        Ok(found) => line.put_left(found.left),
        Err(ReadError::Damaged) => line.put_refusal(Refusal::Damaged),
        Err(ReadError::Missing) => line.put_status(Err(Status::NotFound)),
        Err(ReadError::Expired(seconds)) => line.put_left(Some(seconds)),
    }
}

fn aged(clock: u32) {
    let mut boat = [0u8; frames::SIZE];
    let mut reply = [0u8; frames::ROOM];
    let mut line = Line::at(NAME_COLUMN);
    set_contact(&mut boat, &mut reply);
    line.put_clock(clock);
    line.go_to(BEFORE_COLUMN);
    put_left(
        &mut line,
        owner::read(frames::config(), &boat, clock, b"wreck:north-bank"),
    );
    line.tell();
}

// A skipper asks how old the contact is: the read tells the seconds that are left, and those since it expired.
fn ages() {
    tell::text(b"\nHow long the contact is still good, as the owner's read tells it:\n\n");
    aged(SET_AT);
    aged(BEFORE);
    aged(EXPIRY);
    aged(EXPIRY + 3600);
}

fn put_purged(line: &mut Line, column: usize, clock: u32) {
    let mut boat = [0u8; frames::SIZE];
    let mut reply = [0u8; frames::ROOM];
    let held = set_contact(&mut boat, &mut reply);
    line.go_to(column);
    match owner::purge(frames::config(), &mut boat, clock, held) {
        Ok(freed) => {
            line.put(b"rows freed: ");
            line.put_number(freed as u64);
        }
        Err(_) => line.put_refusal(Refusal::Damaged),
    }
}

fn owner_reads() {
    let mut line = Line::at(NAME_COLUMN);
    line.put(b"the owner's read");
    put_read(&mut line, BEFORE_COLUMN, BEFORE);
    put_read(&mut line, EXPIRY_COLUMN, EXPIRY);
    line.tell();
}

fn owner_purges() {
    let mut line = Line::at(NAME_COLUMN);
    line.put(b"the owner's purge");
    put_purged(&mut line, BEFORE_COLUMN, BEFORE);
    put_purged(&mut line, EXPIRY_COLUMN, EXPIRY);
    line.tell();
}

pub(crate) fn chapter() {
    tell::text(b"\n1. A contact expires in every command\n\n");
    tell::text(b"The failure: one command forgot that contacts expire.\n");
    tell::text(
        b"Here wreck:north-bank is set to 38 metres at clock 1,000,000, to live for 60 seconds. Each command meets it twice,\n",
    );
    tell::text(
        b"each time on a table of its own: a second before the expiry, when it is there, and at the expiry, when it is gone.\n",
    );
    tell::text(
        b"By CAS: the request names the contact's CAS, so it is only for a contact that is there.\n",
    );
    tell::text(b"Q: a quiet command, some of whose answers are not sent.\n\n");
    tell::text(b"  command                  clock 1,000,059                    clock 1,000,060\n");
    gets();
    writes();
    counts();
    begins();
    joins();
    touches();
    copies();
    owner_reads();
    owner_purges();
    ages();
}
