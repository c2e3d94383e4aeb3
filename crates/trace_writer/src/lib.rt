// Writing a trace: its opening, and what each served frame adds to it. Every function is total: what doesn't fit changes nothing.
#![tactic(auto)]

ghost use Rattle.std.specs.Prelude.{◌≡◌, ◌+◌, ◌≤◌, leb, length};
ghost use Rattle.octets.specs.Parts.{written};
ghost use Rattle.trace_writer.specs.Writing.{opening_bytes, field_bytes, clock_fields, frame_fields, length_put};

use trace::{FRONT, OPENING};

// The tags of fields. They stay numbers: `put_field` writes any tag.
const CLOCK: u8 = 1;

const FRAME: u8 = 2;

const REPLY: u8 = 3;

const RULE: u8 = 5;

// The rule of force that is recorded: the new one, by which it isn't taken.
const RETIRED: u8 = 2;

// The bytes that a recorded trace begins with: its opening, and its rule as the first field.
pub const BEGINNING: usize = OPENING + FRONT + 1;

// Whether so much room has three lengths, one after another.
fn fits(room: usize, a: usize, b: usize, c: usize) -> bool
    ensures { result ≡ leb (a + b + c) room }
{
    if room < a {
        return false;
    }
    if room - a < b {
        return false;
    }
    c <= room - a - b
}

// Writes how a trace opens, and its rule of force, at the start.
pub fn put_opening(out: &mut [u8], mode: u8, vbucket: u16)
    ensures { out.new ≡ written out.old 0 (opening_bytes mode vbucket) }
{
    if out.len() < BEGINNING {
        return;
    }
    octet_writer::put_be(out, 0, 1, mode as u64);
    octet_writer::put_be(out, 1, 2, vbucket as u64);
    put_field(out, OPENING, RULE, &[RETIRED]);
}

// Writes a field that holds these bytes. Of their number only the two lowest bytes stand in it, so they are under 65,536 where
// it is to be read back.
pub fn put_field(out: &mut [u8], at: usize, tag: u8, held: &[u8])
    ensures { out.new ≡ written out.old at (field_bytes tag held.now) }
{
    if !fits(out.len(), at, FRONT, held.len()) {
        return;
    }
    octet_writer::put_be(out, at, 1, tag as u64);
    octet_writer::put_be(out, at + 1, 2, held.len() as u64);
    octet_writer::put_bytes(out, at + FRONT, held);
}

// The bytes that telling a clock takes.
fn clock_size(last: u32, clock: u32) -> usize
    ensures { (result ≡ length (clock_fields last clock)) × (result ≤ 7) }
{
    if clock == last {
        return 0;
    }
    FRONT + 4
}

// Tells a clock at the start, where it isn't the last one told.
fn put_clock(out: &mut [u8], last: u32, clock: u32)
    ensures { out.new ≡ written out.old 0 (clock_fields last clock) }
{
    if clock == last {
        return;
    }
    let mut told = [0u8; 4];
    octet_writer::put_be(&mut told, 0, 4, clock as u64);
    put_field(out, 0, CLOCK, &told);
}

// Writes what a frame that was served adds, at the start, and answers its length, or 0 where it doesn't fit. last: the clock
// that the trace told last, 0 before any.
pub fn put_served(out: &mut [u8], last: u32, clock: u32, frame: &[u8], reply: &[u8]) -> usize
    ensures { (result ≡ length_put (length out.old) (frame_fields last clock frame.now reply.now))
        × (out.new ≡ written out.old 0 (frame_fields last clock frame.now reply.now)) }
{
    let start = clock_size(last, clock);
    if !fits(out.len(), start + FRONT + FRONT, frame.len(), reply.len()) {
        return 0;
    }
    let end = start + FRONT + frame.len();
    put_clock(out, last, clock);
    put_field(out, start, FRAME, frame);
    put_field(out, end, REPLY, reply);
    end + FRONT + reply.len()
}
