// The answer to a line that writes. The fields of its header and then its extras, key and value stand one after the other in the space.
ghost use Rattle.std.specs.Prelude.{◌≡◌, ◌≤◌, length, IfSome};

use numbers::Cas;
use request::Fields;
use request_writer::WriteError;
use vector_text::bytes;
use vector_text::bytes::Times;
use vector_text::numbers::leading;
use vector_text::parts::split_once;
use vector_text::show::{decimal, octets, text};

// What the output holds before the writer has it.
const FILL: u8 = 0xee;

const LARGEST_ROOM: usize = 4096;

// A request, and how much room it is written into.
#[derive(Clone, Copy)]
struct Asked<'a> {
    fields: Fields,
    extras: &'a [u8],
    key: &'a [u8],
    value: &'a [u8],
    room: usize,
}

// The fields take 16 bytes: opcode 1, datatype 1, vbucket 2, opaque 4, CAS 8.
fn fields_at(s: &[u8]) -> Fields {
    Fields {
        opcode: octets::byte(s, 0),
        datatype: octets::byte(s, 1),
        vbucket: octets::be16(s, 2),
        opaque: octets::be32(s, 4),
        cas: Cas(octets::be64(s, 8)),
    }
}

// The bytes from one place to another.
fn between(s: &[u8], from: usize, to: usize) -> &[u8] {
    octets::rest(octets::part(s, 0, to), from)
}

// The request that a line spells, by way of the space. Its first 36 columns spell the fields. The room stands after a blank, and before one.
fn asked_by<'a>(line: &[u8], space: &'a mut [u8]) -> Option<Asked<'a>>
    ensures { IfSome result (λ asked. asked.room ≤ 4096) }
{
    let (head, parts) = split_once(line, b'/')?;
    let (extras, others) = split_once(parts, b'/')?;
    let (key, value) = split_once(others, b'/')?;
    let (room, gap) = leading(octets::rest(head, 37));
    let start = bytes::put(space, 0, octets::part(head, 0, 36), Times::FiveDigits)?;
    if start != 16 || !matches!(gap, b" ") || LARGEST_ROOM < room {
        return None;
    }
    let extras_end = bytes::put(space, start, extras, Times::FiveDigits)?;
    let key_end = bytes::put(space, extras_end, key, Times::FiveDigits)?;
    let end = bytes::put(space, key_end, value, Times::FiveDigits)?;
    Some(Asked {
        fields: fields_at(space),
        extras: between(space, start, extras_end),
        key: between(space, extras_end, key_end),
        value: between(space, key_end, end),
        room,
    })
}

fn filled() -> [u8; 4096]
    ensures { 4096 ≡ length result }
{
    [FILL; 4096]
}

// Prints the writer's answer, and says how many bytes of the output are the frame's.
fn show_answer(written: Result<usize, WriteError>, out: &[u8]) -> usize {
    match written {
        Err(WriteError::Refused) => {
            text(b"status 0x04");
            0
        }
        Err(WriteError::NoRoom) => {
            text(b"outcome 4");
            0
        }
        Ok(n) => {
            decimal(b"wrote ", n as u64);
            text(b": ");
            octets(octets::part(out, 0, n));
            n
        }
    }
}

// Writes the request, and shows too whether the output is what it was: after the frame, and all over where nothing is written.
fn show_written(asked: Asked)
    requires { asked.room ≤ 4096 }
{
    let mut out = filled();
    let room = &mut out[..asked.room];
    let written = request_writer::write(asked.fields, asked.extras, asked.key, asked.value, room);
    let size = show_answer(written, &out);
    if bytes::are_all(octets::rest(&out, size), FILL) {
        text(b" rest unchanged");
    } else {
        text(b" REST CHANGED");
    }
}

pub(crate) fn answer(line: &[u8], space: &mut [u8]) {
    match asked_by(line, space) {
        Some(asked) => show_written(asked),
        None => text(b"what?"),
    }
}
