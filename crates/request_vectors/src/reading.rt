// The answer to a line that reads.
use crate::{parts, show};
use request::{Frame, Unread};
use vector_text::bytes;
use vector_text::bytes::Times;
use vector_text::show::{decimal, hexadecimal, text};

fn is_with_meta(opcode: u8) -> bool {
    matches!(opcode, 0xa2..=0xa5 | 0xa8 | 0xa9)
}

// Writes the request again from its fields and from the parts that the view shows, and compares with the frame that was received.
fn show_again(received: &[u8], f: Frame) {
    let mut out = io::buffer();
    let extras = parts::extras(received);
    let key = parts::key(received);
    let value = parts::value(received);
    let size = request_writer::write(f.fields, extras, key, value, &mut out).unwrap_or(0);
    let frame = octets::part(received, 0, 24 + octets::be32(received, 8) as usize);
    if compare::same(octets::part(&out, 0, size), frame) {
        decimal(b" again=", size as u64);
        text(b" same");
    } else {
        text(b" again DIFFERS");
    }
}

fn show_accepted(received: &[u8], f: Frame) {
    show::frame(f);
    if is_with_meta(f.fields.opcode) {
        show::with_meta(with_meta::read(parts::extras(received)));
    }
    show_again(received, f);
}

fn show_reading(received: &[u8]) {
    match request::read(received) {
        Ok(f) => show_accepted(received, f),
        Err(Unread::Refused(refusal)) => decimal(b"outcome ", u64::from(refusal.number())),
        Err(Unread::Status(status)) => hexadecimal(b"status 0x", u64::from(status.number()), 2),
    }
}

pub(crate) fn answer(line: &[u8], space: &mut [u8]) {
    match bytes::put(space, 0, line, Times::FiveDigits) {
        Some(end) => show_reading(&space[..end]),
        None => text(b"what?"),
    }
}
