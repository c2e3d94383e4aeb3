// Reads and writes the requests that lines of standard input spell, and prints an answer for each line:
//
//     # ..         a heading, printed as it is; so is an empty line
//     read BYTES   what reading these bytes gives, and whether the request, written again, is the same bytes
//     write OPCODE DATATYPE VBUCKET OPAQUE CAS ROOM / EXTRAS / KEY / VALUE
//                  what writing the request into so much room gives, and whether the other bytes of the room stay as they were
//
// BYTES, EXTRAS, KEY and VALUE are hexadecimal, with blanks between bytes; 61*250 is the byte 61 250 times. The header's fields are
// hexadecimal, each in its full width, and ROOM is decimal. Any other line is answered by `what?`.
#![tactic(auto)]

mod parts;
mod reading;
mod show;
mod writing;

use vector_text::parts::{cut, lines};
use vector_text::show::text;

// The space is for the bytes that a line spells.
fn answer_line(line: &[u8], space: &mut [u8]) {
    let (word, rest) = cut(line, b' ');
    match word {
        b"read" => reading::answer(rest, space),
        b"write" => writing::answer(rest, space),
        _ if line.is_empty() || line.starts_with(b"#") => text(line),
        _ => text(b"what?"),
    }
}

fn answer_lines(input: &[u8], space: &mut [u8]) {
    for line in lines(input) {
        answer_line(line, space);
        text(b"\n");
    }
}

fn main() {
    let mut input = [0u8; 131072];
    let n = io::read_full(0, &mut input);
    let mut space = [0u8; 70000];
    answer_lines(&input[..n], &mut space);
}
