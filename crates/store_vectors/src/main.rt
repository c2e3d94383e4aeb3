// Drives one table in lent memory by the lines of standard input, and prints an answer for each line:
//
//     # ..            a heading, printed as it is; so is an empty line
//     engine plain, engine ordered
//                     the engine that keeps the table's rows from now on; rows in key order at the start
//     size ROWS       the bytes that a table of so many rows needs
//     make SIZE ROWS STATE MODE VBUCKET
//                     fills SIZE bytes with ee, makes a table in them, and shows what the bytes are then
//     lend SIZE       the table's memory is the first SIZE bytes from now on, as they stand
//     poke AT / BYTES
//                     puts bytes at a place of the memory
//     dump AT N       N bytes of the memory
//     sound           whether the table is sound or damaged
//     store TOMB FLAGS EXPIRY REVISION CAS MARK / KEY / VALUE
//                     stores an entry at its key's place, and the mark
//     read CLOCK / KEY
//                     reads a document, with the seconds that are left to it
//     purge CLOCK BOUND
//                     purges the table
//     activate        makes the table active
//     room N          the reply area is N bytes from now on
//     serve CLOCK / BYTES
//                     serves the frame at the start of the bytes: outcome and bytes needed, or status, bytes consumed, reply length and
//                     reply; and whether the area past the reply is kept
//     run CLOCK / BYTES
//                     serves frame after frame, a line for each, until one is refused
//     tally           the three counts: frames with status 0, with another status, without reply bytes
//     tally A B C     sets them
//
// Each answer but those of room and tally ends with a digest of all the table's memory after the call, refusals included.
// BYTES, KEY and VALUE are hexadecimal, with blanks between bytes where wanted; 61*250 is the byte 61 250 times. Numbers are
// decimal. Any other line is answered by `what?`.
//
// The expected output is the independent rendering's: `vectors` of tests/rust, which tests/run compares with the file.
#![tactic(auto)]

mod calls;
mod frames;
mod show;
mod store;

use engine::Config;
use store::{Store, decimals};
use tally::Tally;
use vector_text::parts::{cut, lines, words};
use vector_text::show::text;

// The engine, how much of the memory and of the reply area is lent, and the counts.
#[derive(Clone, Copy)]
struct Lent {
    config: Config,
    size: usize,
    room: usize,
    tally: Tally,
}

// The first number of those that a line gives, 0 where it is none: make and lend lend so much even where the line is wrong otherwise.
fn first_number(given: &[u8]) -> usize {
    words(given).next().and_then(digits::parse).unwrap_or(0) as usize
}

// What a line finds lent: engine names another one, make and lend a new size, room and tally a new room or counts.
fn lent_for(word: &[u8], rest: &[u8], given: &[u8], lent: Lent) -> Option<Lent> {
    let changed = match word {
        b"engine" => Lent {
            config: store::config_named(rest)?,
            ..lent
        },
        b"make" | b"lend" => Lent {
            size: first_number(given),
            ..lent
        },
        b"room" => {
            let [room] = decimals::<1>(given)?;
            Lent {
                room: room as usize,
                ..lent
            }
        }
        b"tally" => {
            let [served, refused, silent] = decimals::<3>(given)?;
            let tally = Tally {
                served,
                refused,
                silent,
            };
            Lent { tally, ..lent }
        }
        _ => lent,
    };
    Some(changed)
}

// Answers a line, and hands on what the next one finds lent: nothing else where the line asks for more than there is.
fn answer_line(
    line: &[u8],
    memory: &mut [u8],
    area: &mut [u8],
    space: &mut [u8],
    before: Lent,
) -> Option<Lent> {
    let (word, rest) = cut(line, b' ');
    let (given, spelled) = cut(rest, b'/');
    let lent = lent_for(word, rest, given, before).unwrap_or(before);
    let mut store = Store {
        config: lent.config,
        table: memory.get_mut(..lent.size)?,
        replies: area.get_mut(..lent.room)?,
        tally: lent.tally,
    };
    if store.answer(word, rest, given, spelled, space).is_none() {
        text(b"what?");
    }
    let tally = store.tally;
    Some(Lent { tally, ..lent })
}

fn answer_lines(input: &[u8], memory: &mut [u8], area: &mut [u8], space: &mut [u8]) {
    let mut lent = Lent {
        config: engine::config_for(false),
        size: 0,
        room: 1302,
        tally: Tally {
            served: 0,
            refused: 0,
            silent: 0,
        },
    };
    for line in lines(input) {
        if line.is_empty() || line.starts_with(b"#") {
            text(line);
        } else if let Some(next) = answer_line(line, memory, area, space, lent) {
            lent = next;
        } else {
            text(b"what?");
        }
        text(b"\n");
    }
}

fn main() {
    let mut input = [0u8; 524288];
    let n = io::read_full(0, &mut input);
    let mut memory = [0u8; 340000];
    let mut area = [0u8; 2048];
    let mut space = [0u8; 8192];
    answer_lines(&input[..n], &mut memory, &mut area, &mut space);
}
