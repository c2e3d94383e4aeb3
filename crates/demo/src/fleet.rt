// The third failure: two boats of one fleet ended up holding different contacts.
ghost use Rattle.std.specs.Prelude.{◌≡◌};
ghost use Rattle.std.specs.Slice.Iter.{chunks_exact_size};

use crate::tell::Line;
use crate::{frames, shore, tell};
use engine::Place;
use outcome::Refusal;
use serving::Served;
use std::slice::ChunksExact;
use tally::Tally;

// Shore's writes, '1' to '6'.
fn write(boat: &mut [u8], clock: u32, which: u8) -> Result<Served, Refusal> {
    let wreck = b"wreck:north-bank";
    let net = b"net:ghost-4";
    let reef = b"reef:gull-rock";
    match which {
        b'1' => shore::set(boat, clock, shore::numbers_of(1, 301, 0), wreck, b"38 m"),
        b'2' => shore::set(boat, clock, shore::numbers_of(2, 302, 0), wreck, b"36 m"),
        b'3' => shore::set(boat, clock, shore::numbers_of(1, 303, 0), net, b"adrift"),
        b'4' => shore::delete(boat, clock, shore::numbers_of(2, 304, 0), net),
        b'5' => shore::set(
            boat,
            clock,
            shore::numbers_of(1, 305, 1000300),
            reef,
            b"awash",
        ),
        _ => shore::set(
            boat,
            clock,
            shore::numbers_of(1, 306, 1000300),
            reef,
            b"dry at ebb",
        ),
    }
}

// Takes the writes in an order, on a fresh table.
fn take(boat: &mut [u8], clock: u32, order: &[u8]) -> Tally {
    let mut counts = Tally {
        served: 0,
        refused: 0,
        silent: 0,
    };
    frames::fresh(boat);
    for &which in order {
        counts = tally::counted(counts, write(boat, clock, which));
    }
    counts
}

fn counted(name: &[u8], t: Tally) {
    let mut line = Line::at(2);
    line.put(name);
    line.put(b" stored ");
    line.put_number(t.served);
    line.put(b" and refused ");
    line.put_number(t.refused);
    line.put(b".");
    line.tell();
}

fn rows_of(boat: &[u8]) -> ChunksExact<'_, u8>
    ensures { chunks_exact_size result ≡ 1312 }
{
    octets::rest(boat, rows::HEADER).chunks_exact(rows::ROW)
}

// Whether a row is free, or is byte for byte the other boat's row of its key.
fn is_on(row: &[u8], other: &[u8]) -> bool {
    let slot = rows::row::slot(row);
    if slot.kind == 0 {
        return true;
    }
    let key = octets::part(row, rows::FIXED, slot.keylen as usize);
    match table::find(frames::config(), other, key, false).place {
        Place::Over(i) => rows_of(other)
            .nth(i)
            .is_some_and(|held| compare::same(row, held)),
        Place::Into(_) | Place::Full => false,
    }
}

fn are_on(one: &[u8], other: &[u8]) -> bool {
    rows_of(one).all(|row| is_on(row, other))
}

fn held(skarv: &[u8], lom: &[u8], key: &[u8]) {
    shore::held(b"Skarv", skarv, key);
    shore::held(b"Lom", lom, key);
}

fn compared(skarv: &[u8], lom: &[u8]) {
    held(skarv, lom, b"wreck:north-bank");
    held(skarv, lom, b"net:ghost-4");
    held(skarv, lom, b"reef:gull-rock");
    if are_on(skarv, lom) && are_on(lom, skarv) {
        tell::text(
            b"  Every row of each boat is on the other, byte for byte: the boats hold the same contacts.\n",
        );
    } else {
        tell::text(b"  THE BOATS HOLD DIFFERENT CONTACTS.\n");
    }
}

fn taken(skarv: &mut [u8], lom: &mut [u8]) {
    tell::text(b"  Skarv takes them in the order of sending:\n");
    let t = take(skarv, 1000000, b"123456");
    counted(b"Skarv", t);
    tell::text(
        b"\n  Lom takes them in another order, two of them twice, and its clock is 500 seconds ahead:\n",
    );
    let t = take(lom, 1000500, b"46324512");
    counted(b"Lom", t);
    tell::text(b"\n");
}

pub(crate) fn chapter() {
    let mut skarv = [0u8; frames::SIZE];
    let mut lom = [0u8; frames::SIZE];
    tell::text(b"\n3. Two boats, one fleet\n\n");
    tell::text(
        b"The failure: two boats took the same writes and ended up with different contacts.\n",
    );
    tell::text(
        b"Shore sends six writes, told apart by CAS 301 to 306, to the boats Skarv and Lom.\n\n",
    );
    shore::columns();
    taken(&mut skarv, &mut lom);
    compared(&skarv, &lom);
}
