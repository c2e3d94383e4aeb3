// The second failure: late copies brought erased contacts back.
use crate::{frames, shore, tell};
use numbers::Numbers;

// The line that a copy's sending tells says its answer.
fn set(boat: &mut [u8], clock: u32, n: Numbers, key: &[u8], value: &[u8]) {
    let _ = shore::set(boat, clock, n, key, value);
}

fn delete(boat: &mut [u8], clock: u32, n: Numbers, key: &[u8]) {
    let _ = shore::delete(boat, clock, n, key);
}

fn deleted() {
    let mut boat = [0u8; frames::SIZE];
    frames::fresh(&mut boat);
    let first = shore::numbers_of(1, 201, 0);
    let gone = shore::numbers_of(2, 202, 0);
    let newer = shore::numbers_of(3, 203, 0);
    set(&mut boat, 1000000, first, b"net:ghost-4", b"adrift");
    delete(&mut boat, 1000010, gone, b"net:ghost-4");
    shore::get(&mut boat, 1000010, b"net:ghost-4");
    tell::text(b"  The first copy arrives once more, late:\n");
    set(&mut boat, 1000020, first, b"net:ghost-4", b"adrift");
    shore::get(&mut boat, 1000020, b"net:ghost-4");
    tell::text(b"  A newer copy arrives:\n");
    set(&mut boat, 1000030, newer, b"net:ghost-4", b"seen again");
    shore::get(&mut boat, 1000030, b"net:ghost-4");
}

fn expired() {
    let mut boat = [0u8; frames::SIZE];
    frames::fresh(&mut boat);
    let older = shore::numbers_of(1, 204, 0);
    let first = shore::numbers_of(2, 205, 1000060);
    let newer = shore::numbers_of(3, 206, 0);
    set(&mut boat, 1000000, first, b"wreck:north-bank", b"38 m");
    shore::get(&mut boat, 1000059, b"wreck:north-bank");
    shore::get(&mut boat, 1000060, b"wreck:north-bank");
    tell::text(b"  The boat's clock goes back by a minute:\n");
    shore::get(&mut boat, 1000000, b"wreck:north-bank");
    tell::text(b"  An older copy that never expires arrives late:\n");
    set(&mut boat, 1000070, older, b"wreck:north-bank", b"40 m");
    shore::get(&mut boat, 1000070, b"wreck:north-bank");
    tell::text(b"  A newer copy arrives:\n");
    set(&mut boat, 1000080, newer, b"wreck:north-bank", b"36 m");
    shore::get(&mut boat, 1000080, b"wreck:north-bank");
}

pub(crate) fn chapter() {
    tell::text(b"\n2. An erased contact doesn't come back\n\n");
    tell::text(
        b"The failure: a copy that arrived late brought back a contact that had been erased, or had expired.\n",
    );
    tell::text(
        b"Each copy from shore carries its revision and CAS; on these boats the greater revision wins, then the greater CAS.\n\n",
    );
    shore::columns();
    deleted();
    tell::text(b"\n  Another contact isn't erased, but expires:\n");
    expired();
}
