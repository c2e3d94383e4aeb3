// The owner's calls on a table in lent memory: make a fresh one, read a document, purge, and make it active.
#![tactic(auto)]

ghost use Rattle.std.specs.Prelude.{◌≡◌, ◌+◌, ◌*◌, ◌≤◌, length};
ghost use Rattle.rows.specs.Table.{table_bytes, fresh};
ghost use Rattle.owning.specs.Owner.{made_told, read_told, purged_told, activated_told, size_of, make_ok, make_outcome, made, read_of, purge_of, purged_bytes, activate_of, activated_bytes};
ghost use Rattle.owner.specs.Shown.{shown_by};
ghost use Rattle.owner.specs.Purging.{purge_step};

use document::Head;
use engine::Config;
use numbers::Cas;
use owning::{ActivateError, Document, MakeError, PurgeError, ReadError};
use rows::{HEADER, ROW};
use table::Lookup;

const ACTIVE: u8 = 1;

const DEAD: u8 = 4;

// The bytes that a table of so many rows needs, 0 where no table has so many.
pub fn size(rows: usize) -> usize
    ensures { result ≡ size_of rows }
{
    if rows < 1 {
        return 0;
    }
    if 256 < rows {
        return 0;
    }
    HEADER + rows * ROW
}

fn make_ok(len: usize, rows: usize, state: u8, mode: u8) -> bool
    ensures { result ≡ make_ok len rows state mode }
{
    let size = rows::damage::size_ok(len, rows);
    size & (((1 <= state) & (state <= 4)) & ((1 <= mode) & (mode <= 2)))
}

fn put_fresh(s: &mut [u8], rows: usize, state: u8, mode: u8, vbucket: u16)
    requires { (length s.old ≡ 16 + rows * 1312) × (rows ≤ 256) }
    ensures { s.new ≡ table_bytes (fresh rows state mode vbucket) }
{
    let h = Head {
        state,
        mode,
        vbucket,
        clock: 0,
        mark: Cas(0),
    };
    row_writer::put_head(s, h);
    octet_writer::put_zeros(s, HEADER, rows * ROW);
}

// Makes a fresh table. Where that is refused the memory is unchanged. State and mode are numbers: telling which are in range is this call's part
// (`make_ok`).
pub fn make(s: &mut [u8], rows: usize, state: u8, mode: u8, vbucket: u16) -> Result<(), MakeError>
    ensures { (made_told result ≡ make_outcome (length s.old) rows state mode) × (s.new ≡ made s.old rows state mode vbucket) }
{
    if !make_ok(s.len(), rows, state, mode) {
        return Err(MakeError::OutOfRange);
    }
    put_fresh(s, rows, state, mode, vbucket);
    Ok(())
}

fn shown(l: Lookup, clock: u32) -> Result<Document, ReadError>
    ensures { read_told result ≡ shown_by clock l }
{
    if !document::is_document(l.stored) {
        return Err(ReadError::Missing);
    }
    let numbers = document::numbers_of(l.stored);
    let left = numbers::seconds_left(numbers.expiry, clock);
    if numbers::is_past(left) {
        return Err(ReadError::Expired(numbers::seconds_in(left)));
    }
    Ok(Document {
        numbers,
        left,
        at: l.at,
        len: l.len,
    })
}

// Reads a key's live document, at the later of the kept clock and this one. Nothing changes.
pub fn read(config: Config, s: &[u8], clock: u32, key: &[u8]) -> Result<Document, ReadError>
    ensures { read_told result ≡ read_of config s.now clock key.now }
{
    let Some(head) = table::checked(config, s) else {
        return Err(ReadError::Damaged);
    };
    let lookup = table::find(config, s, key, false);
    shown(lookup, numbers::later(head.clock, clock))
}

// Purges memory that its caller knows to be a table that is not damaged, and says how many rows were freed.
pub fn purge_step(config: Config, s: &mut [u8], clock: u32, bound: Cas) -> usize
    ensures { (result ≡ (purge_step config s.old clock bound.0).freed) × (s.new ≡ (purge_step config s.old clock bound.0).table) }
{
    let now = numbers::later(octets::be32(s, 4), clock);
    row_writer::put_clock(s, now);
    table::purge(config, s, now, bound)
}

// Frees the tombstones and expired documents with CAS at or below the bound, and says how many. The later of the kept clock and
// this one decides, and is kept.
pub fn purge(config: Config, s: &mut [u8], clock: u32, bound: Cas) -> Result<usize, PurgeError>
    ensures { (purged_told result ≡ purge_of config s.old clock bound.0) × (s.new ≡ purged_bytes config s.old clock bound.0) }
{
    if !table::is_sound(config, s) {
        return Err(PurgeError::Damaged);
    }
    Ok(purge_step(config, s, clock, bound))
}

// Makes a table active, unless it is damaged or dead. Nothing but the state changes.
pub fn activate(config: Config, s: &mut [u8]) -> Result<(), ActivateError>
    ensures { (activated_told result ≡ activate_of config s.old) × (s.new ≡ activated_bytes config s.old) }
{
    let Some(head) = table::checked(config, s) else {
        return Err(ActivateError::Damaged);
    };
    if head.state == DEAD {
        return Err(ActivateError::Dead);
    }
    row_writer::put_state(s, ACTIVE);
    Ok(())
}
