// What changes the plain engine's rows: an entry stored in the row at a place, and a purge. Every public function is total on
// any bytes.
#![tactic(auto)]

ghost use Rattle.std.specs.Prelude.{◌≡◌, ◌++◌, ◌+◌, ◌-◌, ◌*◌, ◌/◌, ◌≤◌, ◌<◌, length, take, drop, MatchOption};
ghost use Rattle.document.specs.Stored.{gone_doc};
ghost use Rattle.rows.specs.Row.{row_of};
ghost use Rattle.plain.specs.Purge.{picked};
ghost use Rattle.plain_writer.specs.Change.{row_stored, row_updated, row_joined, purge_row, purge_bytes, purge_count, purged_rows, freed_rows};

use document::{Metadata, Side};
use numbers::Cas;
use rows::{HEADER, ROW};

// Where the row at a place begins in memory of this size.
fn row_start(len: usize, i: usize) -> Option<usize>
    ensures { MatchOption result ((len - 16) / 1312 ≤ i) (λ at. (i < (len - 16) / 1312) × (at ≡ 16 + i * 1312)) }
{
    if i >= rows::rows_in(len) {
        return None;
    }
    Some(HEADER + i * ROW)
}

// Stores an entry in the row at a place, its key too. Where there is no such row or the entry doesn't fit, nothing changes.
// old: how many bytes from the value's place on were in use, 0 where the row is free. What follows them is left as it is.
pub fn store(b: &mut [u8], i: usize, key: &[u8], m: Metadata, value: &[u8], old: usize)
    ensures { b.new ≡ row_stored b.old i (record { key = key.entry.now; doc = record { tomb = m.tomb; value = value.now; numbers = m.numbers } }) old }
{
    if let Some(at) = row_start(b.len(), i) {
        row_writer::put_row(&mut b[at..at + ROW], key, m, value, old);
    }
}

// Stores a document in the row at a place that holds its key, of k bytes: as `store`, but the key is left as it stands.
pub fn update(b: &mut [u8], i: usize, k: usize, m: Metadata, value: &[u8], old: usize)
    ensures { b.new ≡ row_updated b.old i k m value.now old }
{
    if let Some(at) = row_start(b.len(), i) {
        row_writer::update_row(&mut b[at..at + ROW], k, m, value, old);
    }
}

// Joins a value to the one of length old that the row at a place holds for a key of k bytes. Where there is no such row or the two
// don't fit together, nothing changes.
pub fn join(b: &mut [u8], i: usize, k: usize, m: Metadata, side: Side, value: &[u8], old: usize)
    ensures { b.new ≡ row_joined b.old i k m side value.now old }
{
    if let Some(at) = row_start(b.len(), i) {
        row_writer::join_row(&mut b[at..at + ROW], k, m, side, value, old);
    }
}

// Whether a purge frees a row.
fn row_gone(r: &[u8], clock: u32, bound: Cas) -> bool
    ensures { result ≡ picked (gone_doc clock bound.0) (row_of r.now) }
{
    (octets::be16(r, 0) != 0) & document::gone(rows::row::metadata(r), clock, bound)
}

// Frees a row where the purge is to free it, and says whether it did.
fn purge_row(row: &mut [u8], clock: u32, bound: Cas) -> bool
    requires { length row.old ≡ 1312 }
    ensures { (result ≡ picked (gone_doc clock bound.0) (row_of row.old)) × (row.new ≡ purge_row (gone_doc clock bound.0) row.old) }
{
    let gone = row_gone(row, clock, bound);
    if gone {
        row.fill(0);
    }
    gone
}

fn purge_rows(b: &mut [u8], n: usize, clock: u32, bound: Cas) -> usize
    requires { 16 + n * 1312 ≤ length b.old }
    ensures { (result ≡ purge_count (gone_doc clock bound.0) n (drop 16 b.old))
        × (b.new ≡ take 16 b.old ++ purge_bytes (gone_doc clock bound.0) n (drop 16 b.old)) }
{
    let mut count: usize = 0;
    for i in 0..n {
        let at = HEADER + i * ROW;
        if purge_row(&mut b[at..at + ROW], clock, bound) {
            count += 1;
        }
    }
    count
}

// Frees the tombstones and expired documents with CAS at or below the bound, and says how many.
pub fn purge(b: &mut [u8], clock: u32, bound: Cas) -> usize
    ensures { (result ≡ freed_rows (gone_doc clock bound.0) b.old) × (b.new ≡ purged_rows (gone_doc clock bound.0) b.old) }
{
    if b.len() < HEADER {
        return 0;
    }
    purge_rows(b, rows::rows_in(b.len()), clock, bound)
}
