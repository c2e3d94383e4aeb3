// What changes rows in key order: a new key's row put at its place by moving the rows after it, and a purge that closes the
// gaps. A document stored over its key's row is the plain engine's. Every public function is total on any bytes.
#![tactic(auto)]

ghost use Rattle.std.specs.Prelude.{◌≡◌, not, cond, ◌++◌, ◌+◌, ◌*◌, ◌≤◌, length, take, drop};
ghost use Rattle.octets.specs.Parts.{part, pasted};
ghost use Rattle.document.specs.Stored.{gone_doc};
ghost use Rattle.rows.specs.Row.{row_of};
ghost use Rattle.plain.specs.Lookup.{is_free};
ghost use Rattle.plain_writer.specs.Change.{purged_rows, freed_rows};
ghost use Rattle.ordered_writer.specs.Insertion.{row_inserted, inserted};
ghost use Rattle.ordered_writer.specs.Gaps.{closed_bytes, gaps_closed};

use document::Metadata;
use numbers::Cas;
use rows::{HEADER, ROW, SPACE};

// Copies a row to a place, through an array: where it is copied to may be among its own bytes. Not `copy_within`, which copies byte
// by byte where it copies up: an insert before 125 rows took 1,969,584 instructions by it, and takes 25,590.
fn copy_row(b: &mut [u8], at: usize, to: usize)
    requires { (at + 1312 ≤ length b.old) × (to + 1312 ≤ length b.old) }
    ensures { b.new ≡ pasted b.old to (part b.old at 1312) }
{
    let mut row = [0u8; ROW];
    row.copy_from_slice(&b[at..at + ROW]);
    octet_writer::put_bytes(b, to, &row);
}

// Moves n rows by one, from the last to the first, since each is copied over the one that was copied before.
fn move_rows(b: &mut [u8], at: usize, n: usize)
    requires { at + n * 1312 + 1312 ≤ length b.old }
    ensures { b.new ≡ pasted b.old (at + 1312) (part b.old at (n * 1312)) }
{
    for i in (0..n).rev() {
        let k = at + i * ROW;
        copy_row(b, k, k + ROW);
    }
}

// Moves the rows from a place to before another by one, over the row there, and writes an entry where they made room. The row
// at the place held another key: all of it is written. Nothing changes where there are no such rows or the entry doesn't fit.
fn insert_row(b: &mut [u8], i: usize, free: usize, key: &[u8], m: Metadata, value: &[u8])
    ensures { b.new ≡ row_inserted b.old i free (record { key = key.entry.now; doc = record { tomb = m.tomb; value = value.now; numbers = m.numbers } }) }
{
    if free < i {
        return;
    }
    if free >= rows::rows_in(b.len()) {
        return;
    }
    if !row_writer::fits(key.len(), value.len()) {
        return;
    }
    move_rows(b, HEADER + i * ROW, free - i);
    plain_writer::store(b, i, key, m, value, SPACE - key.len());
}

// Stores an entry in a row of its own at a place: the used rows from there on move by one, into the first free row. Nothing
// changes where none is free, the first one stands before the place, or the entry doesn't fit a row.
pub fn insert(b: &mut [u8], i: usize, key: &[u8], m: Metadata, value: &[u8])
    ensures { b.new ≡ inserted b.old i (record { key = key.entry.now; doc = record { tomb = m.tomb; value = value.now; numbers = m.numbers } }) }
{
    if let Some(free) = plain::lookup::free(b) {
        insert_row(b, i, free, key, m, value);
    }
}

// Moves a used row down to a place, and says whether it is used.
fn keep_row(b: &mut [u8], at: usize, to: usize) -> bool
    requires { (to ≤ at) × (at + 1312 ≤ length b.old) }
    ensures { (result ≡ not (is_free (row_of (part b.old at 1312))))
        × (b.new ≡ cond result (pasted b.old to (part b.old at 1312)) b.old) }
{
    if octets::be16(octets::part(b, at, ROW), 0) == 0 {
        return false;
    }
    if to < at {
        copy_row(b, at, to);
    }
    true
}

fn close_rows(b: &mut [u8], n: usize)
    requires { 16 + n * 1312 ≤ length b.old }
    ensures { b.new ≡ take 16 b.old ++ closed_bytes n 0 (drop 16 b.old) }
{
    let mut to: usize = HEADER;
    for i in 0..n {
        if keep_row(b, HEADER + i * ROW, to) {
            to += ROW;
        }
    }
    octet_writer::put_zeros(b, to, HEADER + n * ROW - to);
}

// Moves the used rows together, and zeros follow them.
fn close_gaps(b: &mut [u8])
    ensures { b.new ≡ gaps_closed b.old }
{
    if b.len() < HEADER {
        return;
    }
    close_rows(b, rows::rows_in(b.len()));
}

// Frees the tombstones and expired documents with CAS at or below the bound, closes the gaps, and says how many it freed.
pub fn purge(b: &mut [u8], clock: u32, bound: Cas) -> usize
    ensures { (result ≡ freed_rows (gone_doc clock bound.0) b.old) × (b.new ≡ gaps_closed (purged_rows (gone_doc clock bound.0) b.old)) }
{
    let count = plain_writer::purge(b, clock, bound);
    close_gaps(b);
    count
}
