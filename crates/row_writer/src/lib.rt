// Writing a table's head, and an entry over a row. Every public function is total on any bytes.
#![tactic(auto)]

ghost use Rattle.std.specs.Prelude.{◌≡◌, ◌+◌, ◌≤◌, length, leb};
ghost use Rattle.octets.specs.Parts.{written};
ghost use Rattle.octets.specs.BigEndian.{bytes_of};
ghost use Rattle.rows.specs.Row.{size_bytes, short_bytes, long_bytes, slot_bytes, kind_of};
ghost use Rattle.rows.specs.Table.{head_bytes};
ghost use Rattle.row_writer.specs.Over.{over_bytes, over_row, slot_sized, updated_bytes, updated_row, joined_bytes, joined_row};

use document::{Head, Metadata, Side};
use rows::{FIXED, HEADER, ROW, SPACE, Slot};

// Writes a head. Memory with no room for one is left unchanged.
pub fn put_head(b: &mut [u8], h: Head)
    ensures { b.new ≡ written b.old 0 (head_bytes h) }
{
    if b.len() < HEADER {
        return;
    }
    octet_writer::put_be(b, 0, 1, h.state as u64);
    octet_writer::put_be(b, 1, 1, h.mode as u64);
    octet_writer::put_be(b, 2, 2, h.vbucket as u64);
    octet_writer::put_be(b, 4, 4, h.clock as u64);
    octet_writer::put_be(b, 8, 8, h.mark.0);
}

// Writes the state alone, any number, as `put_head` does. Memory with no room for it is left unchanged.
pub fn put_state(b: &mut [u8], state: u8)
    ensures { b.new ≡ written b.old 0 (bytes_of 1 state) }
{
    octet_writer::put_be(b, 0, 1, state as u64);
}

// Writes the kept clock alone. Memory with no room for it is left unchanged.
pub fn put_clock(b: &mut [u8], clock: u32)
    ensures { b.new ≡ written b.old 4 (bytes_of 4 clock) }
{
    octet_writer::put_be(b, 4, 4, clock as u64);
}

fn put_sizes(s: &mut [u8], at: usize, h: Slot)
    requires { at + 32 ≤ length s.old }
    ensures { s.new ≡ written s.old at (size_bytes h) }
{
    octet_writer::put_be(s, at, 2, h.kind as u64);
    octet_writer::put_be(s, at + 2, 2, h.keylen as u64);
    octet_writer::put_be(s, at + 4, 4, h.vallen as u64);
}

fn put_short(s: &mut [u8], at: usize, h: Slot)
    requires { at + 24 ≤ length s.old }
    ensures { s.new ≡ written s.old at (short_bytes h) }
{
    octet_writer::put_be(s, at, 4, h.numbers.flags as u64);
    octet_writer::put_be(s, at + 4, 4, h.numbers.expiry as u64);
}

fn put_long(s: &mut [u8], at: usize, h: Slot)
    requires { at + 16 ≤ length s.old }
    ensures { s.new ≡ written s.old at (long_bytes h) }
{
    octet_writer::put_be(s, at, 8, h.numbers.revision.0);
    octet_writer::put_be(s, at + 8, 8, h.numbers.cas.0);
}

fn put_slot(s: &mut [u8], at: usize, h: Slot)
    requires { at + 32 ≤ length s.old }
    ensures { s.new ≡ written s.old at (slot_bytes h) }
{
    put_sizes(s, at, h);
    put_short(s, at + 8, h);
    put_long(s, at + 16, h);
}

fn kind_of(tomb: bool) -> u16
    ensures { result ≡ kind_of tomb }
{
    if tomb { 2 } else { 1 }
}

// Writes an entry over a row of 1,312 bytes. Of what stands after its value, only the bytes that the value before it used
// become zero: old is that value's length. Where the row has another length or the entry doesn't fit, nothing changes.
pub fn put_row(row: &mut [u8], key: &[u8], m: Metadata, value: &[u8], old: usize)
    ensures { row.new ≡ over_row row.old (record { key = key.entry.now; doc = record { tomb = m.tomb; value = value.now; numbers = m.numbers } }) old }
{
    if row.len() == ROW && fits(key.len(), value.len()) {
        put_entry(row, key, m, value, old);
    }
}

// Writes a document over a row of 1,312 bytes that holds its key, of k bytes: as `put_row`, but the key is left as it stands.
pub fn update_row(row: &mut [u8], k: usize, m: Metadata, value: &[u8], old: usize)
    ensures { row.new ≡ updated_row row.old k m value.now old }
{
    if row.len() == ROW && fits(k, value.len()) {
        put_document(row, k, m, value, old);
    }
}

// Whether a key and a value of these lengths fit a row.
pub fn fits(k: usize, v: usize) -> bool
    ensures { result ≡ leb (k + v) 1280 }
{
    k.saturating_add(v) <= SPACE
}

// Writes the fixed part of a row whose key and value have so many bytes.
fn put_fixed(row: &mut [u8], k: usize, m: Metadata, size: usize)
    requires { (length row.old ≡ 1312) × (k ≤ 1280) × (size ≤ 1280) }
    ensures { row.new ≡ written row.old 0 (slot_bytes (slot_sized k m size)) }
{
    let slot = Slot {
        kind: kind_of(m.tomb),
        keylen: k as u16,
        vallen: size as u32,
        numbers: m.numbers,
    };
    put_slot(row, 0, slot);
}

fn put_document(row: &mut [u8], k: usize, m: Metadata, value: &[u8], old: usize)
    requires { (length row.old ≡ 1312) × (k + length value.now ≤ 1280) }
    ensures { row.new ≡ updated_bytes row.old k m value.now old }
{
    let v = value.len();
    put_fixed(row, k, m, v);
    octet_writer::put_bytes(row, FIXED + k, value);
    if v < old {
        octet_writer::put_zeros(row, FIXED + k + v, old - v);
    }
}

fn put_entry(row: &mut [u8], key: &[u8], m: Metadata, value: &[u8], old: usize)
    requires { (length row.old ≡ 1312) × (length key.now + length value.now ≤ 1280) }
    ensures { row.new ≡ over_bytes row.old (record { key = key.entry.now; doc = record { tomb = m.tomb; value = value.now; numbers = m.numbers } }) old }
{
    octet_writer::put_bytes(row, FIXED, key);
    put_document(row, key.len(), m, value, old);
}

fn put_joined(row: &mut [u8], k: usize, m: Metadata, side: Side, value: &[u8], old: usize)
    requires { (length row.old ≡ 1312) × (k + (old + length value.now) ≤ 1280) }
    ensures { row.new ≡ joined_bytes row.old k m side value.now old }
{
    let start = FIXED + k;
    let size = old + value.len();
    put_fixed(row, k, m, size);
    match side {
        Side::Front => {
            octet_writer::move_up(row, start, old, value.len());
            octet_writer::put_bytes(row, start, value);
        }
        Side::Back => octet_writer::put_bytes(row, start + old, value),
    }
}

// Joins a value to the one of length old that a row holds for a key of k bytes, in place: of what stands there no byte is copied, but
// by a value at its front. Where the row has another length or the two don't fit together, nothing changes. With one test for the
// three, as in `put_row`, 64 values joined at the front take 31,328 instructions, and 27,041 so.
pub fn join_row(row: &mut [u8], k: usize, m: Metadata, side: Side, value: &[u8], old: usize)
    ensures { row.new ≡ joined_row row.old k m side value.now old }
{
    if row.len() != ROW {
        return;
    }
    if !fits(k, value.len()) {
        return;
    }
    if SPACE - (k + value.len()) < old {
        return;
    }
    put_joined(row, k, m, side, value, old);
}
