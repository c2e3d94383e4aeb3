// Listing the live keys of rows in key order: the rows are walked from the first one that is not below the start key, and their
// keys are written as far as they fit.
#![tactic(auto)]

ghost use Rattle.std.specs.Prelude.{◌≡◌, ◌≤◌, length, drop, map};
ghost use Rattle.octets.specs.Parts.{written};
ghost use Rattle.rows.specs.Row.{row_of};
ghost use Rattle.listing.specs.Listing.{taken, keys_bytes};
ghost use Rattle.ordered_listing.specs.Walk.{is_live, keys_live, keys_walked};

use listing::ROOM;
use rows::ROW;

// Whether a row holds a live document.
fn is_live(r: &[u8], clock: u32) -> bool
    ensures { result ≡ is_live clock (row_of r.now) }
{
    let kind = octets::be16(r, 0);
    (kind != 0) & document::alive(kind == 2, octets::be32(r, 12), clock)
}

// Writes the keys of the live rows from a place on, as many as the count and the limit let, from byte 24 on, and answers their
// length.
fn put_rows(rows: &[[u8; ROW]], first: usize, clock: u32, count: u32, out: &mut [u8]) -> usize
    requires { 1302 ≤ length out.old }
    ensures { (result ≡ length (keys_bytes (taken count 1278 (keys_live clock (drop first (map row_of rows.now))))))
        × (out.new ≡ written out.old 24 (keys_bytes (taken count 1278 (keys_live clock (drop first (map row_of rows.now)))))) }
{
    let mut size: usize = 0;
    let mut left = count;
    for i in first..rows.len() {
        if left == 0 {
            return size;
        }
        let row = &rows[i];
        if is_live(row, clock) {
            let key = rows::row::key(row);
            match listing::put_key(out, size, key) {
                Some(longer) => size = longer,
                None => return size,
            }
            left -= 1;
        }
    }
    size
}

// Writes a listing's value from byte 24 on and answers its length. Nothing where the room is under 1,302 bytes.
pub fn put_keys(b: &[u8], clock: u32, start: &[u8], count: u32, out: &mut [u8]) -> usize
    ensures { (result ≡ length (keys_walked (length out.old) b.now clock start.now count))
        × (out.new ≡ written out.old 24 (keys_walked (length out.old) b.now clock start.now count)) }
{
    if out.len() < ROOM {
        return 0;
    }
    put_rows(
        rows::all(b),
        ordered_lookup::first_from(b, start),
        clock,
        count,
        out,
    )
}
