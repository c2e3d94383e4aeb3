// Listing the live keys of plain rows: their places are put in key order, with no key copied, and then the keys are written as
// far as they fit.
#![tactic(auto)]

ghost use Rattle.std.specs.Prelude.{◌≡◌, ◌++◌, ◌∷◌, ◌+◌, ◌-◌, ◌≤◌, ◌<◌, length, take, drop};
ghost use Rattle.octets.specs.Parts.{written};
ghost use Rattle.keys.specs.Keys.{key_below};
ghost use Rattle.rows.specs.Row.{row_of};
ghost use Rattle.rows.specs.Table.{row_count, row_at, table_of};
ghost use Rattle.listing.specs.Listing.{insert_key, sort_keys, taken, keys_bytes};
ghost use Rattle.listing.specs.Order.{InOrder};
ghost use Rattle.plain_listing.specs.Places.{key_at, keys_of, Within, is_listed, with_key, keys_listed, fitting_keys};

use listing::ROOM;
use rows::{HEADER, ROW};

// The key of the row at a place.
fn key_at(b: &[u8], i: usize) -> &[u8]
    requires { i < row_count b.now }
    ensures { result.now ≡ key_at b.now i }
{
    let at = HEADER + i * ROW;
    rows::row::key(&b[at..at + ROW])
}

// Whether a key stands before another.
fn is_below(s: &[u8], t: &[u8]) -> bool
    ensures { result ≡ key_below s.now t.now }
{
    keys::compare(s, t).is_lt()
}

// Whether a row holds a live document whose key is at or after the start key.
fn is_listed(r: &[u8], clock: u32, start: &[u8]) -> bool
    ensures { result ≡ is_listed clock start.now (row_of r.now) }
{
    let kind = octets::be16(r, 0);
    if kind == 0 {
        return false;
    }
    if !document::alive(kind == 2, octets::be32(r, 12), clock) {
        return false;
    }
    !is_below(rows::row::key(r), start)
}

// Where a key belongs among the places from first on, which are in key order. Before all of them is looked at first: in a
// table whose keys rise from row to row it is there. Not `partition_point`, whose test must answer for any place: `key_at` is for
// the places of rows.
fn position(b: &[u8], order: &[u8], first: usize, key: &[u8]) -> usize
    requires order_len { (length order.now ≡ 256) × (first ≤ 256) }
    requires within { Within (row_count b.now) (drop first order.now) × InOrder (keys_of b.now order.now first) }
    ensures { ((first ≤ result) × (result ≤ 256))
        × (insert_key key.now (keys_of b.now order.now first)
        ≡ take (result - first) (keys_of b.now order.now first) ++ (key.now ∷ keys_of b.now order.now result)) }
{
    if first == order.len() {
        return first;
    }
    if !is_below(key_at(b, order[first] as usize), key) {
        return first;
    }
    let mut lo = first + 1;
    let mut hi = order.len();
    while lo < hi {
        let mid = lo + (hi - lo) / 2;
        if is_below(key_at(b, order[mid] as usize), key) {
            lo = mid + 1;
        } else {
            hi = mid;
        }
    }
    lo
}

// Puts a place before the one at p; those from first on move down by one.
fn insert(order: &mut [u8], first: usize, p: usize, place: u8)
    requires { (length order.old ≡ 256) × ((1 ≤ first) × ((first ≤ p) × (p ≤ 256))) }
    ensures { (length order.new ≡ 256)
        × (drop (first - 1) order.new ≡ take (p - first) (drop first order.old) ++ (place ∷ drop p order.old)) }
{
    for j in first..p {
        order[j - 1] = order[j];
    }
    order[p - 1] = place;
}

// Puts the place of a row in key order where the row is listed, and answers where the places begin then.
fn put_row(b: &[u8], i: usize, clock: u32, start: &[u8], order: &mut [u8], first: usize) -> usize
    requires i_bound { ((i < row_count b.now) × (i < 256)) × ((length order.old ≡ 256) × ((1 ≤ first) × (first ≤ 256))) }
    requires within { Within (row_count b.now) (drop first order.old) × InOrder (keys_of b.now order.old first) }
    ensures { ((result ≤ first) × (first ≤ result + 1)) × ((length order.new ≡ 256)
        × (Within (row_count b.now) (drop result order.new)
        × (keys_of b.now order.new result ≡ with_key clock start.now (row_of (row_at b.now i)) (keys_of b.now order.old first)))) }
{
    let at = HEADER + i * ROW;
    let end = at + ROW;
    if !is_listed(&b[at..end], clock, start) {
        return first;
    }
    let p = position(b, order, first, key_at(b, i));
    insert(order, first, p, i as u8);
    first - 1
}

// Puts the places of the rows that are listed in key order at the end of order, from the last row to the first.
fn put_in_order(b: &[u8], n: usize, clock: u32, start: &[u8], order: &mut [u8]) -> usize
    requires { (n ≡ row_count b.now) × ((n ≤ 256) × (length order.old ≡ 256)) }
    ensures { ((result ≤ 256) × (length order.new ≡ 256))
        × (Within (row_count b.now) (drop result order.new)
        × (keys_of b.now order.new result ≡ sort_keys (keys_listed clock start.now (table_of b.now).rows))) }
{
    let mut first: usize = 256;
    for i in (0..n).rev() {
        first = put_row(b, i, clock, start, order, first);
    }
    first
}

// Writes keys from byte 24 on, as many as the count and the limit let, and answers their length.
fn put_ordered(b: &[u8], order: &[u8], first: usize, count: u32, out: &mut [u8]) -> usize
    requires { (1302 ≤ length out.old) × ((length order.now ≡ 256) × ((first ≤ 256) × Within (row_count b.now) (drop first order.now))) }
    ensures { (result ≡ length (keys_bytes (taken count 1278 (keys_of b.now order.now first))))
        × (out.new ≡ written out.old 24 (keys_bytes (taken count 1278 (keys_of b.now order.now first)))) }
{
    let mut size: usize = 0;
    let mut left = count;
    for j in first..order.len() {
        if left == 0 {
            return size;
        }
        let key = key_at(b, order[j] as usize);
        match listing::put_key(out, size, key) {
            Some(longer) => size = longer,
            None => return size,
        }
        left -= 1;
    }
    size
}

// Writes a listing's value from byte 24 on and answers its length. Nothing where the room is under 1,302 bytes or the rows are over
// 256.
pub fn put_keys(b: &[u8], clock: u32, start: &[u8], count: u32, out: &mut [u8]) -> usize
    ensures { (result ≡ length (fitting_keys (length out.old) b.now clock start.now count))
        × (out.new ≡ written out.old 24 (fitting_keys (length out.old) b.now clock start.now count)) }
{
    let n = rows::rows_in(b.len());
    if (out.len() < ROOM) | (256 < n) {
        return 0;
    }
    let mut order = [0u8; 256];
    let first = put_in_order(b, n, clock, start, &mut order);
    put_ordered(b, &order, first, count, out)
}
