// Finding a key's row, or the place of a new one, by halving: rows in key order, order 7. Every function is total on any bytes; what
// is found where the rows are in order is in specs/Claims.antt.
#![tactic(auto)]

ghost use Rattle.std.specs.Prelude.{◌≡◌, map};
ghost use Rattle.rows.specs.Row.{row_of};
ghost use Rattle.rows.specs.Table.{table_of};
ghost use Rattle.ordered.specs.Order.{row_side};
ghost use Rattle.ordered_lookup.specs.Halving.{key_place, last_free, place_ordered, first_from};

use engine::Place;
use rows::ROW;
use std::cmp::Ordering;

// On which side of a key a row stands. A free row is above every key.
fn row_side(r: &[u8], key: &[u8]) -> Ordering
    ensures { result ≡ row_side key.now (row_of r.now) }
{
    if octets::be16(r, 0) == 0 {
        return Ordering::Greater;
    }
    keys::compare(rows::row::key(r), key)
}

// The key's row, or the place of the first row above it: where a new row goes if there is room. Not `binary_search_by`, which says
// nothing of rows in no order: `place` promises what halving gives on any memory.
fn key_place(rows: &[[u8; ROW]], key: &[u8]) -> Place
    ensures { result ≡ key_place key.now (map row_of rows.now) }
{
    let mut lo: usize = 0;
    let mut hi = rows.len();
    while lo < hi {
        let mid = lo + (hi - lo) / 2;
        match row_side(&rows[mid], key) {
            Ordering::Less => lo = mid + 1,
            Ordering::Equal => return Place::Over(mid),
            Ordering::Greater => hi = mid,
        }
    }
    Place::Into(lo)
}

// Whether the last row is free: in key order, whether any is.
fn last_free(rows: &[[u8; ROW]]) -> bool
    ensures { result ≡ last_free (map row_of rows.now) }
{
    match rows.last() {
        Some(row) => octets::be16(row, 0) == 0,
        None => false,
    }
}

// The place of a key's document: over its row, else a new row's where one is asked for and there is room.
pub fn place(b: &[u8], key: &[u8], new: bool) -> Place
    ensures { result ≡ place_ordered new key.now (table_of b.now).rows }
{
    let rows = rows::all(b);
    match key_place(rows, key) {
        Place::Into(i) if new && last_free(rows) => Place::Into(i),
        Place::Over(i) => Place::Over(i),
        _ => Place::Full,
    }
}

// The place of the first row that is not below a key.
pub fn first_from(b: &[u8], key: &[u8]) -> usize
    ensures { result ≡ first_from key.now (table_of b.now).rows }
{
    match key_place(rows::all(b), key) {
        Place::Over(i) | Place::Into(i) => i,
        Place::Full => 0,
    }
}
