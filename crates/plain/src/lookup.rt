// Finding a key's row and the lowest free one.
ghost use Rattle.std.specs.Prelude.{◌≡◌, cond, map};
ghost use Rattle.rows.specs.Row.{row_of};
ghost use Rattle.rows.specs.Table.{table_of};
ghost use Rattle.plain.specs.Lookup.{holds, is_free, run_rows, find_in, free_in, free_place, key_row, place_by};

use engine::Place;
use rows::ROW;

// Whether a row is used and has this key.
fn row_holds(r: &[u8], key: &[u8]) -> bool
    ensures { result ≡ holds key.now (row_of r.now) }
{
    (octets::be16(r, 0) != 0) & compare::same(rows::row::key(r), key)
}

fn is_free(r: &[u8]) -> bool
    ensures { result ≡ is_free (row_of r.now) }
{
    octets::be16(r, 0) == 0
}

// The first of these rows that holds the key.
pub fn find_among(rows: &[[u8; ROW]], key: &[u8]) -> Option<usize>
    ensures { result ≡ find_in key.now 0 (map row_of rows.now) }
{
    rows.iter().position(|row| row_holds(row, key))
}

// The first row of a run of rows, whatever stands in it, that holds the key.
pub fn find_in(s: &[u8], key: &[u8]) -> Option<usize>
    ensures { result ≡ find_in key.now 0 (run_rows s.now) }
{
    find_among(s.as_chunks::<ROW>().0, key)
}

// The place of the row that holds the key.
pub fn find(s: &[u8], key: &[u8]) -> Option<usize>
    ensures { result ≡ find_in key.now 0 (table_of s.now).rows }
{
    find_among(rows::all(s), key)
}

// The place of the lowest free row.
pub fn free(s: &[u8]) -> Option<usize>
    ensures { result ≡ free_in 0 (table_of s.now).rows }
{
    rows::all(s).iter().position(|row| is_free(row))
}

// The key's row. No sound row has an empty key, so that there is nothing to look for.
fn find_key(s: &[u8], key: &[u8]) -> Option<usize>
    ensures { result ≡ key_row key.now (table_of s.now).rows }
{
    if key.is_empty() {
        return None;
    }
    find(s, key)
}

// A new row's place: the lowest free one, which is looked for only where a new row is asked for.
fn free_place(s: &[u8], new: bool) -> Place
    ensures { result ≡ free_place (cond new (free_in 0 (table_of s.now).rows) None) }
{
    if !new {
        return Place::Full;
    }
    match free(s) {
        Some(i) => Place::Into(i),
        None => Place::Full,
    }
}

// The place of a key's document: over its row, else a new row's.
pub fn place(s: &[u8], key: &[u8], new: bool) -> Place
    ensures { result ≡ place_by new key.now (table_of s.now).rows }
{
    match find_key(s, key) {
        Some(i) => Place::Over(i),
        None => free_place(s, new),
    }
}
