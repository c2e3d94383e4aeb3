// Whether the keys of plain rows differ, by fingerprints: a key is compared with others only where theirs are the same, and the search for a
// fingerprint vectorises.
#![tactic(auto)]

ghost use Rattle.std.specs.Prelude.{◌≡◌, ◌&&◌, map, ◌≤◌, ◌∷◌, length};
ghost use Rattle.rows.specs.Row.{row_of};
ghost use Rattle.plain_damage.specs.Print.{row_print};
ghost use Rattle.plain.specs.Damage.{distinct};
ghost use Rattle.plain_damage.specs.Distinct.{keys_distinct};

use rows::ROW;

// The fingerprint of a row's key, 0 where the row is free.
fn row_print(r: &[u8]) -> u32
    ensures { result ≡ row_print (row_of r.now) }
{
    if octets::be16(r, 0) == 0 {
        return 0;
    }
    fingerprint::of_key(rows::row::key(r))
}

// Whether a row is free, or none of the later ones has its key: what distinct asks of it. Keys are compared only where a later
// row has its fingerprint.
fn first_distinct(row: &[u8], later: &[[u8; ROW]], print: u32, prints: &[u32]) -> bool
    requires { (print ≡ row_print (row_of row.now)) × (prints.now ≡ map row_print (map row_of later.now)) }
    ensures { (result && distinct (map row_of later.now)) ≡ distinct (row_of row.now ∷ map row_of later.now) }
{
    if octets::be16(row, 0) == 0 {
        return true;
    }
    if !fingerprint::among(print, prints) {
        return true;
    }
    let key = rows::row::key(row);
    plain::lookup::find_among(later, key).is_none()
}

// From the last row to the first; the fingerprints of the rows seen stand in prints, each at its row's place, and their buckets
// are marked in seen. A row whose bucket isn't marked has a fingerprint that no later row has.
fn rows_distinct(rows: &[[u8; ROW]]) -> bool
    requires { length rows.now ≤ 256 }
    ensures { result ≡ distinct (map row_of rows.now) }
{
    if rows.len() < 2 {
        return true;
    }
    let n = rows.len();
    let mut prints = [0u32; 256];
    let mut seen = [0u8; 1024];
    let mut apart = true;
    for i in (0..n).rev() {
        let print = row_print(&rows[i]);
        let b = fingerprint::bucket(print);
        if seen[b] != 0 {
            apart &= first_distinct(&rows[i], &rows[i + 1..], print, &prints[i + 1..n]);
        }
        seen[b] = 1;
        prints[i] = print;
    }
    apart
}

// Whether no two used rows have one key. No table has more than 256 rows.
pub fn is_distinct(s: &[u8]) -> bool
    ensures { result ≡ keys_distinct s.now }
{
    let rows = rows::all(s);
    if 256 < rows.len() {
        return false;
    }
    rows_distinct(rows)
}
