// The walk of the damage test: the size, the header, and each row by itself; where rows are in key order, each row also against
// the one before it. It reads each byte once, and its zero checks vectorise. Both engines have the one walk: the test of a row is
// inlined in it for having no other caller.
#![tactic(auto)]

ghost use Rattle.std.specs.Prelude.{◌≡◌, ◌&&◌, map};
ghost use Rattle.rows.specs.Row.{row_of};
ghost use Rattle.rows.specs.RowRules.{all_sound};
ghost use Rattle.ordered.specs.Order.{follows};
ghost use Rattle.row_damage.specs.Walk.{in_order, checked_rows};

use document::Head;
use rows::{HEADER, ROW};

// Whether a row may stand right after another: a free row after any, a used one only after a used one with a smaller key.
fn row_follows(v: &[u8], w: &[u8]) -> bool
    ensures { result ≡ follows (row_of v.now) (row_of w.now) }
{
    if octets::be16(w, 0) == 0 {
        return true;
    }
    if octets::be16(v, 0) == 0 {
        return false;
    }
    let a = rows::row::key(v);
    let b = rows::row::key(w);
    keys::compare(a, b).is_lt()
}

fn rows_sound(rows: &[[u8; ROW]], mark: u64, keyed: bool) -> bool
    ensures { result ≡ (all_sound mark rows.now && in_order keyed (map row_of rows.now)) }
{
    for (i, row) in rows.iter().enumerate() {
        if !rows::damage::row_sound(row, mark) {
            return false;
        }
        if keyed && 0 < i && !row_follows(&rows[i - 1], row) {
            return false;
        }
    }
    true
}

// The head where the size, the header and the rows are right. keyed: whether the rows are to be in key order.
pub fn checked_rows(s: &[u8], keyed: bool) -> Option<Head>
    ensures { result ≡ checked_rows keyed s.now }
{
    let rows = rows::all(s);
    if !rows::damage::size_ok(s.len(), rows.len()) {
        return None;
    }
    let h = rows::head_of(&s[..HEADER]);
    if !rows::damage::head_ok(h) {
        return None;
    }
    if !rows_sound(rows, h.mark.0, keyed) {
        return None;
    }
    Some(h)
}
