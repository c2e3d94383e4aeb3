// What the damage test asks of the header and of each row. A row is read once; its zero checks vectorise.
ghost use Rattle.std.specs.Prelude.{◌≡◌};
ghost use Rattle.rows.specs.Row.{slot_of};
ghost use Rattle.rows.specs.RowRules.{size_ok, head_ok, used_ok, row_sound};

use crate::{FIXED, HEADER, ROW, Slot};
use document::Head;
use numbers::{Cas, Numbers, Revision};

// With `&&` for `&`, a walk over 256 rows takes 42,085 instructions and not 40,806.
fn used_ok(s: Slot, mark: u64) -> bool
    ensures { result ≡ used_ok mark s }
{
    let kind = (s.kind == 1)
        | ((s.kind == 2) & ((s.vallen == 0) & ((s.numbers.flags == 0) & (s.numbers.expiry == 0))));
    let cas = s.numbers.cas.0;
    kind & ((1 <= s.keylen)
        & ((s.keylen <= 250) & ((s.vallen <= 1024) & ((1 <= cas) & (cas <= mark)))))
}

pub fn row_sound(r: &[u8], mark: u64) -> bool
    ensures { result ≡ row_sound mark r.now }
{
    if octets::be16(r, 0) == 0 {
        return compare::all_zero(r);
    }
    let s = crate::row::slot(r);
    let used = s.keylen as usize + s.vallen as usize;
    used_ok(s, mark) & compare::zero_run(octets::rest(r, FIXED + used))
}

// Ranges' `contains` was tried, here and below: the proof didn't close by the search.
pub fn head_ok(h: Head) -> bool
    ensures { result ≡ head_ok h }
{
    ((1 <= h.state) & (h.state <= 4)) & ((1 <= h.mode) & (h.mode <= 2))
}

// Whether memory of len bytes is a table of n rows.
pub fn size_ok(len: usize, n: usize) -> bool
    ensures { result ≡ size_ok len n }
{
    if n < 1 {
        return false;
    }
    if 256 < n {
        return false;
    }
    len == HEADER + n * ROW
}
