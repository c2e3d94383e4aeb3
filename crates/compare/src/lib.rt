// Comparing bytes in lent memory: whether two parts are the same, and whether one is all zero.
#![tactic(auto)]

ghost use Rattle.std.specs.Prelude.{◌≡◌, length};
ghost use Rattle.octets.specs.Compare.{zeros, same};

// Whether every byte is zero. With no way out of its loop it is compiled to vector code. As a fold it was tried: the damage test
// took four instructions more for each row.
pub fn all_zero(s: &[u8]) -> bool
    ensures { result ≡ zeros s.now }
{
    let mut seen = 0;
    for &byte in s {
        seen |= byte;
    }
    seen == 0
}

// The same, where the compiler doesn't know the length: by 32 bytes and the last 32 once more, so that no byte is left to a
// slower loop.
pub fn zero_run(s: &[u8]) -> bool
    ensures { result ≡ zeros s.now }
{
    if s.len() < 32 {
        return all_zero(s);
    }
    let whole = s.len() / 32 * 32;
    let last = s.len() - 32;
    all_zero(&s[..whole]) & all_zero(&s[last..])
}

// Whether two slices of one length hold the same bytes. With no way out of its loop it is compiled to vector code.
fn all_same(s: &[u8], t: &[u8]) -> bool
    requires { length s.now ≡ length t.now }
    ensures { result ≡ same s.now t.now }
{
    let mut apart = false;
    for (x, y) in s.iter().zip(t) {
        apart |= x != y;
    }
    !apart
}

// The same by 32 bytes, and the last 32 once more. `s == t` was tried in its place: a search took four instructions more for each
// row that `same` tells by one byte.
fn same_run(s: &[u8], t: &[u8]) -> bool
    requires { length s.now ≡ length t.now }
    ensures { result ≡ same s.now t.now }
{
    if s.len() < 32 {
        return all_same(s, t);
    }
    let whole = s.len() / 32 * 32;
    let last = s.len() - 32;
    all_same(&s[..whole], &t[..whole]) & all_same(&s[last..], &t[last..])
}

// Whether two slices hold the same bytes: the one test for equal keys. Lengths come first, then the last byte, then the rest, of
// which the first byte and the last eight are looked at before all others, since that is where most keys differ.
pub fn same(s: &[u8], t: &[u8]) -> bool
    ensures { result ≡ same s.now t.now }
{
    if s.len() != t.len() {
        return false;
    }
    if !s.is_empty() {
        let last = s.len() - 1;
        if s[last] != t[last] || s[0] != t[0] {
            return false;
        }
    }
    if 8 <= s.len() {
        let end = s.len() - 8;
        if octets::word(s, end) != octets::word(t, end) {
            return false;
        }
    }
    same_run(s, t)
}

// The same test for bytes that are no key and mostly equal.
pub fn equal(s: &[u8], t: &[u8]) -> bool
    ensures { result ≡ same s.now t.now }
{
    s == t
}
