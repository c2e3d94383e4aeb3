// What is printed.
use numbers::Numbers;
use tally::Tally;
use vector_text::show::{decimal, hexadecimal, text};

const PRIME: u64 = 36028797018963913;

pub(crate) fn numbers(n: Numbers) {
    decimal(b"flags=", u64::from(n.flags));
    decimal(b" expiry=", u64::from(n.expiry));
    decimal(b" revision=", n.revision.0);
    decimal(b" cas=", n.cas.0);
}

pub(crate) fn seconds(n: i64) {
    let name: &[u8] = if n < 0 { b" left=-" } else { b" left=" };
    decimal(name, numbers::magnitude(n));
}

pub(crate) fn left(l: Option<i64>) {
    match l {
        None => text(b" left=never"),
        Some(n) => seconds(n),
    }
}

pub(crate) fn tally(t: Tally) {
    decimal(b"tally ", t.served);
    decimal(b" ", t.refused);
    decimal(b" ", t.silent);
}

// One byte more: the sum times 257, by the largest prime under 2^55, and the byte.
fn added(sum: u64, b: u8) -> u64 {
    (sum % PRIME) * 257 + u64::from(b)
}

// A sum over all of the bytes in which each one's place counts.
fn digest(s: &[u8]) -> u64 {
    s.iter().fold(1, |sum, &b| added(sum, b)) % PRIME
}

// What the whole table is after a call.
pub(crate) fn table(s: &[u8]) {
    hexadecimal(b" table=", digest(s), 16);
}
