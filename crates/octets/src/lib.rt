// Bytes in lent memory: parts of a slice, big-endian numbers. Every public function is total: a part that isn't there reads as
// empty.
#![tactic(auto)]

ghost use Rattle.std.specs.Prelude.{◌≡◌, ℕ, ◌+◌, ◌-◌, ◌^◌, ◌≤◌, ◌<◌, length, drop, leb};
ghost use Rattle.octets.specs.Parts.{part};
ghost use Rattle.octets.specs.BigEndian.{num};
ghost use Rattle.octets.specs.Words.{word_at};

// a - b, or 0 where b is larger.
pub fn minus(a: usize, b: usize) -> usize
    ensures { result ≡ a - b }
{
    a.saturating_sub(b)
}

// The bytes from a place on.
pub fn rest(s: &[u8], at: usize) -> &[u8]
    ensures { result.now ≡ drop at s.now }
{
    &s[at.min(s.len())..]
}

// The n bytes from a place on, or as many of them as there are.
pub fn part(s: &[u8], at: usize, n: usize) -> &[u8]
    ensures { result.now ≡ part s.now at n }
{
    let tail = rest(s, at);
    &tail[..n.min(tail.len())]
}

// Whether n bytes stand from a place on.
pub fn fits(len: usize, at: usize, n: usize) -> bool
    ensures { result ≡ leb (at + n) len }
{
    at <= len && n <= len - at
}

// A byte as a number, whose bound the sums below need.
fn wide(x: u8) -> u64
    ensures { (result ≡ x) × (result < 256) }
{
    u64::from(x)
}

// The number at a place, n bytes wide. The three widths below are this one.
fn number(s: &[u8], at: usize, n: usize) -> u64
    requires { (at + n ≤ length s.now) × (n ≤ 8) }
    ensures { (result ≡ num s.now at n) × (result < 256 ^ n) }
{
    let mut v: u64 = 0;
    for i in 0..n {
        v = v * 256 + wide(s[at + i]);
    }
    v
}

// The number at a place, at most n bytes wide: as many as there are.
fn number_there(s: &[u8], at: usize, n: usize) -> u64
    requires { n ≤ 8 }
    ensures { (result ≡ num s.now at n) × (result < 256 ^ n) }
{
    if fits(s.len(), at, n) {
        return number(s, at, n);
    }
    let there = part(s, at, n);
    number(there, 0, there.len())
}

pub fn byte(s: &[u8], at: usize) -> u8
    ensures { result ≡ num s.now at 1 }
{
    number_there(s, at, 1) as u8
}

pub fn be16(s: &[u8], at: usize) -> u16
    ensures { result ≡ num s.now at 2 }
{
    number_there(s, at, 2) as u16
}

pub fn be32(s: &[u8], at: usize) -> u32
    ensures { result ≡ num s.now at 4 }
{
    number_there(s, at, 4) as u32
}

// Eight bytes by halves, which compile to one load.
fn halves(s: &[u8], at: usize) -> u64
    requires { at + 8 ≤ length s.now }
    ensures { result ≡ num s.now at 8 }
{
    number(s, at, 4) * 4294967296 + number(s, at + 4, 4)
}

pub fn be64(s: &[u8], at: usize) -> u64
    ensures { result ≡ num s.now at 8 }
{
    if fits(s.len(), at, 8) {
        return halves(s, at);
    }
    number_there(s, at, 8)
}

// The eight bytes at a place as the machine loads them, for comparing and mixing: one load, with no bytes turned.
pub fn word(s: &[u8], at: usize) -> u64
    ensures { result ≡ word_at s.now at }
{
    match rest(s, at).first_chunk::<8>() {
        Some(bytes) => u64::from_le_bytes(*bytes),
        None => 0,
    }
}
