// The numbers of a document: their kinds, the published order, expiry and growth. CAS and revision are two kinds of
// number that can't be exchanged.
#![tactic(auto)]

ghost use Rattle.std.specs.Prelude.{◌≡◌, unsigned_abs};
ghost use Rattle.numbers.specs.Order.{mode_of, above, lead, second, greater};
ghost use Rattle.numbers.specs.Expiry.{later, seconds_left, is_past, seconds_in, expired, passes, absolute};
ghost use Rattle.numbers.specs.Growth.{next, cas_after, larger_cas, revision_after, incremented, decremented};

#[derive(Clone, Copy)]
pub struct Cas(pub u64);

#[derive(Clone, Copy)]
pub struct Revision(pub u64);

// The four numbers that a document carries, and that the published order compares.
#[derive(Clone, Copy)]
pub struct Numbers {
    pub flags: u32,
    pub expiry: u32,
    pub revision: Revision,
    pub cas: Cas,
}

// How a table resolves conflicts.
#[derive(Clone, Copy, Debug, PartialEq, Eq)]
pub enum Mode {
    ByRevision,
    LastWrite,
}

pub fn mode_of(n: u8) -> Mode
    ensures { result ≡ mode_of n }
{
    if n == 2 {
        return Mode::LastWrite;
    }
    Mode::ByRevision
}

fn above(a: u64, b: u64, rest: bool) -> bool
    ensures { result ≡ above a b rest }
{
    (b < a) | ((a == b) & rest)
}

fn lead(m: Mode, n: Numbers) -> u64
    ensures { result ≡ lead m n }
{
    match m {
        Mode::ByRevision => n.revision.0,
        Mode::LastWrite => n.cas.0,
    }
}

fn second(m: Mode, n: Numbers) -> u64
    ensures { result ≡ second m n }
{
    match m {
        Mode::ByRevision => n.cas.0,
        Mode::LastWrite => n.revision.0,
    }
}

// The published order: whether a is greater than b.
pub fn greater(m: Mode, a: Numbers, b: Numbers) -> bool
    ensures { result ≡ greater m a b }
{
    let rest = (b.expiry < a.expiry) | ((a.expiry == b.expiry) & (a.flags < b.flags));
    above(
        lead(m, a),
        lead(m, b),
        above(second(m, a), second(m, b), rest),
    )
}

// The later of the clock that a table keeps and a call's.
pub fn later(kept: u32, clock: u32) -> u32
    ensures { result ≡ later kept clock }
{
    kept.max(clock)
}

// The time that is left from a clock on. Every command, listing, purge and the owner's read decide from it.
pub fn seconds_left(expiry: u32, clock: u32) -> Option<i64>
    ensures { result ≡ seconds_left expiry clock }
{
    if expiry == 0 {
        return None;
    }
    Some(expiry as i64 - clock as i64)
}

pub fn is_past(left: Option<i64>) -> bool
    ensures { result ≡ is_past left }
{
    matches!(left, Some(n) if n <= 0)
}

// The seconds that are left, 0 where there is no end.
pub fn seconds_in(left: Option<i64>) -> i64
    ensures { result ≡ seconds_in left }
{
    left.unwrap_or(0)
}

// A number without its sign.
pub fn magnitude(n: i64) -> u64
    ensures { result ≡ unsigned_abs n }
{
    n.unsigned_abs()
}

// The one test of an expiry.
pub fn expired(expiry: u32, clock: u32) -> bool
    ensures { result ≡ expired expiry clock }
{
    is_past(seconds_left(expiry, clock))
}

// Whether a plain expiry's sum with the clock passes 2^32 - 1.
pub fn passes(expiry: u32, clock: u32) -> bool
    ensures { result ≡ passes expiry clock }
{
    ((1 <= expiry) & (expiry <= 2592000)) & (0xffffffff < expiry as u64 + clock as u64)
}

// A plain expiry as it is stored.
pub fn absolute(expiry: u32, clock: u32) -> u32
    ensures { result ≡ absolute expiry clock }
{
    if (expiry == 0) | (2592000 < expiry) {
        return expiry;
    }
    expiry.saturating_add(clock)
}

// One more; at 2^64 - 1, where the write is refused, the number itself.
pub fn next(n: u64) -> u64
    ensures { result ≡ next n }
{
    n.saturating_add(1)
}

impl Cas {
    // The CAS that a write makes where this is the mark.
    pub fn next(self) -> Cas
        ensures { result ≡ cas_after self }
    {
        Cas(next(self.0))
    }

    pub fn larger(self, other: Cas) -> Cas
        ensures { result ≡ larger_cas self other }
    {
        Cas(self.0.max(other.0))
    }
}

impl Revision {
    // The revision that a plain write makes where this is the row's.
    pub fn next(self) -> Revision
        ensures { result ≡ revision_after self }
    {
        Revision(next(self.0))
    }
}

// A counter's number and a delta more; past 2^64 - 1 it begins at 0 again.
pub fn increment(n: u64, delta: u64) -> u64
    ensures { result ≡ incremented n delta }
{
    n.wrapping_add(delta)
}

// A delta less, and no less than 0.
pub fn decrement(n: u64, delta: u64) -> u64
    ensures { result ≡ decremented n delta }
{
    n.saturating_sub(delta)
}
