// What a store of documents is, apart from how memory holds it.
#![tactic(auto)]

ghost use Rattle.std.specs.Prelude.{◌≡◌};
ghost use Rattle.document.specs.Head.{raised, at_clock};
ghost use Rattle.document.specs.Stored.{alive, live, is_document, has_row, numbers_of, accepted, gone};

use numbers::{Cas, Mode, Numbers, Revision};

// A table's head. State and mode stay numbers: `head_of` and `head_bytes` of rows/specs/Table.antt give the head of any bytes, damaged ones too.
#[derive(Clone, Copy)]
pub struct Head {
    // 1 active, 2 replica, 3 pending, 4 dead
    pub state: u8,
    // 1 revision, 2 last-write-wins
    pub mode: u8,
    pub vbucket: u16,
    // the kept clock: the latest that the table was given
    pub clock: u32,
    // the mark: no used row has a CAS above it
    pub mark: Cas,
}

// What a used row holds for its key, the value aside.
#[derive(Clone, Copy)]
pub struct Metadata {
    pub tomb: bool,
    pub numbers: Numbers,
}

const NO_NUMBERS: Numbers = Numbers {
    flags: 0,
    expiry: 0,
    revision: Revision(0),
    cas: Cas(0),
};

// The side of a stored value at which another is joined to it.
#[derive(Clone, Copy)]
pub enum Side {
    Front,
    Back,
}

// The head with its mark raised to a CAS where it is lower.
pub fn raised(h: Head, cas: Cas) -> Head
    ensures { result ≡ raised h cas.0 }
{
    let mark = h.mark;
    Head {
        state: h.state,
        mode: h.mode,
        vbucket: h.vbucket,
        clock: h.clock,
        mark: mark.larger(cas),
    }
}

// The head at a call's clock, which is kept where it is the later one.
pub fn at_clock(h: Head, clock: u32) -> Head
    ensures { result ≡ at_clock h clock }
{
    let mark = h.mark;
    Head {
        state: h.state,
        mode: h.mode,
        vbucket: h.vbucket,
        clock: numbers::later(h.clock, clock),
        mark,
    }
}

// Whether what has this kind and this expiry is a document that is not expired.
pub fn alive(tomb: bool, expiry: u32, clock: u32) -> bool
    ensures { result ≡ alive tomb expiry clock }
{
    !tomb & !numbers::expired(expiry, clock)
}

// Whether a key's row is a document that is not expired.
#[tactic(auto, unfolding(crate::specs::Stored::live))]
pub fn live(s: Option<Metadata>, clock: u32) -> bool
    ensures { result ≡ live s clock }
{
    s.is_some_and(|d| alive(d.tomb, d.numbers.expiry, clock))
}

// Whether a key's row is a document, expired or not.
pub fn is_document(s: Option<Metadata>) -> bool
    ensures { result ≡ is_document s }
{
    s.is_some_and(|d| !d.tomb)
}

pub fn has_row(s: Option<Metadata>) -> bool
    ensures { result ≡ has_row s }
{
    s.is_some()
}

// The numbers of a key's row, all 0 without one.
pub fn numbers_of(s: Option<Metadata>) -> Numbers
    ensures { result ≡ numbers_of s }
{
    s.map_or(NO_NUMBERS, |d| d.numbers)
}

// Whether a with-meta write of these numbers wins over a key's row.
#[tactic(auto, unfolding(crate::specs::Stored::accepted))]
pub fn accepted(m: Mode, s: Option<Metadata>, n: Numbers) -> bool
    ensures { result ≡ accepted m s n }
{
    s.is_none_or(|d| numbers::greater(m, n, d.numbers))
}

// Whether a purge frees a row.
pub fn gone(m: Metadata, clock: u32, bound: Cas) -> bool
    ensures { result ≡ gone clock bound.0 m }
{
    (m.tomb | numbers::expired(m.numbers.expiry, clock)) & (m.numbers.cas.0 <= bound.0)
}
