// What a with-meta request carries in its extras and in its extended meta, and the rules that its fields must keep.
#![tactic(auto)]

ghost use Rattle.std.specs.Prelude.{◌≡◌, ℕ};
ghost use Rattle.with_meta.specs.WithMeta.{carried_numbers, options_of, section_of, with_meta};
ghost use Rattle.with_meta.specs.Section.{field_ok, fields_ok, section_ok};
ghost use Rattle.with_meta.specs.FieldRules.{stored_number, meta_number, stored_of, numbers_ok, body_ok, with_meta_ok};

use numbers::{Cas, Numbers, Revision};

// The largest CAS and revision that a request carries.
const LARGEST_NUMBER: u64 = 0xfffffffeffffffff;

const OPTION_BITS: u32 = 0x0f;

// The version of extended meta.
const VERSION: u8 = 1;

// What a with-meta request leaves in its key's row.
#[derive(Clone, Copy, Debug, PartialEq, Eq)]
pub enum Stored {
    Document,
    Tombstone,
}

// What tells what a with-meta request stores: that itself, or the number of it in a shape, of which any may stand here.
pub trait MetaCode: Copy {
    ghost told: { Self → ℕ };

    fn stored(self) -> Option<Stored>
        ensures { result ≡ stored_of (told self) };
}

impl MetaCode for Option<Stored> {
    ghost told = { meta_number };

    fn stored(self) -> Option<Stored> {
        self
    }
}

impl MetaCode for u8 {
    ghost told = { λ n. n };

    fn stored(self) -> Option<Stored> {
        match self {
            1 => Some(Stored::Document),
            2 => Some(Stored::Tombstone),
            _ => None,
        }
    }
}

// What the extras of a with-meta request carry.
#[derive(Clone, Copy)]
pub struct WithMeta {
    pub numbers: Numbers,
    pub options: u32,
    // the length of the extended meta
    pub section: u16,
}

// In extras of 25 bytes, which is the 2012 layout, the CAS stands before the revision; in all others behind it.
#[tactic(auto, unfolding(crate::specs::WithMeta::carried_numbers, crate::specs::WithMeta::present_numbers, crate::specs::WithMeta::former_numbers))]
fn numbers_of(extras: &[u8]) -> Numbers
    ensures { result ≡ carried_numbers extras.now }
{
    let first = octets::be64(extras, 8);
    let second = octets::be64(extras, 16);
    let (revision, cas) = if extras.len() == 25 {
        (second, first)
    } else {
        (first, second)
    };
    Numbers {
        flags: octets::be32(extras, 0),
        expiry: octets::be32(extras, 4),
        revision: Revision(revision),
        cas: Cas(cas),
    }
}

#[tactic(auto, unfolding(crate::specs::WithMeta::options_of))]
fn options_of(extras: &[u8]) -> u32
    ensures { result ≡ options_of extras.now }
{
    if 28 <= extras.len() {
        octets::be32(extras, 24)
    } else {
        0
    }
}

#[tactic(auto, unfolding(crate::specs::WithMeta::section_of))]
pub fn section_of(extras: &[u8]) -> u16
    ensures { result ≡ section_of extras.now }
{
    match extras.len() {
        26 => octets::be16(extras, 24),
        30 => octets::be16(extras, 28),
        _ => 0,
    }
}

#[tactic(auto, unfolding(crate::specs::WithMeta::with_meta))]
pub fn read(extras: &[u8]) -> WithMeta
    ensures { result ≡ with_meta extras.now }
{
    WithMeta {
        numbers: numbers_of(extras),
        options: options_of(extras),
        section: section_of(extras),
    }
}

// Whether a field of extended meta stands at the start of s.

fn field_ok(s: &[u8]) -> bool
    ensures { result ≡ field_ok s.now }
{
    if s.len() < 3 {
        return false;
    }
    let id = octets::byte(s, 0);
    let size = octets::be16(s, 1) as usize;
    ((id == 1) | (id == 2)) & (size <= s.len() - 3)
}

// Whether s is fields one after the other, to its end.
fn fields_ok(s: &[u8]) -> bool
    ensures { result ≡ fields_ok s.now }
{
    let mut left = s;
    while !left.is_empty() {
        if !field_ok(left) {
            return false;
        }
        left = octets::rest(left, 3 + octets::be16(left, 1) as usize);
    }
    true
}

#[tactic(auto, unfolding(crate::specs::Section::section_ok))]
fn section_ok(s: &[u8]) -> bool
    ensures { result ≡ section_ok s.now }
{
    s.is_empty() || (octets::byte(s, 0) == VERSION && fields_ok(octets::rest(s, 1)))
}

#[tactic(auto, unfolding(crate::specs::FieldRules::numbers_ok))]
fn numbers_ok(w: WithMeta) -> bool
    ensures { result ≡ numbers_ok w }
{
    let cas = w.numbers.cas.0;
    let revision = w.numbers.revision.0;
    1 <= cas
        && cas <= LARGEST_NUMBER
        && revision <= LARGEST_NUMBER
        && w.options <= OPTION_BITS
        && (w.options / 4 % 2 == 0 || w.options / 8 % 2 == 1)
}

// n: the bytes before the extended meta.

#[tactic(auto, unfolding(crate::specs::FieldRules::body_ok))]
fn body_ok(stored: Stored, w: WithMeta, n: usize) -> bool
    ensures { result ≡ body_ok (stored_number stored) w n }
{
    match stored {
        Stored::Document => 1 <= n,
        Stored::Tombstone => n == 0 && w.numbers.flags == 0 && w.numbers.expiry == 0,
    }
}

// Whether a request that stores this keeps the field rules; one that stores nothing is another command's, and keeps none.
#[tactic(auto, unfolding(crate::specs::FieldRules::with_meta_ok))]
fn stored_ok(stored: Option<Stored>, w: WithMeta, value: &[u8]) -> bool
    ensures { result ≡ with_meta_ok (meta_number stored) w value.now }
{
    let Some(stored) = stored else {
        return false;
    };
    let Some(n) = value.len().checked_sub(w.section as usize) else {
        return false;
    };
    numbers_ok(w) && body_ok(stored, w, n) && section_ok(octets::rest(value, n))
}

// Whether a with-meta request keeps the field rules; value is what follows its key.
pub fn with_meta_ok<M: MetaCode>(meta: M, w: WithMeta, value: &[u8]) -> bool
    ensures { result ≡ with_meta_ok (M.told meta) w value.now }
{
    stored_ok(meta.stored(), w, value)
}
