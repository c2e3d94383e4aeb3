// The rules of document 01 that a request's parts must keep before any table is looked at: statuses 1 to 3, save those
// that need mode or clock. Reader and writer share them.
#![tactic(auto)]

ghost use Rattle.std.specs.Prelude.{◌≡◌, ℕ, ◌-◌, ◌≤◌, length, ltb};
ghost use Rattle.outcome.specs.Outcome.{status_of};
ghost use Rattle.shape.specs.Shapes.{key_number, shape_told};
ghost use Rattle.with_meta.specs.WithMeta.{with_meta};
ghost use Rattle.with_meta.specs.FieldRules.{meta_number};
ghost use Rattle.rules.specs.Rules.{extras_ok, key_ok, form_ok, count_of, count_ok, meta_size, is_forced, form_status, meta_status, field_status, judged, status};

use header::Header;
use outcome::Status;
use shape::{Extras, Key, Shape, ShapeCode, ShapeNumbers};
use with_meta::{Stored, WithMeta};

const LONGEST_KEY: u16 = 250;

const LONGEST_VALUE: usize = 1024;

// How many keys a listing asks for where it has no count.
const DEFAULT_COUNT: u32 = 1000;

// Whether extras of n bytes have a size of their class.
#[tactic(auto, unfolding(crate::specs::Rules::extras_ok))]
fn extras_ok(extras: Extras, n: u8) -> bool
    ensures { result ≡ extras_ok extras n }
{
    match extras {
        Extras::Nothing => n == 0,
        Extras::FlagsExpiry => n == 8,
        Extras::Counter => n == 20,
        Extras::Meta => matches!(n, 24 | 25 | 26 | 28 | 30),
        Extras::Count => matches!(n, 0 | 4),
        Extras::Expiry => n == 4,
    }
}

#[tactic(auto, unfolding(crate::specs::Rules::key_ok))]
fn key_ok(key: Key, n: u16) -> bool
    ensures { result ≡ key_ok (key_number key) n }
{
    match key {
        Key::Forbidden => n == 0,
        Key::Needed => (1..=LONGEST_KEY).contains(&n),
        Key::Optional => n <= LONGEST_KEY,
    }
}

fn key_fits<S: ShapeCode>(s: S, n: u16) -> bool
    ensures { result ≡ key_ok (S.told s).key n }
{
    match s.key() {
        Some(key) => key_ok(key, n),
        None => false,
    }
}

fn form_ok<S: ShapeCode>(s: S, h: Header) -> bool
    ensures { result ≡ form_ok (S.told s) h }
{
    let parts = u32::from(h.extlen) + u32::from(h.keylen);
    // &, not &&: with && reading requests of 16 kinds in random order took 29.2 ns each, with & 27.8
    (h.datatype == 0)
        & (parts <= h.body)
        & extras_ok(s.extras(), h.extlen)
        & key_fits(s, h.keylen)
        & (s.takes_value() | (h.body == parts))
}

// How many keys a listing asks for.
#[tactic(auto, unfolding(crate::specs::Rules::count_of))]
pub fn count_of(extras: &[u8]) -> u32
    ensures { result ≡ count_of extras.now }
{
    if extras.is_empty() {
        DEFAULT_COUNT
    } else {
        octets::be32(extras, 0)
    }
}

// Whether extras of this class keep the rule on a count.
fn count_ok(class: Extras, extras: &[u8]) -> bool
    ensures { result ≡ count_ok class extras.now }
{
    match class {
        Extras::Count => count_of(extras) != 0,
        _ => true,
    }
}

// How many bytes of extended meta end the value.
#[tactic(auto, unfolding(crate::specs::Rules::meta_size))]
pub fn meta_size<S: ShapeCode>(s: S, extras: &[u8]) -> usize
    ensures { result ≡ meta_size (S.told s) extras.now }
{
    if !s.has_meta() {
        return 0;
    }
    usize::from(with_meta::section_of(extras))
}

// Whether a value is over 1,024 bytes, its extended meta not counted.
fn too_large(len: usize, meta: usize) -> bool
    ensures { result ≡ ltb 1024 (len - meta) }
{
    LONGEST_VALUE < len.saturating_sub(meta)
}

// Whether a with-meta request has option 0x01.

pub fn is_forced(w: WithMeta) -> bool
    ensures { result ≡ is_forced w }
{
    w.options % 2 == 1
}

#[tactic(auto, unfolding(crate::specs::Rules::meta_status))]
fn meta_status(stored: Option<Stored>, extras: &[u8], value: &[u8]) -> Result<(), Status>
    ensures { status_of result ≡ meta_status (meta_number stored) (with_meta extras.now) value.now }
{
    let w = with_meta::read(extras);
    if !with_meta::with_meta_ok(stored, w, value) {
        return Err(Status::Invalid);
    }
    if is_forced(w) {
        return Err(Status::NotSupported);
    }
    if too_large(value.len(), usize::from(w.section)) {
        return Err(Status::TooLarge);
    }
    Ok(())
}

// The field rules answer no other status than document 01's, of numbers too.
fn judge_fields<S: ShapeCode>(s: S, extras: &[u8], value: &[u8]) -> Result<(), Status>
    ensures { status_of result ≡ field_status (S.told s) extras.now value.now }
{
    if !count_ok(s.extras(), extras) {
        return Err(Status::Invalid);
    }
    if s.has_meta() {
        return meta_status(s.stored(), extras, value);
    }
    let too_long = LONGEST_VALUE < value.len();
    if too_long {
        return Err(Status::TooLarge);
    }
    Ok(())
}

// What the rules are asked of: a shape, whose answers are statuses, or a shape's numbers, whose answers are numbers, 0 where
// no rule is broken.
pub trait Judged: ShapeCode {
    type Answer;

    ghost number: { Self.Answer → ℕ };

    fn form_status(self, h: Header) -> Self::Answer
        ensures { number result ≡ form_status (Self.told self) h };

    fn field_status(self, extras: &[u8], value: &[u8]) -> Self::Answer
        ensures { number result ≡ field_status (Self.told self) extras.now value.now };
}

impl Judged for Shape {
    type Answer = Result<(), Status>;

    ghost number = { status_of };

    #[tactic(auto, unfolding(crate::specs::Rules::form_status))]
    fn form_status(self, h: Header) -> Result<(), Status> {
        self.built?;
        if !form_ok(self, h) {
            return Err(Status::Invalid);
        }
        Ok(())
    }

    fn field_status(self, extras: &[u8], value: &[u8]) -> Result<(), Status> {
        judge_fields(self, extras, value)
    }
}

// A number for a status may be any here, so it is answered as it stands.
impl Judged for ShapeNumbers {
    type Answer = u8;

    ghost number = { λ n. n };

    #[tactic(auto, unfolding(crate::specs::Rules::form_status))]
    fn form_status(self, h: Header) -> u8 {
        if self.status != 0 {
            return self.status;
        }
        if !form_ok(self, h) {
            return Status::Invalid.number();
        }
        0
    }

    fn field_status(self, extras: &[u8], value: &[u8]) -> u8 {
        outcome::status_of(judge_fields(self, extras, value))
    }
}

// Status 1, and status 2 as far as the header shows it. Where there is none, extras and key end within the body.
pub fn form_status<S: Judged>(s: S, h: Header) -> S::Answer
    ensures { S.number result ≡ form_status (S.told s) h }
{
    s.form_status(h)
}

// Status 2 by the field rules, 0x83 for option 0x01, and status 3.
pub fn field_status<S: Judged>(s: S, extras: &[u8], value: &[u8]) -> S::Answer
    ensures { S.number result ≡ field_status (S.told s) extras.now value.now }
{
    s.field_status(extras, value)
}

fn judge(s: Shape, h: Header, extras: &[u8], value: &[u8]) -> Result<(), Status>
    ensures { status_of result ≡ judged (shape_told s) h extras.now value.now }
{
    form_status(s, h)?;
    field_status(s, extras, value)
}

// The status of the first rule that a request's header, extras and value break.
#[tactic(auto, unfolding(crate::specs::Rules::status))]
pub fn status(h: Header, extras: &[u8], value: &[u8]) -> Result<(), Status>
    ensures { status_of result ≡ status h extras.now value.now }
{
    judge(shape::shape_of(h.opcode), h, extras, value)
}
