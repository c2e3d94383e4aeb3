// The trace of a voyage: an opening of mode and vbucket, then fields, each a tag, a length and that many bytes.
#![tactic(auto)]

ghost use Rattle.std.specs.Prelude.{◌≡◌};
ghost use Rattle.trace.specs.Trace.{opening_of, field_by, field_of, rule_by, is_rule, field_at, forcing_by, forcing_in};

use numbers::Cas;

// A trace is no longer than this.
pub const LONGEST: usize = 65536;

// The bytes of an opening: mode and vbucket.
pub const OPENING: usize = 3;

// The bytes of a field before those that it holds: tag and length.
pub const FRONT: usize = 3;

// How a trace opens: the mode, a number as `owner::make` takes it, and the vbucket of its table.
#[derive(Clone, Copy)]
pub struct Opening {
    pub mode: u8,
    pub vbucket: u16,
}

// A clock, a request frame of so many bytes, an expected reply of so many, a purge's bound, or the rule of force of the whole trace, by
// which option 0x01 is taken or not. None where it stands is what stops a replay.
#[derive(Clone, Copy)]
pub enum Field {
    Clock(u32),
    Frame(usize),
    Reply(usize),
    Purge(Cas),
    Rule(bool),
}

// How a trace opens, where it can be replayed.
pub fn opening_of(trace: &[u8]) -> Option<Opening>
    ensures { result ≡ opening_of trace.now }
{
    if LONGEST < trace.len() {
        return None;
    }
    if trace.len() < OPENING {
        return None;
    }
    let mode = octets::byte(trace, 0);
    if (mode == 1) | (mode == 2) {
        return Some(Opening {
            mode,
            vbucket: octets::be16(trace, 1),
        });
    }
    None
}

// The rule that a byte names: 1 the old, by which force is taken, 2 the new.
fn rule_by(n: u8) -> Option<Field>
    ensures { result ≡ rule_by n }
{
    match n {
        1 => Some(Field::Rule(true)),
        2 => Some(Field::Rule(false)),
        _ => None,
    }
}

// A field of which all bytes are there, from its tag on: what its tag and its length say.
#[tactic(auto, unfolding(crate::specs::Trace::field_by))]
fn field_by(tag: u8, len: usize, s: &[u8]) -> Option<Field>
    ensures { result ≡ field_by tag len s.now }
{
    match (tag, len) {
        (1, 4) => Some(Field::Clock(octets::be32(s, FRONT))),
        (2, _) => Some(Field::Frame(len)),
        (3, _) => Some(Field::Reply(len)),
        (4, 8) => Some(Field::Purge(Cas(octets::be64(s, FRONT)))),
        (5, 1) => rule_by(octets::byte(s, FRONT)),
        _ => None,
    }
}

// The field at the start of s.
pub fn field_of(s: &[u8]) -> Option<Field>
    ensures { result ≡ field_of s.now }
{
    if s.len() < FRONT {
        return None;
    }
    let len = octets::be16(s, 1) as usize;
    if s.len() - FRONT < len {
        return None;
    }
    field_by(octets::byte(s, 0), len, s)
}

fn is_rule(f: Option<Field>) -> bool
    ensures { result ≡ is_rule f }
{
    matches!(f, Some(Field::Rule(_)))
}

// The field at the start of s, which stands at a place of its trace. A rule stands at the first alone.
pub fn field_at(s: &[u8], at: usize) -> Option<Field>
    ensures { result ≡ field_at at s.now }
{
    let field = field_of(s);
    if (at != OPENING) & is_rule(field) {
        return None;
    }
    field
}

// Whether force is taken by a trace whose first field this is: it is unless that says the new rule.
fn forcing_by(first: Option<Field>) -> bool
    ensures { result ≡ forcing_by first }
{
    match first {
        Some(Field::Rule(forcing)) => forcing,
        _ => true,
    }
}

// Whether a trace takes force.
pub fn forcing_in(trace: &[u8]) -> bool
    ensures { result ≡ forcing_in trace.now }
{
    forcing_by(field_of(octets::rest(trace, OPENING)))
}
