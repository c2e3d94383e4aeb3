// What a command does once no test fails: what is stored, the reply and the new head. Bytes stand apart: it says where a
// value comes from, and serving puts it in.
#![tactic(auto)]

ghost use Rattle.std.specs.Prelude.{◌≡◌, cond, false};
ghost use Rattle.effects.specs.Done.{nothing, storing, plain_numbers, found, write_done, delete_done, sum, counted, count_done, meta_numbers, meta_done, join_done, touch_done};

use commands::{Context, Counter, Meta, Plain, Touching};
use document::{Head, Metadata, Side};
use numbers::{Cas, Numbers};

// Where a stored value comes from.
#[derive(Clone, Copy)]
pub enum Source {
    Empty,
    Frame,
    Digits(u64),
    // the stored value as it is
    Kept,
    // the frame's, at this side of the stored one
    Joined(Side),
}

// What a reply carries beside its CAS.
#[derive(Clone, Copy)]
pub enum Reply {
    Bare,
    // flags and the stored value, and the key where it is true
    Found(u32, bool),
    Counted(u64),
    Version,
    // the keys listed, at most so many
    Keys(u32),
}

#[derive(Clone, Copy)]
pub struct Done {
    pub store: Option<Metadata>,
    pub source: Source,
    pub reply: Reply,
    pub cas: Cas,
    // the whole new head
    pub head: Head,
}

pub fn nothing(h: Head, reply: Reply, cas: Cas) -> Done
    ensures { result ≡ nothing h reply cas }
{
    Done {
        store: None,
        source: Source::Empty,
        reply,
        cas,
        head: h,
    }
}

// The row is stored, and the mark raised to its CAS where lower.
fn storing(h: Head, row: Metadata, source: Source, reply: Reply) -> Done
    ensures { result ≡ storing h row source reply }
{
    let cas = row.numbers.cas;
    Done {
        store: Some(row),
        source,
        reply,
        cas,
        head: document::raised(h, cas),
    }
}

// The numbers of a plain write.
fn plain_numbers(c: Context, flags: u32, expiry: u32) -> Numbers
    ensures { result ≡ plain_numbers c flags expiry }
{
    Numbers {
        flags,
        expiry,
        revision: c.stored().revision.next(),
        cas: c.head.mark.next(),
    }
}

pub fn found(c: Context, keyed: bool) -> Done
    ensures { result ≡ found c keyed }
{
    let stored = c.stored();
    nothing(c.head, Reply::Found(stored.flags, keyed), stored.cas)
}

pub fn write_done(c: Context, p: Plain) -> Done
    ensures { result ≡ write_done c p }
{
    let numbers = plain_numbers(c, p.flags, numbers::absolute(p.expiry, c.clock));
    storing(
        c.head,
        Metadata {
            tomb: false,
            numbers,
        },
        Source::Frame,
        Reply::Bare,
    )
}

pub fn delete_done(c: Context) -> Done
    ensures { result ≡ delete_done c }
{
    let numbers = plain_numbers(c, 0, 0);
    storing(
        c.head,
        Metadata {
            tomb: true,
            numbers,
        },
        Source::Empty,
        Reply::Bare,
    )
}

fn sum(n: Option<u64>, k: Counter) -> u64
    ensures { result ≡ sum n k }
{
    match n {
        Some(n) if k.up => numbers::increment(n, k.delta),
        Some(n) => numbers::decrement(n, k.delta),
        None => 0,
    }
}

fn counted(c: Context, flags: u32, expiry: u32, n: u64) -> Done
    ensures { result ≡ counted c flags expiry n }
{
    let numbers = plain_numbers(c, flags, expiry);
    storing(
        c.head,
        Metadata {
            tomb: false,
            numbers,
        },
        Source::Digits(n),
        Reply::Counted(n),
    )
}

pub fn count_done(c: Context, k: Counter) -> Done
    ensures { result ≡ count_done c k }
{
    if c.is_live() {
        let stored = c.stored();
        counted(c, stored.flags, stored.expiry, sum(c.number, k))
    } else {
        counted(c, 0, numbers::absolute(k.expiry, c.clock), k.initial)
    }
}

fn source_of(tomb: bool) -> Source
    ensures { result ≡ cond tomb Source.Empty Source.Frame }
{
    if tomb { Source::Empty } else { Source::Frame }
}

fn meta_numbers(h: Head, w: Meta) -> Numbers
    ensures { result ≡ meta_numbers h w }
{
    if w.regenerate {
        return Numbers {
            cas: h.mark.next(),
            ..w.numbers
        };
    }
    w.numbers
}

pub fn meta_done(c: Context, w: Meta, tomb: bool) -> Done
    ensures { result ≡ meta_done c w tomb }
{
    let numbers = meta_numbers(c.head, w);
    storing(
        c.head,
        Metadata { tomb, numbers },
        source_of(tomb),
        Reply::Bare,
    )
}

// Append and Prepend: flags and expiry stay.
pub fn join_done(c: Context, side: Side) -> Done
    ensures { result ≡ join_done c side }
{
    let stored = c.stored();
    let numbers = plain_numbers(c, stored.flags, stored.expiry);
    storing(
        c.head,
        Metadata {
            tomb: false,
            numbers,
        },
        Source::Joined(side),
        Reply::Bare,
    )
}

fn touch_reply(shown: bool, flags: u32) -> Reply
    ensures { result ≡ cond shown (Reply.Found flags false) Reply.Bare }
{
    if shown {
        Reply::Found(flags, false)
    } else {
        Reply::Bare
    }
}

// Touch and Get-and-touch: flags and value stay.
pub fn touch_done(c: Context, t: Touching) -> Done
    ensures { result ≡ touch_done c t }
{
    let flags = c.stored().flags;
    let numbers = plain_numbers(c, flags, numbers::absolute(t.expiry, c.clock));
    storing(
        c.head,
        Metadata {
            tomb: false,
            numbers,
        },
        Source::Kept,
        touch_reply(t.shown, flags),
    )
}
