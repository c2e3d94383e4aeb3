// What is printed of a decision.
use decision::Decision;
use document::{Head, Metadata, Side};
use effects::{Reply, Source};
use numbers::Numbers;
use vector_text::show::{decimal, hexadecimal, text};

fn numbers(n: Numbers) {
    decimal(b" flags ", u64::from(n.flags));
    decimal(b" expiry ", u64::from(n.expiry));
    decimal(b" revision ", n.revision.0);
    decimal(b" cas ", n.cas.0);
}

// The value that a counter stores, as its bytes.
fn counted(n: u64) {
    let mut out = io::buffer();
    let size = digits::put_number(&mut out, n);
    text(b" value '");
    text(octets::part(&out, 0, size));
    text(b"'");
}

fn source(s: Source) {
    match s {
        Source::Empty => text(b" value empty"),
        Source::Frame => text(b" value of the frame"),
        Source::Digits(n) => counted(n),
        Source::Kept => text(b" value kept"),
        Source::Joined(Side::Front) => text(b" value of the frame, then the stored one"),
        Source::Joined(Side::Back) => text(b" value stored, then the frame's"),
    }
}

fn held(d: Metadata) {
    if d.tomb {
        text(b", stores a tombstone");
    } else {
        text(b", stores a document");
    }
    numbers(d.numbers);
}

fn found(flags: u32, keyed: bool) {
    decimal(b"flags ", u64::from(flags));
    if keyed {
        text(b", the key");
    }
    text(b", the value");
}

fn reply(r: Reply) {
    text(b", replies ");
    match r {
        Reply::Bare => text(b"bare"),
        Reply::Found(flags, keyed) => found(flags, keyed),
        Reply::Counted(n) => decimal(b"number ", n),
        Reply::Version => text(b"release"),
        Reply::Keys(n) => decimal(b"keys, at most ", u64::from(n)),
    }
}

fn same_but_mark(a: Head, b: Head) -> bool {
    a.state == b.state && a.mode == b.mode && a.vbucket == b.vbucket && a.clock == b.clock
}

// The head is the one that was decided on.
pub(crate) fn decision(head: Head, d: Decision) {
    hexadecimal(b"status 0x", u64::from(outcome::status_of(d.status)), 2);
    if d.silent {
        text(b" silent");
    }
    if let Some(stored) = d.done.store {
        held(stored);
        source(d.done.source);
    }
    reply(d.done.reply);
    decimal(b" cas ", d.done.cas.0);
    decimal(b", mark ", d.done.head.mark.0);
    if !same_but_mark(head, d.done.head) {
        text(b", HEAD CHANGED");
    }
}
