// What a request is decided on, and the lines that set it.
use crate::words;
use commands::Context;
use document::{Head, Metadata};
use numbers::{Cas, Numbers, Revision};
use vector_text::numbers::{low8, low16, low32};
use vector_text::parts::cut;

// A fresh active table in revision mode.
pub(crate) fn first() -> Context {
    Context {
        head: Head {
            state: 1,
            mode: 1,
            vbucket: 0,
            clock: 0,
            mark: Cas(0),
        },
        row: None,
        free: true,
        clock: 0,
        number: digits::parse(b""),
        size: 0,
    }
}

// value: the stored one
fn with_row(t: Context, row: Option<Metadata>, value: &[u8]) -> Context {
    Context {
        row,
        number: digits::parse(value),
        size: value.len(),
        ..t
    }
}

fn document(fields: &[u8]) -> Option<Metadata> {
    let [flags, expiry, revision, cas] = words::all::<4>(fields)?;
    Some(Metadata {
        tomb: false,
        numbers: Numbers {
            flags: low32(flags),
            expiry: low32(expiry),
            revision: Revision(revision),
            cas: Cas(cas),
        },
    })
}

fn tombstone(fields: &[u8]) -> Option<Metadata> {
    let [revision, cas] = words::all::<2>(fields)?;
    Some(Metadata {
        tomb: true,
        numbers: Numbers {
            flags: 0,
            expiry: 0,
            revision: Revision(revision),
            cas: Cas(cas),
        },
    })
}

fn with_row_spelled(row: &[u8], t: Context) -> Option<Context> {
    let (word, rest) = cut(row, b' ');
    match word {
        b"tomb" => Some(with_row(t, Some(tombstone(rest)?), b"")),
        b"doc" => {
            let (fields, quoted) = cut(rest, b'\'');
            let (value, _) = cut(quoted, b'\'');
            Some(with_row(t, Some(document(fields)?), value))
        }
        _ if matches!(row, b"none") => Some(with_row(t, None, b"")),
        _ => None,
    }
}

fn with_free_spelled(free: &[u8], t: Context) -> Option<Context> {
    match free {
        b"yes" => Some(Context { free: true, ..t }),
        b"no" => Some(Context { free: false, ..t }),
        _ => None,
    }
}

// The setting after a line, where the line sets something.
pub(crate) fn changed(line: &[u8], t: Context) -> Option<Context> {
    let (word, rest) = cut(line, b' ');
    match word {
        b"row" => with_row_spelled(rest, t),
        b"free" => with_free_spelled(rest, t),
        b"clock" => {
            let [clock] = words::all::<1>(rest)?;
            let clock = low32(clock);
            Some(Context { clock, ..t })
        }
        b"size" => {
            let [size] = words::all::<1>(rest)?;
            let size = size as usize;
            Some(Context { size, ..t })
        }
        b"head" => {
            let [state, mode, vbucket, mark] = words::all::<4>(rest)?;
            let head = Head {
                state: low8(state),
                mode: low8(mode),
                vbucket: low16(vbucket),
                clock: 0,
                mark: Cas(mark),
            };
            Some(Context { head, ..t })
        }
        _ => None,
    }
}
