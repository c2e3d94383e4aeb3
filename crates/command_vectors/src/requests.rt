// The request that a line describes.
use crate::words;
use commands::{Command, Counter, Instruction, Kind, Meta, MetaKind, Plain, Touching};
use document::Side;
use numbers::{Cas, Numbers, Revision};
use vector_text::numbers::{low16, low32};
use vector_text::parts::cut;

// A request that isn't quiet, with what its header says.
fn request(vbucket: u64, cas: u64, size: u64, command: Command) -> Instruction {
    Instruction {
        vbucket: low16(vbucket),
        cas: Cas(cas),
        quiet: false,
        size: size as usize,
        unsupported: false,
        command,
    }
}

fn bare(fields: &[u8], command: Command) -> Option<Instruction> {
    let [vbucket, cas] = words::all::<2>(fields)?;
    Some(request(vbucket, cas, 0, command))
}

fn write(fields: &[u8], kind: Kind) -> Option<Instruction> {
    let [vbucket, cas, flags, expiry, size] = words::all::<5>(fields)?;
    let plain = Plain {
        kind,
        flags: low32(flags),
        expiry: low32(expiry),
    };
    Some(request(vbucket, cas, size, Command::Write(plain)))
}

fn count(fields: &[u8], up: bool) -> Option<Instruction> {
    let [vbucket, cas, delta, initial, expiry] = words::all::<5>(fields)?;
    let counter = Counter {
        up,
        delta,
        initial,
        expiry: low32(expiry),
    };
    Some(request(vbucket, cas, 0, Command::Count(counter)))
}

fn join(fields: &[u8], side: Side) -> Option<Instruction> {
    let [vbucket, cas, size] = words::all::<3>(fields)?;
    Some(request(vbucket, cas, size, Command::Join(side)))
}

fn touch(fields: &[u8], shown: bool) -> Option<Instruction> {
    let [vbucket, cas, expiry] = words::all::<3>(fields)?;
    let expiry = low32(expiry);
    Some(request(vbucket, cas, 0, Command::Touch(Touching { expiry, shown })))
}

fn keys(fields: &[u8]) -> Option<Instruction> {
    let [vbucket, cas, most] = words::all::<3>(fields)?;
    Some(request(vbucket, cas, 0, Command::GetKeys(low32(most))))
}

fn is_set(options: u64, bit: u64) -> bool {
    options & bit != 0
}

// Option 0x01, force, is retired.
fn with_meta(fields: &[u8], kind: MetaKind) -> Option<Instruction> {
    let [
        vbucket,
        cas,
        flags,
        expiry,
        revision,
        copy_cas,
        options,
        size,
    ] = words::all::<8>(fields)?;
    let force = is_set(options, 0x01);
    let meta = Meta {
        kind,
        numbers: Numbers {
            flags: low32(flags),
            expiry: low32(expiry),
            revision: Revision(revision),
            cas: Cas(copy_cas),
        },
        force,
        last: is_set(options, 0x02),
        regenerate: is_set(options, 0x04),
        skip: is_set(options, 0x08),
    };
    Some(Instruction {
        unsupported: force,
        ..request(vbucket, cas, size, Command::WithMeta(meta))
    })
}

fn read_plain(line: &[u8]) -> Option<Instruction> {
    let (word, fields) = cut(line, b' ');
    match word {
        b"get" => bare(fields, Command::Get(false)),
        b"getk" => bare(fields, Command::Get(true)),
        b"delete" => bare(fields, Command::Delete),
        b"noop" => bare(fields, Command::Noop),
        b"version" => bare(fields, Command::Version),
        b"set" => write(fields, Kind::Set),
        b"add" => write(fields, Kind::Add),
        b"replace" => write(fields, Kind::Replace),
        b"incr" => count(fields, true),
        b"decr" => count(fields, false),
        b"append" => join(fields, Side::Back),
        b"prepend" => join(fields, Side::Front),
        b"touch" => touch(fields, false),
        b"gat" => touch(fields, true),
        b"keys" => keys(fields),
        b"setm" => with_meta(fields, MetaKind::Set),
        b"addm" => with_meta(fields, MetaKind::Add),
        b"delm" => with_meta(fields, MetaKind::Delete),
        _ => None,
    }
}

pub(crate) fn read(line: &[u8]) -> Option<Instruction> {
    match cut(line, b' ') {
        (b"quiet", request) => Some(Instruction {
            quiet: true,
            ..read_plain(request)?
        }),
        _ => read_plain(line),
    }
}
