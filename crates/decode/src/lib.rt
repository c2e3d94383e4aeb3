// What a whole frame asks for: opcode and extras become a command, and the value is told from its extended meta.
#![tactic(auto)]

ghost use Rattle.std.specs.Prelude.{◌≡◌};
ghost use Rattle.decode.specs.Decode.{plain_of, counter_of, touch_of, meta_command, family_of, instruction_with, list_decoded, meta_decoded, decoded_by};

use commands::{Command, Counter, Instruction, Kind, Meta, MetaKind, Plain, Touching};
use document::Side;
use header::Header;
use shape::{Operation, ShapeCode};
use with_meta::WithMeta;

fn plain_of(kind: Kind, extras: &[u8]) -> Command
    ensures { result ≡ plain_of kind extras.now }
{
    let flags = octets::be32(extras, 0);
    let expiry = octets::be32(extras, 4);
    Command::Write(Plain {
        kind,
        flags,
        expiry,
    })
}

fn counter_of(up: bool, extras: &[u8]) -> Command
    ensures { result ≡ counter_of up extras.now }
{
    let delta = octets::be64(extras, 0);
    let initial = octets::be64(extras, 8);
    let expiry = octets::be32(extras, 16);
    Command::Count(Counter {
        up,
        delta,
        initial,
        expiry,
    })
}

fn touch_of(shown: bool, extras: &[u8]) -> Command
    ensures { result ≡ touch_of shown extras.now }
{
    let expiry = octets::be32(extras, 0);
    Command::Touch(Touching { expiry, shown })
}

fn meta_of(kind: MetaKind, w: WithMeta) -> Command
    ensures { result ≡ meta_command kind w }
{
    let numbers = w.numbers;
    Command::WithMeta(Meta {
        kind,
        numbers,
        force: w.options % 2 == 1,
        last: w.options / 2 % 2 == 1,
        regenerate: w.options / 4 % 2 == 1,
        skip: w.options / 8 % 2 == 1,
    })
}

// How an operation's command is told: at once, or from extras of one of five kinds.
#[derive(Clone, Copy)]
enum Family {
    Bare(Command),
    Stored(Kind),
    Counted(bool),
    Carried(MetaKind),
    Listed,
    Touched(bool),
}

fn family_of(operation: Operation) -> Family
    ensures { result ≡ family_of operation }
{
    match operation {
        Operation::Unknown => Family::Bare(Command::Noop),
        Operation::NotBuilt => Family::Bare(Command::Noop),
        Operation::Get => Family::Bare(Command::Get(false)),
        Operation::GetKey => Family::Bare(Command::Get(true)),
        Operation::Set => Family::Stored(Kind::Set),
        Operation::Add => Family::Stored(Kind::Add),
        Operation::Replace => Family::Stored(Kind::Replace),
        Operation::Delete => Family::Bare(Command::Delete),
        Operation::Increment => Family::Counted(true),
        Operation::Decrement => Family::Counted(false),
        Operation::Noop => Family::Bare(Command::Noop),
        Operation::Version => Family::Bare(Command::Version),
        Operation::SetWithMeta => Family::Carried(MetaKind::Set),
        Operation::AddWithMeta => Family::Carried(MetaKind::Add),
        Operation::DeleteWithMeta => Family::Carried(MetaKind::Delete),
        Operation::GetKeys => Family::Listed,
        Operation::Append => Family::Bare(Command::Join(Side::Back)),
        Operation::Prepend => Family::Bare(Command::Join(Side::Front)),
        Operation::Touch => Family::Touched(false),
        Operation::GetAndTouch => Family::Touched(true),
    }
}

fn instruction_with<S: ShapeCode>(
    shape: S,
    h: Header,
    command: Command,
    size: usize,
    unsupported: bool,
) -> Instruction
    ensures { result ≡ instruction_with (S.told shape) h command size unsupported }
{
    let cas = h.cas;
    Instruction {
        vbucket: h.vbucket,
        cas,
        quiet: shape.is_quiet(),
        size,
        unsupported,
        command,
    }
}

// A listing, unless its count is 0.
fn list_decoded<S: ShapeCode>(
    shape: S,
    h: Header,
    extras: &[u8],
    size: usize,
) -> Option<Instruction>
    ensures { result ≡ list_decoded (S.told shape) h extras.now size }
{
    let count = rules::count_of(extras);
    if count == 0 {
        return None;
    }
    Some(instruction_with(shape, h, Command::GetKeys(count), size, false))
}

// A with-meta command, unless its fields break the rules. forcing: option 0x01 is taken.
fn meta_decoded<S: ShapeCode>(
    forcing: bool,
    shape: S,
    h: Header,
    kind: MetaKind,
    extras: &[u8],
    value: &[u8],
) -> Option<Instruction>
    ensures { result ≡ meta_decoded forcing (S.told shape) h kind extras.now value.now }
{
    let w = with_meta::read(extras);
    if !with_meta::with_meta_ok(shape.stored(), w, value) {
        return None;
    }
    Some(instruction_with(
        shape,
        h,
        meta_of(kind, w),
        value.len().saturating_sub(usize::from(w.section)),
        rules::is_forced(w) & !forcing,
    ))
}

// Field rules and command by one reading of the extras, from a frame's header, its opcode's shape, its extras and what
// follows its key. Each kind of command is made at one place, so that the compiler puts it there, and its extras are read
// only once the kind is known: each read past their end is a slow one.
pub fn decoded_by<S: ShapeCode>(
    forcing: bool,
    shape: S,
    h: Header,
    extras: &[u8],
    value: &[u8],
) -> Option<Instruction>
    ensures { result ≡ decoded_by forcing (S.told shape) h extras.now value.now }
{
    let size = value.len();
    match family_of(shape.operation()) {
        Family::Bare(c) => Some(instruction_with(shape, h, c, size, false)),
        Family::Stored(k) => Some(instruction_with(shape, h, plain_of(k, extras), size, false)),
        Family::Counted(u) => Some(instruction_with(shape, h, counter_of(u, extras), size, false)),
        Family::Carried(k) => meta_decoded(forcing, shape, h, k, extras, value),
        Family::Listed => list_decoded(shape, h, extras, size),
        Family::Touched(s) => Some(instruction_with(shape, h, touch_of(s, extras), size, false)),
    }
}
