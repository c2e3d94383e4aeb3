// What a request asks for, and the status it gets: decided by value from the table's head, the row of the request's key and
// whether a row is free. The tests of each family of commands are in read_status, write_status and meta_status; effects has what
// is done where none fails.
#![tactic(auto)]

pub mod status;

ghost use Rattle.std.specs.Prelude.{◌≡◌, not, ◌||◌, eqb, ltb};
ghost use Rattle.document.specs.Stored.{live, has_row, numbers_of};
ghost use Rattle.commands.specs.Writes.{is_mutation};

use document::{Head, Metadata, Side};
use numbers::{Cas, Numbers};

#[derive(Clone, Copy, Debug, PartialEq, Eq)]
pub enum Kind {
    Set,
    Add,
    Replace,
}

// Set, Add and Replace.
#[derive(Clone, Copy)]
pub struct Plain {
    pub kind: Kind,
    pub flags: u32,
    pub expiry: u32,
}

// Increment (up) and Decrement.
#[derive(Clone, Copy)]
pub struct Counter {
    pub up: bool,
    pub delta: u64,
    pub initial: u64,
    pub expiry: u32,
}

// Touch, and Get-and-touch, whose reply shows the document.
#[derive(Clone, Copy)]
pub struct Touching {
    pub expiry: u32,
    pub shown: bool,
}

#[derive(Clone, Copy, Debug, PartialEq, Eq)]
pub enum MetaKind {
    Set,
    Add,
    Delete,
}

// A with-meta write and its options: force 0x01, last 0x02, regenerate 0x04, skip 0x08.
#[derive(Clone, Copy)]
pub struct Meta {
    pub kind: MetaKind,
    pub numbers: Numbers,
    pub force: bool,
    pub last: bool,
    pub regenerate: bool,
    pub skip: bool,
}

#[derive(Clone, Copy)]
pub enum Command {
    // whether the reply carries the key
    Get(bool),
    Write(Plain),
    Delete,
    Count(Counter),
    Noop,
    Version,
    WithMeta(Meta),
    // how many keys at most
    GetKeys(u32),
    // Append at the back, Prepend at the front
    Join(Side),
    Touch(Touching),
}

// A request whose form is right, its key and value aside.
#[derive(Clone, Copy)]
pub struct Instruction {
    pub vbucket: u16,
    pub cas: Cas,
    pub quiet: bool,
    // the value's bytes, extended meta not counted
    pub size: usize,
    // it asks for what is no longer served: 0x83
    pub unsupported: bool,
    pub command: Command,
}

// What a decision sees beside the request: the table's head, the key's row, whether a row is free, the clock, and of the stored
// value the number that it says and its size.
#[derive(Clone, Copy)]
pub struct Context {
    pub head: Head,
    pub row: Option<Metadata>,
    pub free: bool,
    pub clock: u32,
    pub number: Option<u64>,
    pub size: usize,
}

// What each status asks, in 01's order with those of orders 4 and 9: 0x04, 0x83, 0x03, 0x07, 0x05, 0x01, 0x02, 0x03 of a joined
// value, 0x06, 0x84, 0x82.
#[derive(Clone, Copy)]
pub struct Tests {
    pub fault: bool,
    pub unsupported: bool,
    pub long: bool,
    pub elsewhere: bool,
    pub unstored: bool,
    pub missing: bool,
    pub conflict: bool,
    pub joined: bool,
    pub number: bool,
    pub spent: bool,
    pub full: bool,
}

// No test fails: what a command has no test of, it leaves at this.
pub const PASSING: Tests = Tests {
    fault: false,
    unsupported: false,
    long: false,
    elsewhere: false,
    unstored: false,
    missing: false,
    conflict: false,
    joined: false,
    number: false,
    spent: false,
    full: false,
};

impl Context {
    // Whether the key has a live document.
    pub fn is_live(self) -> bool
        ensures { result ≡ live self.row self.clock }
    {
        document::live(self.row, self.clock)
    }

    // The numbers of the key's row, all 0 without one.
    pub fn stored(self) -> Numbers
        ensures { result ≡ numbers_of self.row }
    {
        document::numbers_of(self.row)
    }

    // Whether a number that a plain write raises is at its end: the row's revision, or the mark.
    pub fn is_spent(self) -> bool
        ensures { result ≡ (eqb (numbers_of self.row).revision.0 0xffffffffffffffff || eqb self.head.mark.0 0xffffffffffffffff) }
    {
        (self.stored().revision.0 == u64::MAX) | (self.head.mark.0 == u64::MAX)
    }

    // Whether the key has a row or may have a free one.
    pub fn has_room(self) -> bool
        ensures { result ≡ (has_row self.row || self.free) }
    {
        self.row.is_some() | self.free
    }
}

impl Instruction {
    // Whether the header CAS guards a write.
    pub fn is_guarded(self) -> bool
        ensures { result ≡ not (eqb self.cas.0 0) }
    {
        self.cas.0 != 0
    }

    // Whether the value is over 1,024 bytes.
    pub fn is_long(self) -> bool
        ensures { result ≡ ltb 1024 self.size }
    {
        1024 < self.size
    }
}

// Whether a command writes.
pub fn writes(c: Command) -> bool
    ensures { result ≡ is_mutation c }
{
    !matches!(
        c,
        Command::Get(_) | Command::Noop | Command::Version | Command::GetKeys(_)
    )
}
