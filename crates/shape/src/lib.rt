// Every opcode's shape: which command it is, what stands between the header and the end of the body, and whether the
// command is built.
#![tactic(auto)]

ghost use Rattle.std.specs.Prelude.{◌≡◌, not, eqb};
ghost use Rattle.outcome.specs.Outcome.{status_number};
ghost use Rattle.shape.specs.Shapes.{Shape as ToldShape, key_of, form_told, shape_told, numbers_told, refused, shape_by, shape_of};
ghost use Rattle.with_meta.specs.FieldRules.{stored_of};
ghost use Rattle.shape.specs.Table.{numbered};

use outcome::Status;
use with_meta::{MetaCode, Stored};

// The command that an opcode is, its quiet form aside.
#[derive(Clone, Copy)]
pub enum Operation {
    Unknown,
    NotBuilt,
    Get,
    GetKey,
    Set,
    Add,
    Replace,
    Delete,
    Increment,
    Decrement,
    Noop,
    Version,
    SetWithMeta,
    AddWithMeta,
    DeleteWithMeta,
    GetKeys,
    Append,
    Prepend,
    Touch,
    GetAndTouch,
}

// What the extras are, and so which sizes they may have.
#[derive(Clone, Copy)]
pub enum Extras {
    Nothing,
    FlagsExpiry,
    Counter,
    Meta,
    Count,
    Expiry,
}

// Whether a request has a key.
#[derive(Clone, Copy, Debug, PartialEq, Eq)]
pub enum Key {
    Forbidden,
    Needed,
    Optional,
}

// What stands between the header and the end of the body.
#[derive(Clone, Copy)]
pub struct Form {
    pub extras: Extras,
    pub key: Key,
    pub takes_value: bool,
    // of a with-meta command: what it stores
    pub meta: Option<Stored>,
}

const BARE: Form = Form {
    extras: Extras::Nothing,
    key: Key::Forbidden,
    takes_value: false,
    meta: None,
};

const KEY_ONLY: Form = Form {
    key: Key::Needed,
    ..BARE
};

const PLAIN_WRITE: Form = Form {
    extras: Extras::FlagsExpiry,
    takes_value: true,
    ..KEY_ONLY
};

const COUNTER: Form = Form {
    extras: Extras::Counter,
    ..KEY_ONLY
};

const META_WRITE: Form = Form {
    extras: Extras::Meta,
    takes_value: true,
    meta: Some(Stored::Document),
    ..KEY_ONLY
};

const META_DELETE: Form = Form {
    meta: Some(Stored::Tombstone),
    ..META_WRITE
};

const KEY_LISTING: Form = Form {
    extras: Extras::Count,
    key: Key::Optional,
    ..BARE
};

const JOINING: Form = Form {
    takes_value: true,
    ..KEY_ONLY
};

const TOUCHING: Form = Form {
    extras: Extras::Expiry,
    ..KEY_ONLY
};

#[derive(Clone, Copy)]
pub struct Shape {
    // where the command isn't built: the status that its opcode gets, whatever follows it
    pub built: Result<(), Status>,
    pub operation: Operation,
    pub form: Form,
    pub quiet: bool,
}

// The numbers of a shape.
#[derive(Clone, Copy)]
pub struct ShapeNumbers {
    // 0 where the command is built, 0x83 where it is not, 0x81 where there is no such command
    pub status: u8,
    pub operation: Operation,
    pub extras: Extras,
    // 0: forbidden, 1: needed, 2: optional
    pub key: u8,
    // 0: forbidden, 1: any
    pub value: u8,
    // with-meta: 1 has a value before the extended meta, 2 has none; 0: another command
    pub meta: u8,
    pub quiet: bool,
}

// What tells an opcode's shape: a shape, or the numbers of one, of which any may stand here.
pub trait ShapeCode: Copy {
    ghost told: { Self → ToldShape };

    fn operation(self) -> Operation
        ensures { result ≡ (told self).operation };

    fn extras(self) -> Extras
        ensures { result ≡ (told self).extras };

    // None where the number is no key's, by which no length is right.
    fn key(self) -> Option<Key>
        ensures { result ≡ key_of (told self).key };

    fn takes_value(self) -> bool
        ensures { result ≡ eqb (told self).value 1 };

    // Whether it is a with-meta command's.
    fn has_meta(self) -> bool
        ensures { result ≡ not (eqb (told self).meta 0) };

    fn stored(self) -> Option<Stored>
        ensures { result ≡ stored_of (told self).meta };

    fn is_quiet(self) -> bool
        ensures { result ≡ (told self).quiet };
}

impl ShapeCode for Shape {
    ghost told = { shape_told };

    fn operation(self) -> Operation {
        self.operation
    }

    fn extras(self) -> Extras {
        self.form.extras
    }

    fn key(self) -> Option<Key> {
        Some(self.form.key)
    }

    fn takes_value(self) -> bool {
        self.form.takes_value
    }

    fn has_meta(self) -> bool {
        self.form.meta.is_some()
    }

    fn stored(self) -> Option<Stored> {
        self.form.meta
    }

    fn is_quiet(self) -> bool {
        self.quiet
    }
}

impl ShapeCode for ShapeNumbers {
    ghost told = { numbers_told };

    fn operation(self) -> Operation {
        self.operation
    }

    fn extras(self) -> Extras {
        self.extras
    }

    fn key(self) -> Option<Key> {
        match self.key {
            0 => Some(Key::Forbidden),
            1 => Some(Key::Needed),
            2 => Some(Key::Optional),
            _ => None,
        }
    }

    fn takes_value(self) -> bool {
        self.value == 1
    }

    fn has_meta(self) -> bool {
        self.meta != 0
    }

    fn stored(self) -> Option<Stored> {
        self.meta.stored()
    }

    fn is_quiet(self) -> bool {
        self.quiet
    }
}

// A table, since document 01 says so: "One fixed table of 256 entries gives every opcode's shape."
// Entry n: the number of opcode n's operation (in `shape_by`), times two, plus one for its quiet form. A table of bytes is
// small: where a shape is asked for, the machine lays it out anew.
const OPERATIONS: [u8; 256] = [
    4, // 00 Get
    8, // 01 Set
    10, // 02 Add
    12, // 03 Replace
    14, // 04 Delete
    16, // 05 Increment
    18, // 06 Decrement
    2, // 07
    2, // 08
    5, // 09 GetQ
    20, // 0a Noop
    22, // 0b Version
    6, // 0c GetK
    7, // 0d GetKQ
    32, // 0e Append
    34, // 0f Prepend
    2, // 10
    9, // 11 SetQ
    11, // 12 AddQ
    13, // 13 ReplaceQ
    15, // 14 DeleteQ
    17, // 15 IncrementQ
    19, // 16 DecrementQ
    2, // 17
    2, // 18
    33, // 19 AppendQ
    35, // 1a PrependQ
    0, // 1b
    36, // 1c Touch
    38, // 1d GetAndTouch
    0, // 1e
    0, // 1f
    0, // 20
    0, // 21
    0, // 22
    0, // 23
    0, // 24
    0, // 25
    0, // 26
    0, // 27
    0, // 28
    0, // 29
    0, // 2a
    0, // 2b
    0, // 2c
    0, // 2d
    0, // 2e
    0, // 2f
    0, // 30
    0, // 31
    0, // 32
    0, // 33
    0, // 34
    0, // 35
    0, // 36
    0, // 37
    0, // 38
    0, // 39
    0, // 3a
    0, // 3b
    0, // 3c
    0, // 3d
    0, // 3e
    0, // 3f
    0, // 40
    0, // 41
    0, // 42
    0, // 43
    0, // 44
    0, // 45
    0, // 46
    0, // 47
    0, // 48
    0, // 49
    0, // 4a
    0, // 4b
    0, // 4c
    0, // 4d
    0, // 4e
    0, // 4f
    0, // 50
    0, // 51
    0, // 52
    0, // 53
    0, // 54
    0, // 55
    0, // 56
    0, // 57
    0, // 58
    0, // 59
    0, // 5a
    0, // 5b
    0, // 5c
    0, // 5d
    0, // 5e
    0, // 5f
    0, // 60
    0, // 61
    0, // 62
    0, // 63
    0, // 64
    0, // 65
    0, // 66
    0, // 67
    0, // 68
    0, // 69
    0, // 6a
    0, // 6b
    0, // 6c
    0, // 6d
    0, // 6e
    0, // 6f
    0, // 70
    0, // 71
    0, // 72
    0, // 73
    0, // 74
    0, // 75
    0, // 76
    0, // 77
    0, // 78
    0, // 79
    0, // 7a
    0, // 7b
    0, // 7c
    0, // 7d
    0, // 7e
    0, // 7f
    0, // 80
    0, // 81
    0, // 82
    0, // 83
    0, // 84
    0, // 85
    0, // 86
    0, // 87
    0, // 88
    0, // 89
    0, // 8a
    0, // 8b
    0, // 8c
    0, // 8d
    0, // 8e
    0, // 8f
    0, // 90
    0, // 91
    0, // 92
    0, // 93
    0, // 94
    0, // 95
    0, // 96
    0, // 97
    0, // 98
    0, // 99
    0, // 9a
    0, // 9b
    0, // 9c
    0, // 9d
    0, // 9e
    0, // 9f
    0, // a0
    0, // a1
    24, // a2 SetWithMeta
    25, // a3 SetWithMetaQ
    26, // a4 AddWithMeta
    27, // a5 AddWithMetaQ
    0, // a6
    0, // a7
    28, // a8 DeleteWithMeta
    29, // a9 DeleteWithMetaQ
    0, // aa
    0, // ab
    0, // ac
    0, // ad
    0, // ae
    0, // af
    0, // b0
    0, // b1
    0, // b2
    0, // b3
    0, // b4
    0, // b5
    0, // b6
    0, // b7
    30, // b8 GetKeys
    0, // b9
    0, // ba
    0, // bb
    0, // bc
    0, // bd
    0, // be
    0, // bf
    0, // c0
    0, // c1
    0, // c2
    0, // c3
    0, // c4
    0, // c5
    0, // c6
    0, // c7
    0, // c8
    0, // c9
    0, // ca
    0, // cb
    0, // cc
    0, // cd
    0, // ce
    0, // cf
    0, // d0
    0, // d1
    0, // d2
    0, // d3
    0, // d4
    0, // d5
    0, // d6
    0, // d7
    0, // d8
    0, // d9
    0, // da
    0, // db
    0, // dc
    0, // dd
    0, // de
    0, // df
    0, // e0
    0, // e1
    0, // e2
    0, // e3
    0, // e4
    0, // e5
    0, // e6
    0, // e7
    0, // e8
    0, // e9
    0, // ea
    0, // eb
    0, // ec
    0, // ed
    0, // ee
    0, // ef
    0, // f0
    0, // f1
    0, // f2
    0, // f3
    0, // f4
    0, // f5
    0, // f6
    0, // f7
    0, // f8
    0, // f9
    0, // fa
    0, // fb
    0, // fc
    0, // fd
    0, // fe
    0, // ff
];

fn built(operation: Operation, form: Form, quiet: bool) -> Shape
    ensures { shape_told result ≡ shape_by operation (form_told form) quiet }
{
    Shape {
        built: Ok(()),
        operation,
        form,
        quiet,
    }
}

fn refused(operation: Operation, status: Status) -> Shape
    ensures { shape_told result ≡ refused operation (status_number status) }
{
    Shape {
        built: Err(status),
        operation,
        form: BARE,
        quiet: false,
    }
}

// The shape of the operation with this number.
#[tactic(auto, unfolding(crate::specs::Table::numbered, crate::specs::Table::operations, crate::specs::Shapes::commands))]
fn shape_by(number: u8, quiet: bool) -> Shape
    ensures { shape_told result ≡ numbered number quiet }
{
    match number {
        1 => refused(Operation::NotBuilt, Status::NotSupported),
        2 => built(Operation::Get, KEY_ONLY, quiet),
        3 => built(Operation::GetKey, KEY_ONLY, quiet),
        4 => built(Operation::Set, PLAIN_WRITE, quiet),
        5 => built(Operation::Add, PLAIN_WRITE, quiet),
        6 => built(Operation::Replace, PLAIN_WRITE, quiet),
        7 => built(Operation::Delete, KEY_ONLY, quiet),
        8 => built(Operation::Increment, COUNTER, quiet),
        9 => built(Operation::Decrement, COUNTER, quiet),
        10 => built(Operation::Noop, BARE, quiet),
        11 => built(Operation::Version, BARE, quiet),
        12 => built(Operation::SetWithMeta, META_WRITE, quiet),
        13 => built(Operation::AddWithMeta, META_WRITE, quiet),
        14 => built(Operation::DeleteWithMeta, META_DELETE, quiet),
        15 => built(Operation::GetKeys, KEY_LISTING, quiet),
        16 => built(Operation::Append, JOINING, quiet),
        17 => built(Operation::Prepend, JOINING, quiet),
        18 => built(Operation::Touch, TOUCHING, quiet),
        19 => built(Operation::GetAndTouch, TOUCHING, quiet),
        _ => refused(Operation::Unknown, Status::UnknownCommand),
    }
}

pub fn shape_of(opcode: u8) -> Shape
    ensures { shape_told result ≡ shape_of opcode }
{
    let entry = OPERATIONS[opcode as usize];
    shape_by(entry / 2, entry % 2 == 1)
}
