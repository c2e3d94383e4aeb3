// What a request gets: the statuses other than success, and the outcomes of a call that serves nothing. Document 01 gives
// each a number.
#![tactic(auto)]

ghost use Rattle.std.specs.Prelude.{◌≡◌};
ghost use Rattle.outcome.specs.Outcome.{status_number, status_of, refusal_number, refusal_needed};

// A status other than success, which is 0x00.
#[derive(Clone, Copy, Debug, PartialEq, Eq)]
pub enum Status {
    // no live document with this key
    NotFound = 0x01,
    // another CAS, a live document under Add, a with-meta write that loses
    Exists = 0x02,
    // a value of over 1,024 bytes, alone or joined
    TooLarge = 0x03,
    // a request against its command's form or field rules
    Invalid = 0x04,
    // no live document to append or prepend to
    NotStored = 0x05,
    // a counter's value is no decimal number under 2^64
    NotNumeric = 0x06,
    // another vbucket, or a table that isn't active
    NotMyVbucket = 0x07,
    UnknownCommand = 0x81,
    // the key has no row and no row is free
    OutOfMemory = 0x82,
    // a command of the protocol that this store leaves out, or option 0x01
    NotSupported = 0x83,
    // a CAS or revision that must grow is at 2^64 - 1
    Internal = 0x84,
}

impl Status {
    pub fn number(self) -> u8
        ensures { result ≡ status_number self }
    {
        self as u8
    }
}

// The status in a reply: 0x00 where nothing went wrong.
pub fn status_of(answer: Result<(), Status>) -> u8
    ensures { result ≡ status_of answer }
{
    match answer {
        Ok(()) => 0,
        Err(status) => status.number(),
    }
}

// Why a call served nothing, consumed nothing and changed nothing. Outcome 0 is a call that served.
#[derive(Clone, Copy, Debug, PartialEq, Eq)]
pub enum Refusal {
    // the frame isn't all there yet: it needs so many bytes, counted from its start
    Incomplete(usize),
    // no request frame: its first byte isn't 0x80
    BadMagic,
    // a body of over 1,400 bytes
    TooLong,
    // too little room for the reply or the frame
    NoRoom,
    // the memory is no sound table
    Damaged,
}

impl Refusal {
    pub fn number(self) -> u8
        ensures { result ≡ refusal_number self }
    {
        match self {
            Refusal::Incomplete(_) => 1,
            Refusal::BadMagic => 2,
            Refusal::TooLong => 3,
            Refusal::NoRoom => 4,
            Refusal::Damaged => 5,
        }
    }

    // The bytes that an incomplete frame needs; 0 for every other refusal.
    pub fn needed(self) -> usize
        ensures { result ≡ refusal_needed self }
    {
        match self {
            Refusal::Incomplete(needed) => needed,
            _ => 0,
        }
    }
}
