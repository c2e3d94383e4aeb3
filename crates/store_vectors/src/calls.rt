// The answers to the owner's calls.
use crate::show;
use crate::store::{FILL, Store};
use document::{Head, Metadata};
use engine::Place;
use numbers::{Cas, Numbers};
use owning::{ActivateError, Document, ReadError};
use vector_text::bytes;
use vector_text::show::{decimal, octets, text};

// Whether memory is a table's head, and zeros behind it.
fn is_fresh(s: &[u8], state: u8, mode: u8, vbucket: u16) -> bool {
    octets::byte(s, 0) == state
        && octets::byte(s, 1) == mode
        && octets::be16(s, 2) == vbucket
        && compare::all_zero(octets::rest(s, 4))
}

fn show_memory(s: &[u8], state: u8, mode: u8, vbucket: u16) {
    if bytes::are_all(s, FILL) {
        text(b" unchanged");
    } else if is_fresh(s, state, mode, vbucket) {
        text(b" fresh");
    } else {
        text(b" CHANGED");
    }
}

fn show_place(p: Place) {
    match p {
        Place::Over(i) | Place::Into(i) => decimal(b"place ", i as u64),
        Place::Full => text(b"no place"),
    }
}

fn show_live(s: &[u8], d: Document) {
    show::numbers(d.numbers);
    show::left(d.left);
    decimal(b" value=", d.at as u64);
    decimal(b"+", d.len as u64);
    text(b" ");
    octets(octets::part(s, d.at, d.len));
}

impl Store<'_> {
    pub(crate) fn make(&mut self, rows: usize, state: u8, mode: u8, vbucket: u16) {
        self.table.fill(FILL);
        match owner::make(self.table, rows, state, mode, vbucket) {
            Ok(()) => text(b"outcome 0"),
            Err(_) => text(b"outcome 5"),
        }
        show_memory(self.table, state, mode, vbucket);
    }

    pub(crate) fn sound(&self) {
        if table::is_sound(self.config, self.table) {
            text(b"sound");
        } else {
            text(b"damaged");
        }
    }

    pub(crate) fn purge(&mut self, clock: u32, bound: Cas) {
        match owner::purge(self.config, self.table, clock, bound) {
            Ok(freed) => decimal(b"freed ", freed as u64),
            Err(_) => text(b"outcome 5"),
        }
    }

    pub(crate) fn activate(&mut self) {
        match owner::activate(self.config, self.table) {
            Ok(()) => text(b"outcome 0"),
            Err(ActivateError::Damaged) => text(b"outcome 5"),
            Err(ActivateError::Dead) => text(b"status 07"),
        }
    }

    pub(crate) fn poke(&mut self, at: usize, bytes: &[u8]) {
        octet_writer::put_bytes(self.table, at, bytes);
        text(b"poked");
    }

    // Puts the head with another mark.
    fn put_mark(&mut self, mark: Cas) {
        let head = rows::head_of(self.table);
        row_writer::put_head(self.table, Head { mark, ..head });
    }

    // Stores an entry at its key's place, and the mark.
    pub(crate) fn store(
        &mut self,
        tomb: bool,
        numbers: Numbers,
        mark: Cas,
        key: &[u8],
        value: &[u8],
    ) {
        let found = table::find(self.config, self.table, key, true);
        show_place(found.place);
        if !table::has_place(found.place) {
            return;
        }
        let given = Metadata { tomb, numbers };
        table::store(self.config, self.table, found, key, given, value);
        self.put_mark(mark);
    }

    pub(crate) fn read(&self, clock: u32, key: &[u8]) {
        match owner::read(self.config, self.table, clock, key) {
            Ok(document) => show_live(self.table, document),
            Err(ReadError::Damaged) => text(b"outcome 5"),
            Err(ReadError::Missing) => text(b"status 0x01"),
            Err(ReadError::Expired(seconds)) => {
                text(b"status 0x01");
                show::seconds(seconds);
            }
        }
    }
}
