// The table that lines drive.
use crate::show;
use engine::Config;
use numbers::{Cas, Numbers, Revision};
use tally::Tally;
use vector_text::bytes::Times;
use vector_text::numbers::{low8, low16, low32};
use vector_text::parts::cut;
use vector_text::show::{decimal, octets, text};
use vector_text::{bytes, parts};

// What the memory holds before a table is made in it, and the reply area before a frame is served.
pub(crate) const FILL: u8 = 0xee;

// A table's memory with the engine that keeps its rows, the reply area, and the counts of what is served.
#[derive(Drop)]
pub(crate) struct Store<'a> {
    pub(crate) config: Config,
    pub(crate) table: &'a mut [u8],
    pub(crate) replies: &'a mut [u8],
    pub(crate) tally: Tally,
}

pub(crate) fn config_named(engine: &[u8]) -> Option<Config> {
    match engine {
        b"plain" => Some(engine::config_for(true)),
        b"ordered" => Some(engine::config_for(false)),
        _ => None,
    }
}

// The key and the value that a text spells, a slash between the two.
fn entry<'a>(space: &'a mut [u8], spelled: &[u8]) -> Option<(&'a [u8], &'a [u8])> {
    let (key, value) = cut(spelled, b'/');
    let middle = bytes::put(space, 0, key, Times::Word)?;
    let end = bytes::put(space, middle, value, Times::Word)?;
    Some((&space[..middle], &space[middle..end]))
}

// The bytes that a text spells, put at the start of a space that is longer than they are.
fn bytes_spelled<'a>(space: &'a mut [u8], spelled: &[u8]) -> Option<&'a [u8]> {
    let end = bytes::put(space, 0, spelled, Times::Word)?;
    Some(&space[..end])
}

// So many decimal numbers, and nothing else.
pub(crate) fn decimals<const N: usize>(s: &[u8]) -> Option<[u64; N]> {
    let mut values = [0u64; N];
    let mut words = parts::words(s);
    for value in values.iter_mut() {
        *value = digits::parse(words.next()?)?;
    }
    if words.next().is_some() {
        return None;
    }
    Some(values)
}

impl Store<'_> {
    // Answers a line: what stands behind its word, the numbers before the first slash there, and the bytes behind it, for which the
    // space is. There is no answer where the line can't be understood.
    pub(crate) fn answer(
        &mut self,
        word: &[u8],
        rest: &[u8],
        given: &[u8],
        spelled: &[u8],
        space: &mut [u8],
    ) -> Option<()> {
        match word {
            b"engine" => self.answer_engine(rest),
            b"room" => self.answer_room(given),
            b"tally" => self.answer_tally(given),
            b"serve" | b"run" => self.answer_frames(word, given, spelled, space),
            b"poke" | b"store" | b"read" => {
                self.answer_call_of_bytes(word, given, spelled, space)?;
                show::table(self.table);
                Some(())
            }
            _ => {
                self.answer_call(word, given)?;
                show::table(self.table);
                Some(())
            }
        }
    }

    fn answer_engine(&self, name: &[u8]) -> Option<()> {
        config_named(name)?;
        text(b"engine ");
        text(name);
        Some(())
    }

    fn answer_room(&self, given: &[u8]) -> Option<()> {
        let [_] = decimals::<1>(given)?;
        decimal(b"room ", self.replies.len() as u64);
        Some(())
    }

    fn answer_tally(&self, given: &[u8]) -> Option<()> {
        if !given.is_empty() {
            let [_, _, _] = decimals::<3>(given)?;
        }
        show::tally(self.tally);
        Some(())
    }

    // The owner's calls that need no more than their numbers.
    fn answer_call(&mut self, word: &[u8], given: &[u8]) -> Option<()> {
        match word {
            b"size" => {
                let [rows] = decimals::<1>(given)?;
                decimal(b"size ", owner::size(rows as usize) as u64);
            }
            b"make" => {
                let [_, rows, state, mode, vbucket] = decimals::<5>(given)?;
                self.make(rows as usize, low8(state), low8(mode), low16(vbucket));
            }
            b"lend" => {
                let [_] = decimals::<1>(given)?;
                decimal(b"lent ", self.table.len() as u64);
            }
            b"dump" => {
                let [at, n] = decimals::<2>(given)?;
                octets(octets::part(self.table, at as usize, n as usize));
            }
            b"sound" if given.is_empty() => self.sound(),
            b"purge" => {
                let [clock, bound] = decimals::<2>(given)?;
                self.purge(low32(clock), Cas(bound));
            }
            b"activate" if given.is_empty() => self.activate(),
            _ => return None,
        }
        Some(())
    }

    // The owner's calls that take bytes.
    fn answer_call_of_bytes(
        &mut self,
        word: &[u8],
        given: &[u8],
        spelled: &[u8],
        space: &mut [u8],
    ) -> Option<()> {
        match word {
            b"poke" => {
                let [at] = decimals::<1>(given)?;
                match bytes_spelled(space, spelled) {
                    Some(bytes) => self.poke(at as usize, bytes),
                    None => text(b"what?"),
                }
            }
            b"store" => {
                let [tomb, flags, expiry, revision, cas, mark] = decimals::<6>(given)?;
                let numbers = Numbers {
                    flags: low32(flags),
                    expiry: low32(expiry),
                    revision: Revision(revision),
                    cas: Cas(cas),
                };
                match entry(space, spelled) {
                    Some((key, value)) => { self.store(tomb == 1, numbers, Cas(mark), key, value) }
                    None => text(b"what?"),
                }
            }
            b"read" => {
                let [clock] = decimals::<1>(given)?;
                match bytes_spelled(space, spelled) {
                    Some(key) => self.read(low32(clock), key),
                    None => text(b"what?"),
                }
            }
            _ => return None,
        }
        Some(())
    }

    fn answer_frames(
        &mut self,
        word: &[u8],
        given: &[u8],
        spelled: &[u8],
        space: &mut [u8],
    ) -> Option<()> {
        let [clock] = decimals::<1>(given)?;
        let frames = bytes_spelled(space, spelled)?;
        match word {
            b"serve" => {
                self.serve(low32(clock), frames);
            }
            b"run" => self.run(low32(clock), frames),
            _ => return None,
        }
        Some(())
    }
}
