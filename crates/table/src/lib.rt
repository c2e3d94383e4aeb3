// The six calls by which serving and the owner's calls reach a table's rows: checked, find, store, join, purge and put_keys. The engine
// that a call is for is chosen here and nowhere above. Every function is total on any bytes; what it means on a table that is
// not damaged is in specs/Claims.antt.
#![tactic(auto)]

ghost use Rattle.std.specs.Prelude.{◌≡◌, ◌≤◌, ◌<◌, length};
ghost use Rattle.octets.specs.Parts.{written};
ghost use Rattle.document.specs.Stored.{entry_of, gone_doc};
ghost use Rattle.rows.specs.Table.{row_count, head_of, table_of};
ghost use Rattle.plain_writer.specs.Change.{freed_rows};
ghost use Rattle.engines.specs.Damage.{sound_by, checked_by};
ghost use Rattle.table.specs.Calls.{is_ordered, has_place, lookup_at, place_for, lookup_of, stored_new, stored_by, joined_by, purged_by, keys_for};

use document::{Head, Metadata, Side};
use engine::{Config, EngineKind, Place};
use numbers::Cas;
use rows::{FIXED, HEADER, ROW};

// What is found for a key.
#[derive(Clone, Copy)]
pub struct Lookup {
    // where a document for the key is stored
    pub place: Place,
    // what the key's row holds, the value aside
    pub stored: Option<Metadata>,
    // where its value stands in the table's memory, and its length; both 0 without a row
    pub at: usize,
    pub len: usize,
}

// Whether an engine keeps its rows in key order.
fn is_ordered(engine: EngineKind) -> bool
    ensures { result ≡ is_ordered engine }
{
    match engine {
        EngineKind::Plain => false,
        EngineKind::Ordered => true,
    }
}

// The head where the memory is a table that is not damaged. One walk for both engines; the keys of plain rows are compared after it.
pub fn checked(config: Config, b: &[u8]) -> Option<Head>
    ensures { result ≡ checked_by config b.now }
{
    let engine = config.engine;
    let keyed = is_ordered(engine);
    match row_damage::checked_rows(b, keyed) {
        None => None,
        Some(h) => {
            if keyed {
                return Some(h);
            }
            if !plain_damage::is_distinct(b) {
                return None;
            }
            Some(h)
        }
    }
}

// Whether the memory is a table that is not damaged.
pub fn is_sound(config: Config, b: &[u8]) -> bool
    ensures { result ≡ sound_by config b.now }
{
    match checked(config, b) {
        None => false,
        Some(_) => true,
    }
}

// The head of any memory, for a step. The walk of the damage test reads it by a function of its own, which is inlined there for having
// no other caller.
pub fn head(b: &[u8]) -> Head
    ensures { result ≡ head_of b.now }
{
    Head {
        state: octets::byte(b, 0),
        mode: octets::byte(b, 1),
        vbucket: octets::be16(b, 2),
        clock: octets::be32(b, 4),
        mark: Cas(octets::be64(b, 8)),
    }
}

// Whether there is such a place.
pub fn has_place(p: Place) -> bool
    ensures { result ≡ has_place p }
{
    match p {
        Place::Over(_) => true,
        Place::Into(_) => true,
        Place::Full => false,
    }
}

// What the row at a place holds for a key of k bytes: its fixed part is read once.
fn held(b: &[u8], k: usize, i: usize) -> Lookup
    requires { (i < row_count b.now) × (k ≤ 1280) }
    ensures { result ≡ lookup_at b.now k (Place.Over i) }
{
    let at = HEADER + i * ROW;
    let end = at + ROW;
    let r = &b[at..end];
    Lookup {
        place: Place::Over(i),
        stored: Some(rows::row::metadata(r)),
        at: at + (FIXED + k),
        len: octets::be32(r, 4) as usize,
    }
}

// What is found where the key has no row.
fn absent(place: Place) -> Lookup
    ensures { result ≡ (record { place = place; stored = None; at = 0; len = 0 }) }
{
    Lookup {
        place,
        stored: None,
        at: 0,
        len: 0,
    }
}

// The place of a key's document: over its row, else a new row's. Requests without a key, as a Noop, look for nothing.
fn place_for(config: Config, b: &[u8], key: &[u8], new: bool) -> Place
    ensures { result ≡ place_for config new key.now (table_of b.now).rows }
{
    if (key.len() == 0) & !new {
        return Place::Full;
    }
    let engine = config.engine;
    match engine {
        EngineKind::Plain => plain::lookup::place(b, key, new),
        EngineKind::Ordered => ordered_lookup::place(b, key, new),
    }
}

// Looks for a key. new: whether a place is looked for where the key has no row.
pub fn find(config: Config, b: &[u8], key: &[u8], new: bool) -> Lookup
    ensures { result ≡ lookup_of config new b.now key.now }
{
    match place_for(config, b, key, new) {
        Place::Over(i) => held(b, key.len(), i),
        Place::Into(i) => absent(Place::Into(i)),
        Place::Full => absent(Place::Full),
    }
}

// Stores a document for a key in a new row at a place.
#[tactic(auto, unfolding(crate::specs::Calls::stored_new))]
fn store_new(config: Config, b: &mut [u8], i: usize, key: &[u8], m: Metadata, value: &[u8])
    ensures { b.new ≡ stored_new config b.old i (entry_of key.now m value.now) }
{
    let engine = config.engine;
    match engine {
        EngineKind::Plain => plain_writer::store(b, i, key, m, value, 0),
        EngineKind::Ordered => ordered_writer::insert(b, i, key, m, value),
    }
}

// Stores a document for a key where a lookup of it said. Nothing changes where there is no place.
pub fn store(config: Config, b: &mut [u8], l: Lookup, key: &[u8], m: Metadata, value: &[u8])
    ensures { b.new ≡ stored_by config b.old l (entry_of key.now m value.now) }
{
    let old = l.len;
    let place = l.place;
    match place {
        Place::Over(i) => plain_writer::update(b, i, key.len(), m, value, old),
        Place::Into(i) => store_new(config, b, i, key, m, value),
        Place::Full => {}
    }
}

// Stores for a key the value that a lookup of it found with another one joined to it, in place. Nothing changes where there is no
// place or the two don't fit together.
pub fn join(
    config: Config,
    b: &mut [u8],
    l: Lookup,
    key: &[u8],
    m: Metadata,
    side: Side,
    value: &[u8],
)
    ensures { b.new ≡ joined_by config b.old l key.now m side value.now }
{
    let old = l.len;
    let place = l.place;
    match place {
        Place::Over(i) => plain_writer::join(b, i, key.len(), m, side, value, old),
        Place::Into(i) => store_new(config, b, i, key, m, value),
        Place::Full => {}
    }
}

// Frees the tombstones and expired documents with CAS at or below the bound, and says how many.
pub fn purge(config: Config, b: &mut [u8], clock: u32, bound: Cas) -> usize
    ensures { (result ≡ freed_rows (gone_doc clock bound.0) b.old) × (b.new ≡ purged_by config (gone_doc clock bound.0) b.old) }
{
    let engine = config.engine;
    match engine {
        EngineKind::Plain => plain_writer::purge(b, clock, bound),
        EngineKind::Ordered => ordered_writer::purge(b, clock, bound),
    }
}

// Writes a listing's value from byte 24 on and answers its length. Nothing where the room is under 1,302 bytes or the rows are over
// 256.
pub fn put_keys(
    config: Config,
    b: &[u8],
    clock: u32,
    start: &[u8],
    count: u32,
    out: &mut [u8],
) -> usize
    ensures { (result ≡ length (keys_for config (length out.old) b.now clock start.now count))
        × (out.new ≡ written out.old 24 (keys_for config (length out.old) b.now clock start.now count)) }
{
    let engine = config.engine;
    match engine {
        EngineKind::Plain => plain_listing::put_keys(b, clock, start, count, out),
        EngineKind::Ordered => ordered_listing::put_keys(b, clock, start, count, out),
    }
}
