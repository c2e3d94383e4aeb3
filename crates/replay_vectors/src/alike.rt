// Whether two tables hold the same, each kept by its own engine: head and rows, row places aside.
ghost use Rattle.std.specs.Prelude.{◌≡◌};
ghost use Rattle.std.specs.Slice.Iter.{chunks_exact_size};

use engine::{Config, Place};
use std::slice::ChunksExact;

fn rows_of(b: &[u8]) -> ChunksExact<'_, u8>
    ensures { chunks_exact_size result ≡ 1312 }
{
    octets::rest(b, rows::HEADER).chunks_exact(rows::ROW)
}

// Whether a row is free, or is byte for byte the other table's row of its key.
fn is_on(row: &[u8], config: Config, other: &[u8]) -> bool {
    let slot = rows::row::slot(row);
    if slot.kind == 0 {
        return true;
    }
    let key = octets::part(row, rows::FIXED, slot.keylen as usize);
    match table::find(config, other, key, false).place {
        Place::Over(i) => rows_of(other)
            .nth(i)
            .is_some_and(|held| compare::same(row, held)),
        Place::Into(_) | Place::Full => false,
    }
}

// Whether every row of one table is on the other, which the engine keeps.
fn are_on(one: &[u8], config: Config, other: &[u8]) -> bool {
    rows_of(one).all(|row| is_on(row, config, other))
}

// Memory that no replay has made a table in is the same in all its bytes.
pub(crate) fn are_alike(ordered: &[u8], plain: &[u8]) -> bool {
    if compare::same(ordered, plain) {
        return true;
    }
    compare::same(
        octets::part(ordered, 0, rows::HEADER),
        octets::part(plain, 0, rows::HEADER),
    ) && are_on(ordered, engine::config_for(true), plain)
        && are_on(plain, engine::config_for(false), ordered)
}
