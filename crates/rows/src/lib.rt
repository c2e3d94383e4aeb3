// The bytes of a table, whatever the order of its rows: a header of 16 bytes and rows of 1,312. Every function is total on
// any bytes. docs/LAYOUT.md has the layout.
#![tactic(auto)]

pub mod damage;
pub mod row;

ghost use Rattle.std.specs.Prelude.{◌≡◌, ◌-◌, ◌/◌, length, drop};
ghost use Rattle.rows.specs.Table.{head_of, chunks, row_count};

use document::Head;
use numbers::{Cas, Numbers};

// How many bytes the header and a row take.
pub const HEADER: usize = 16;

pub const ROW: usize = 1312;

// How many bytes a row's fixed part takes, and how many are left for the key and the value.
pub const FIXED: usize = 32;

pub const SPACE: usize = 1280;

// The fixed part of a row.
#[derive(Clone, Copy)]
pub struct Slot {
    // 0 free, 1 document, 2 tombstone; in damaged memory any number, which `slot_of` gives
    pub kind: u16,
    pub keylen: u16,
    pub vallen: u32,
    pub numbers: Numbers,
}

pub fn head_of(s: &[u8]) -> Head
    ensures { result ≡ head_of s.now }
{
    Head {
        state: octets::byte(s, 0),
        mode: octets::byte(s, 1),
        vbucket: octets::be16(s, 2),
        clock: octets::be32(s, 4),
        mark: Cas(octets::be64(s, 8)),
    }
}

// The rows of a table.
pub fn all(s: &[u8]) -> &[[u8; ROW]]
    ensures { (result.now ≡ chunks (row_count s.now) (drop 16 s.now)) × (length result.now ≡ row_count s.now) }
{
    octets::rest(s, HEADER).as_chunks::<ROW>().0
}

// How many rows memory of this size has.
pub fn rows_in(len: usize) -> usize
    ensures { result ≡ (len - 16) / 1312 }
{
    len.saturating_sub(HEADER) / ROW
}
