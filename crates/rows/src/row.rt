// A row's fixed part, read.
ghost use Rattle.std.specs.Prelude.{◌≡◌};
ghost use Rattle.document.specs.Stored.{metadata_of};
ghost use Rattle.rows.specs.Row.{slot_of, doc_of, key_of};

use crate::{FIXED, Slot};
use document::Metadata;
use numbers::{Cas, Numbers, Revision};

#[inline(always)]
pub fn slot(r: &[u8]) -> Slot
    ensures { result ≡ slot_of r.now }
{
    Slot {
        kind: octets::be16(r, 0),
        keylen: octets::be16(r, 2),
        vallen: octets::be32(r, 4),
        numbers: Numbers {
            flags: octets::be32(r, 8),
            expiry: octets::be32(r, 12),
            revision: Revision(octets::be64(r, 16)),
            cas: Cas(octets::be64(r, 24)),
        },
    }
}

// A row's key.
pub fn key(r: &[u8]) -> &[u8]
    ensures { result.now ≡ key_of r.now }
{
    octets::part(r, FIXED, octets::be16(r, 2) as usize)
}

// What a used row holds for its key, the value aside.
pub fn metadata(r: &[u8]) -> Metadata
    ensures { result ≡ metadata_of (doc_of r.now) }
{
    let s = slot(r);
    Metadata {
        tomb: s.kind == 2,
        numbers: s.numbers,
    }
}
