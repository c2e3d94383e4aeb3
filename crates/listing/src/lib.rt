// What a listing of keys is: definitions and laws, apart from how memory holds the documents, and the writing of one key.
#![tactic(auto)]

ghost use Rattle.std.specs.Prelude.{◌≡◌, ◌+◌, ◌-◌, ◌≤◌, ◌<◌, length, MatchOption};
ghost use Rattle.octets.specs.Parts.{written};
ghost use Rattle.octets.specs.BigEndian.{bytes_of};

// The most bytes that the value of a listing's reply has.
pub const LIMIT: usize = 1278;

// The reply room that a listing asks for: a header and a value of 1,278 bytes.
pub const ROOM: usize = 1302;

// Writes a key after size bytes of a listing's value, which begins at byte 24, and says how many they are then; None, and nothing is
// written, where the key doesn't fit.
#[inline(always)]
pub fn put_key(out: &mut [u8], size: usize, key: &[u8]) -> Option<usize>
    ensures { MatchOption result ((1278 - size < 4 + length key.now) × (out.new ≡ out.old))
        (λ n. (4 + length key.now ≤ 1278 - size) × (n ≡ size + (4 + length key.now))
        × (out.new ≡ written (written out.old (24 + size) (bytes_of 4 (length key.now))) (28 + size) key.now)) }
{
    if LIMIT.saturating_sub(size) < 4 + key.len() {
        return None;
    }
    octet_writer::put_be(out, 24 + size, 4, key.len() as u64);
    octet_writer::put_bytes(out, 28 + size, key);
    Some(size + 4 + key.len())
}
