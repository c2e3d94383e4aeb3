// Numbers that words spell.
ghost use Rattle.std.specs.Prelude.{◌≡◌, ◌%◌, ◌<◌, ◌≤◌, length};
ghost use Rattle.vector_text.specs.Numbers.{leading_value, leading_left};

// The decimal number at the start of a text, 0 where no digit stands there, and what follows it. Digits that would carry it past
// 99,999 are left.
#[tactic(auto, using(crate::proofs::Leading::value_step, crate::proofs::Leading::left_step))]
pub fn leading(s: &[u8]) -> (usize, &[u8])
    ensures small { result.0 < 100000 }
    ensures shorter { length result.1.now ≤ length s.now }
    ensures value { result.0 ≡ leading_value 0 s.now }
    ensures left { result.1.now ≡ leading_left 0 s.now }
{
    let mut value = 0;
    for (i, &c) in s.iter().enumerate() {
        if 10000 <= value || !c.is_ascii_digit() {
            return (value, octets::rest(s, i));
        }
        value = value * 10 + usize::from(c - b'0');
    }
    (value, b"")
}

// The lowest bits of a number.
pub fn low8(n: u64) -> u8
    ensures { result ≡ n % 0x100 }
{
    (n % 0x100) as u8
}

pub fn low16(n: u64) -> u16
    ensures { result ≡ n % 0x10000 }
{
    (n % 0x10000) as u16
}

pub fn low32(n: u64) -> u32
    ensures { result ≡ n % 0x100000000 }
{
    (n % 0x100000000) as u32
}
