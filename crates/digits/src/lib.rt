// Decimal numbers as bytes: a counter's value read and written.
#![tactic(auto)]

ghost use Rattle.std.specs.Prelude.{◌≡◌, cond, [], ◌∷◌, ◌+◌, ◌≤◌, ◌<◌, length, leb};
ghost use Rattle.octets.specs.Parts.{pasted};
ghost use Rattle.digits.specs.Decimal.{digits, number_of, number_from};

// The digit n as a byte.
fn digit(n: u64) -> u8
    requires { n < 10 }
    ensures { result ≡ 48 + n }
{
    b'0' + n as u8
}

// Writes n in decimal from a place on, and says where the digits end. The quotient by ten falls.
fn put_digits(out: &mut [u8], at: usize, n: u64) -> usize
    requires { at + length (digits n) ≤ length out.old }
    ensures { (result ≡ at + length (digits n)) × (out.new ≡ pasted out.old at (digits n)) }
{
    if n < 10 {
        out[at] = digit(n);
        return at + 1;
    }
    let next = put_digits(out, at, n / 10);
    out[next] = digit(n % 10);
    next + 1
}

// Writes n in decimal at the start of out and answers how many digits it has. Where out has no room for 20 digits,
// nothing changes and the answer is 0. The caller's bytes take the digits, since there is no heap.
pub fn put_number(out: &mut [u8], n: u64) -> usize
    ensures { (result ≡ cond (leb 20 (length out.old)) (length (digits n)) 0)
        × (out.new ≡ cond (leb 20 (length out.old)) (pasted out.old 0 (digits n)) out.old) }
{
    if out.len() < 20 {
        return 0;
    }
    put_digits(out, 0, n)
}

// The number with one more digit, where that is one and the number stays under 2^64.
#[tactic(auto, using(crate::proofs::DecimalLaws::no_ascii_digit))]
fn with_digit(number: u64, c: u8) -> Option<u64>
    ensures { result ≡ number_from number (c ∷ []) }
{
    if !c.is_ascii_digit() {
        return None;
    }
    number.checked_mul(10)?.checked_add(u64::from(c - b'0'))
}

fn parse_all(s: &[u8]) -> Option<u64>
    ensures { result ≡ number_from 0 s.now }
{
    let mut number: u64 = 0;
    for &c in s {
        number = with_digit(number, c)?;
    }
    Some(number)
}

// The number that 1 to 20 decimal digits say, where it is under 2^64.
#[tactic(auto, unfolding(crate::specs::Decimal::number_of))]
pub fn parse(s: &[u8]) -> Option<u64>
    ensures { result ≡ number_of s.now }
{
    match s.len() {
        1..=20 => parse_all(s),
        _ => None,
    }
}
