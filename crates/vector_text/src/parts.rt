// The parts of a text: lines, words, and what stands round a mark.
ghost use Rattle.std.specs.Prelude.{◌≡◌, ◌<◌, ◌==◌, length, IfSome, IsNone, MatchOption};
ghost use Rattle.std.specs.List.{position, before_first, after_first, position_or_len};
ghost use Rattle.std.specs.Iterator.{at_most};

// Where the first such byte stands, if there is one.
fn find(s: &[u8], mark: u8) -> Option<usize>
    ensures { result ≡ position (λ b. b == mark) s.now }
{
    s.iter().position(|b| *b == mark)
}

// What stands before the first such byte and after it, if there is one.
#[tactic(auto, using(crate::proofs::Positions::none_is))]
pub fn split_once(s: &[u8], mark: u8) -> Option<(&[u8], &[u8])>
    ensures { MatchOption result (position_or_len (λ b. b == mark) s.now ≡ length s.now)
        (λ x. (position_or_len (λ b. b == mark) s.now < length s.now)
        × (x.0.now ≡ before_first (λ b. b == mark) s.now) × (x.1.now ≡ after_first (λ b. b == mark) s.now)) }
{
    let at = find(s, mark)?;
    Some((&s[..at], &s[at + 1..]))
}

// What stands before the first such byte and after it: all of the text and nothing where there is none.
pub fn cut(s: &[u8], mark: u8) -> (&[u8], &[u8])
    ensures before { result.0.now ≡ before_first (λ b. b == mark) s.now }
    ensures after { result.1.now ≡ after_first (λ b. b == mark) s.now }
{
    split_once(s, mark).unwrap_or((s, b""))
}

// The parts of a text that a mark divides. One that ends the text has no part behind it, and an empty text has none at all.
#[derive(Drop)]
pub struct Parts<'a> {
    pub left: &'a [u8],
    pub mark: u8,
}

impl<'a> Iterator for Parts<'a> {
    type Item = &'a [u8];

    ghost next_gives = { λ s r t. MatchOption r ((length s.left.now ≡ 0) × (t ≡ s))
        (λ x. (0 < length s.left.now) × (x.now ≡ before_first (λ b. b == s.mark) s.left.now)
        × (t.left.now ≡ after_first (λ b. b == s.mark) s.left.now) × (t.mark ≡ s.mark)) };

    ghost remaining = { λ s. at_most (length s.left.now) };

    fn next(&mut self) -> Option<&'a [u8]> {
        if self.left.is_empty() {
            return None;
        }
        let (part, left) = cut(self.left, self.mark);
        self.left = left;
        Some(part)
    }
}

pub fn lines(s: &[u8]) -> Parts<'_>
    ensures { (result.left.now ≡ s.now) × (result.mark ≡ 10) }
{
    Parts {
        left: s,
        mark: b'\n',
    }
}

pub fn words(s: &[u8]) -> Parts<'_>
    ensures { (result.left.now ≡ s.now) × (result.mark ≡ 32) }
{
    Parts {
        left: s,
        mark: b' ',
    }
}
