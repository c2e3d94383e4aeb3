// Fingerprints: a number that equal keys share, so that two keys are compared only where their fingerprints agree.
#![tactic(auto)]

ghost use Rattle.std.specs.Prelude.{◌≡◌};
ghost use Rattle.fingerprint.specs.Fingerprint.{mixed, lane_of, lane_with, both_lanes, folded, fingerprint, bucket_of, print_among};

// p turned, and w added.
fn mix(p: u64, w: u64) -> u64
    ensures { result ≡ mixed p w }
{
    p.rotate_left(5).wrapping_add(w)
}

// A lane of words: their sum, and the sum of what that was after each of them, by which a word counts by its place too.
#[derive(Clone, Copy)]
struct Lane {
    words: u64,
    sums: u64,
}

impl Lane {
    #[tactic(auto, unfolding(crate::specs::Fingerprint::lane_of))]
    fn of(w: u64) -> Lane
        ensures { result ≡ lane_of w }
    {
        Lane { words: w, sums: w }
    }

    // With one word more.
    #[tactic(auto, unfolding(crate::specs::Fingerprint::lane_with))]
    fn with(self, w: u64) -> Lane
        ensures { result ≡ lane_with self w }
    {
        let words = self.words.wrapping_add(w);
        Lane {
            words,
            sums: self.sums.wrapping_add(words),
        }
    }

    // Two lanes as one number.
    #[tactic(auto, unfolding(crate::specs::Fingerprint::both_lanes))]
    fn both(self, other: Lane) -> u64
        ensures { result ≡ both_lanes self other }
    {
        mix(mix(self.sums, self.words), mix(other.sums, other.words))
    }
}

// The two halves added: 32 bits are quicker to compare.
#[tactic(auto, unfolding(crate::specs::Fingerprint::folded))]
fn folded(p: u64) -> u32
    ensures { result ≡ folded p }
{
    ((p / 4294967296 + p % 4294967296) % 4294967296) as u32
}

// Sixteen bytes a step, as arrays so that each word is one load with no test. The two lanes don't wait for each other.
pub fn of_key(key: &[u8]) -> u32
    ensures { result ≡ fingerprint key.now }
{
    if key.len() <= 8 {
        return folded(octets::be64(key, 0));
    }
    if key.len() < 16 {
        return folded(mix(octets::word(key, 0), octets::word(key, key.len() - 8)));
    }
    let tail = &key[key.len() - 16..];
    let mut a = Lane::of(octets::word(tail, 0));
    let mut b = Lane::of(octets::word(tail, 8));
    let (steps, _) = key[..key.len() - 1].as_chunks::<16>();
    for step in steps {
        a = a.with(octets::word(step, 0));
        b = b.with(octets::word(step, 8));
    }
    folded(a.both(b))
}

// Which of 1,024 buckets a fingerprint falls in.
#[tactic(auto, unfolding(crate::specs::Fingerprint::bucket_of))]
pub fn bucket(p: u32) -> usize
    ensures { result ≡ bucket_of p }
{
    (p as u64 * 2654435761 / 4194304 % 1024) as usize
}

// Whether p is one of these.
pub fn among(p: u32, prints: &[u32]) -> bool
    ensures { result ≡ print_among p prints.now }
{
    prints.contains(&p)
}
