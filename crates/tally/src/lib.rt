// Three counts of what serving did, kept by the caller.
#![tactic(auto)]

ghost use Rattle.std.specs.Prelude.{◌≡◌};
ghost use Rattle.tally.specs.Counts.{more_if, counted_of};

use serving::{AnswerCode, ServedNumbers};

#[repr(C)]
#[derive(Clone, Copy)]
pub struct Tally {
    // frames with status 0
    pub served: u64,
    // frames with another status
    pub refused: u64,
    // frames without reply bytes
    pub silent: u64,
}

fn more_if(on: bool, n: u64) -> u64
    ensures { result ≡ more_if on n }
{
    if on { numbers::next(n) } else { n }
}

// Before any frame.
pub fn none() -> Tally
    ensures { result ≡ (record { served = 0; refused = 0; silent = 0 }) }
{
    Tally {
        served: 0,
        refused: 0,
        silent: 0,
    }
}

// The counts after an answer. A call that was refused counts nowhere.
#[tactic(auto, unfolding(crate::specs::Counts::counted_of))]
pub fn counted<A: AnswerCode>(t: Tally, answer: A) -> Tally
    ensures { result ≡ counted_of t (A.told answer) }
{
    let ServedNumbers::Done(_, _, reply) = answer.numbers() else {
        return t;
    };
    Tally {
        served: more_if(answer.succeeds(), t.served),
        refused: more_if(answer.fails(), t.refused),
        silent: more_if(reply == 0, t.silent),
    }
}

// Counts one answer.
pub fn count<A: AnswerCode>(t: &mut Tally, answer: A)
    ensures { t.new ≡ counted_of t.old (A.told answer) }
{
    *t = counted(*t, answer);
}
