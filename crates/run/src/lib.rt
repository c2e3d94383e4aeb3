// Frames one after another: a cursor over a run of received frames, and a call that serves a whole run with one damage test.
#![tactic(auto)]

ghost use Rattle.std.specs.Prelude.{◌≡◌, true};
ghost use Rattle.engines.specs.Damage.{sound_by};
ghost use Rattle.run.specs.Run.{Ran, moved_told, ran_told, ran_numbers_told, seen, moved_by, begun, run_end, ran_of};
ghost use Rattle.run.specs.Frames.{frames_from, step_at, serve_at, Leaves};
ghost use Rattle.serving.specs.Serve.{served_told, served_used};
ghost use Rattle.serving.specs.Serves.{Serves};
ghost use Rattle.tally.specs.Serves.{ServesCounted};

use engine::Config;
use outcome::Refusal;
use serving::{AnswerCode, Served, ServedNumbers};
use tally::Tally;

#[derive(Clone, Copy)]
pub struct Cursor {
    pub at: usize,
}

// The cursor after a call, and what the call answered.
#[derive(Clone, Copy)]
pub struct Moved {
    pub cursor: Cursor,
    pub served: Result<Served, Refusal>,
}

// cursor: past the last frame served; filled: the bytes of all replies; stop: why no further frame was served.
#[derive(Clone, Copy)]
pub struct Ran {
    pub cursor: Cursor,
    pub filled: usize,
    pub tally: Tally,
    pub stop: Result<Served, Refusal>,
}

// A run's end as above, with the last answer in numbers, of which any may stand here.
#[derive(Clone, Copy)]
pub struct RanNumbers {
    pub cursor: Cursor,
    pub filled: usize,
    pub tally: Tally,
    pub stop: ServedNumbers,
}

// What tells how a run ended. told: with the last answer in 01's numbers.
pub trait RanCode: Copy {
    ghost told: { Self → Ran };

    fn numbers(self) -> RanNumbers
        ensures { ran_numbers_told result ≡ told self };
}

impl RanCode for RanNumbers {
    ghost told = { ran_numbers_told };

    #[inline(always)]
    fn numbers(self) -> RanNumbers {
        self
    }
}

impl RanCode for Ran {
    ghost told = { ran_told };

    #[inline(always)]
    fn numbers(self) -> RanNumbers {
        RanNumbers {
            cursor: self.cursor,
            filled: self.filled,
            tally: self.tally,
            stop: self.stop.numbers(),
        }
    }
}

// The bytes that a call consumed.
pub fn used_of<A: AnswerCode>(answer: A) -> usize
    ensures { result ≡ served_used (A.told answer) }
{
    match answer.numbers() {
        ServedNumbers::Done(_, used, _) => used,
        ServedNumbers::Refused(_, _) => 0,
    }
}

// Serves the frames of a run one after another on memory that its caller knows to be a table that is not damaged, each reply after those
// before it, until one is refused or so many more than the first are served. The last answer is told. A call of its own and a run have
// this one body: with one caller the step is compiled into the loop.
pub fn serve_frames(
    config: Config,
    b: &mut [u8],
    clock: u32,
    run: &[u8],
    out: &mut [u8],
    t: Tally,
    more: usize,
) -> Ran
    ensures { Leaves (frames_from (step_at config clock run.now) more (begun b.old out.old t)) (ran_told result) b.new out.new
        × (sound_by config b.old ≡ true
        → Leaves (frames_from (serve_at config clock run.now) more (begun b.old out.old t)) (ran_told result) b.new out.new) }
{
    let mut cursor = Cursor { at: 0 };
    let mut filled: usize = 0;
    let mut tally = t;
    let mut left = more;
    // Each step says how far the next is, so that there is nothing to go over.
    loop {
        let head = table::head(b);
        let seen = octets::rest(run, cursor.at);
        let stop = step::step(config, b, head, clock, seen, &mut out[filled..]);
        let Ok(frame) = stop else {
            return Ran {
                cursor,
                filled,
                tally,
                stop,
            };
        };
        cursor = Cursor {
            at: cursor.at + frame.used,
        };
        filled += frame.reply;
        tally = tally::counted(tally, stop);
        if left == 0 {
            return Ran {
                cursor,
                filled,
                tally,
                stop,
            };
        }
        left -= 1;
    }
}

impl Cursor {
    // Serves the frame at the cursor, uncounted. The cursor is handed back past it.
    pub fn step(self, config: Config, b: &mut [u8], clock: u32, run: &[u8], out: &mut [u8]) -> Moved
        ensures { (moved_told result ≡ moved_by self.at (served_told result.served))
            × Serves config b.old clock (seen self.at run.now) out.old (served_told result.served) b.new out.new }
    {
        if !table::is_sound(config, b) {
            return Moved {
                cursor: self,
                served: Err(Refusal::Damaged),
            };
        }
        let seen = octets::rest(run, self.at);
        let ran = serve_frames(config, b, clock, seen, out, tally::none(), 0);
        Moved {
            cursor: Cursor {
                at: self.at + ran.cursor.at,
            },
            served: ran.stop,
        }
    }

    // Serves the frame at the cursor and counts it. The cursor is handed back past it.
    pub fn serve(
        self,
        config: Config,
        b: &mut [u8],
        clock: u32,
        run: &[u8],
        out: &mut [u8],
        t: &mut Tally,
    ) -> Moved
        ensures { (moved_told result ≡ moved_by self.at (served_told result.served))
            × ServesCounted config b.old clock (seen self.at run.now) out.old t.old (served_told result.served) b.new out.new t.new }
    {
        let r = self.step(config, b, clock, run, out);
        tally::count(t, r.served);
        r
    }
}

// Serves the frames of a run one after another, each reply after those before it, until a call is refused. The table is tested for
// damage once: a frame served on a table that is not damaged leaves it so.
pub fn serve_run(
    config: Config,
    b: &mut [u8],
    clock: u32,
    run: &[u8],
    out: &mut [u8],
    t: Tally,
) -> Ran
    ensures { (ran_told result ≡ ran_of config clock run.now (run_end config clock run.now (begun b.old out.old t)))
        × ((b.new ≡ (run_end config clock run.now (begun b.old out.old t)).table)
        × (out.new ≡ (run_end config clock run.now (begun b.old out.old t)).reply)) }
{
    if !table::is_sound(config, b) {
        return Ran {
            cursor: Cursor { at: 0 },
            filled: 0,
            tally: t,
            stop: Err(Refusal::Damaged),
        };
    }
    serve_frames(config, b, clock, run, out, t, run.len())
}
