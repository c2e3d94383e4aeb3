// The status of the with-meta writes.
#![tactic(auto)]

ghost use Rattle.std.specs.Prelude.{◌≡◌};
ghost use Rattle.commands.specs.Rules.{meta_rule, status_by};
ghost use Rattle.outcome.specs.Outcome.{status_of};

use commands::{Context, Instruction, Meta, PASSING, Tests, status};
use numbers::Mode;
use outcome::Status;

// fresh: a live document is refused.
pub fn meta_status(c: Context, i: Instruction, w: Meta, fresh: bool) -> Result<(), Status>
    ensures { status_of result ≡ status_by c i (meta_rule c w fresh) }
{
    let mode = numbers::mode_of(c.head.mode);
    let last = mode == Mode::LastWrite;
    let wins = document::accepted(mode, c.row, w.numbers);
    let live = c.is_live();
    let guard = i.is_guarded();
    status::first_status(Tests {
        fault: w.last != last,
        unsupported: i.unsupported,
        long: i.is_long(),
        elsewhere: !status::is_here(c.head, i.vbucket),
        missing: guard & !live,
        conflict: !(w.force | (w.skip | wins))
            | ((fresh & live) | (guard & (i.cas.0 != c.stored().cas.0))),
        spent: w.regenerate & (c.head.mark.0 == u64::MAX),
        full: !c.has_room(),
        ..PASSING
    })
}
