// The status of the plain writes: Set, Add, Replace, Delete, the counters, Append, Prepend, the touches.
#![tactic(auto)]

ghost use Rattle.std.specs.Prelude.{◌≡◌, false, ◌+◌, ltb};
ghost use Rattle.commands.specs.Rules.{plain_rule, count_rule, join_rule, touch_rule, status_by};
ghost use Rattle.outcome.specs.Outcome.{status_of};

use commands::{Context, Counter, Instruction, PASSING, Tests, Touching, status};
use outcome::Status;

// fault: the expiry passes 2^32 - 1; needs: a live document is needed; fresh: a live document is refused.
pub fn write_status(
    c: Context,
    i: Instruction,
    fault: bool,
    needs: bool,
    fresh: bool,
) -> Result<(), Status>
    ensures { status_of result ≡ status_by c i (plain_rule fault needs fresh false) }
{
    let live = c.is_live();
    let guard = i.is_guarded();
    status::first_status(Tests {
        fault,
        unsupported: i.unsupported,
        long: i.is_long(),
        elsewhere: !status::is_here(c.head, i.vbucket),
        missing: (needs | guard) & !live,
        conflict: (fresh & live) | (guard & (i.cas.0 != c.stored().cas.0)),
        spent: c.is_spent(),
        full: !c.has_room(),
        ..PASSING
    })
}

pub fn count_status(c: Context, i: Instruction, k: Counter) -> Result<(), Status>
    ensures { status_of result ≡ status_by c i (count_rule c k) }
{
    let live = c.is_live();
    let guard = i.is_guarded();
    status::first_status(Tests {
        fault: numbers::passes(k.expiry, c.clock),
        unsupported: i.unsupported,
        long: i.is_long(),
        elsewhere: !status::is_here(c.head, i.vbucket),
        missing: ((k.expiry == 0xffffffff) | guard) & !live,
        conflict: guard & (i.cas.0 != c.stored().cas.0),
        number: live & c.number.is_none(),
        spent: c.is_spent(),
        full: !c.has_room(),
        ..PASSING
    })
}

// Whether two values of these sizes are over 1,024 bytes together.
fn over(a: usize, b: usize) -> bool
    ensures { result ≡ ltb 1024 (a + b) }
{
    1024 < a.saturating_add(b)
}

// Append and Prepend.
pub fn join_status(c: Context, i: Instruction) -> Result<(), Status>
    ensures { status_of result ≡ status_by c i join_rule }
{
    let live = c.is_live();
    let guard = i.is_guarded();
    status::first_status(Tests {
        unsupported: i.unsupported,
        long: i.is_long(),
        elsewhere: !status::is_here(c.head, i.vbucket),
        unstored: !live,
        missing: guard & !live,
        conflict: guard & (i.cas.0 != c.stored().cas.0),
        joined: over(c.size, i.size),
        spent: c.is_spent(),
        full: !c.has_room(),
        ..PASSING
    })
}

// Touch and Get-and-touch.
pub fn touch_status(c: Context, i: Instruction, t: Touching) -> Result<(), Status>
    ensures { status_of result ≡ status_by c i (touch_rule c t) }
{
    status::first_status(Tests {
        fault: numbers::passes(t.expiry, c.clock),
        unsupported: i.unsupported,
        long: i.is_long(),
        elsewhere: !status::is_here(c.head, i.vbucket),
        missing: !c.is_live(),
        spent: c.is_spent(),
        full: !c.has_room(),
        ..PASSING
    })
}
