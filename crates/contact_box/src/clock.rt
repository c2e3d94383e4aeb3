// The system's clock.
ghost use Rattle.std.specs.Prelude.{◌≡◌, min};

use std::time::Clock;

// A time as a table's clock has it, in 32 bits: the nearest that there is.
fn seconds(t: u64) -> u32
    ensures { result ≡ min t 4294967295 }
{
    u32::try_from(t).unwrap_or(u32::MAX)
}

// Seconds since 1970: none where the clock can't be read, or is before that year.
pub(crate) fn now(clock: &impl Clock) -> u32 {
    match clock.since_1970() {
        Ok(t) => seconds(t.as_secs()),
        Err(_) => 0,
    }
}
