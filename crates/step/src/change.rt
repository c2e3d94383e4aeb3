// What a decision leaves in the table.
ghost use Rattle.std.specs.Prelude.{◌≡◌};
ghost use Rattle.digits.specs.Decimal.{digits};
ghost use Rattle.document.specs.Stored.{entry_of};
ghost use Rattle.table.specs.Calls.{stored_by};
ghost use Rattle.step.specs.Change.{stored_from, changed_by};

use document::{Metadata, Side};
use effects::{Done, Source};
use engine::Config;
use table::Lookup;

// Stores decimal digits for a key.
fn store_digits(config: Config, b: &mut [u8], l: Lookup, key: &[u8], m: Metadata, n: u64)
    ensures { b.new ≡ stored_by config b.old l (entry_of key.now m (digits n)) }
{
    let mut text = [0u8; 20];
    let k = digits::put_number(&mut text, n);
    table::store(config, b, l, key, m, octets::part(&text, 0, k));
}

// Stores a value from its source for a key.
fn store_from(
    config: Config,
    b: &mut [u8],
    l: Lookup,
    key: &[u8],
    m: Metadata,
    source: Source,
    value: &[u8],
)
    ensures { b.new ≡ stored_from config b.old l key.now m source value.now }
{
    match source {
        Source::Empty => table::store(config, b, l, key, m, octets::part(value, 0, 0)),
        Source::Frame => table::store(config, b, l, key, m, value),
        Source::Digits(n) => store_digits(config, b, l, key, m, n),
        Source::Kept => table::join(config, b, l, key, m, Side::Back, octets::part(value, 0, 0)),
        Source::Joined(side) => table::join(config, b, l, key, m, side, value),
    }
}

// Stores what a decision says, where a lookup of the key said. value: the frame's. The head is written once: where nothing is
// stored, only its clock has changed.
pub(crate) fn change(config: Config, b: &mut [u8], l: Lookup, key: &[u8], d: Done, value: &[u8])
    ensures { b.new ≡ changed_by config b.old l key.now d value.now }
{
    match d.store {
        Some(m) => {
            row_writer::put_head(b, d.head);
            store_from(config, b, l, key, m, d.source, value);
        }
        None => row_writer::put_clock(b, d.head.clock),
    }
}
