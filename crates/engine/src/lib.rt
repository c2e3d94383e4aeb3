// What an engine is: rows that are searched by key, written and purged, and the laws that any engine meets, in specs/Engine.antt.
#![tactic(auto)]

ghost use Rattle.std.specs.Prelude.{◌≡◌};
ghost use Rattle.engine.specs.Config.{config_for};

use document::Head;

// Where a document for a key is stored.
#[derive(Clone, Copy)]
pub enum Place {
    // over the key's row
    Over(usize),
    // into a new row
    Into(usize),
    // there is no room
    Full,
}

// Which engine keeps a table's rows. The table's memory doesn't say it.
#[derive(Clone, Copy, Debug, PartialEq, Eq)]
pub enum EngineKind {
    // rows in place, a new key in the lowest free one
    Plain,
    // used rows first, in key order
    Ordered,
}

// What a call is told beside its memory and its clock.
#[derive(Clone, Copy)]
pub struct Config {
    pub engine: EngineKind,
    // whether option 0x01 of a with-meta write is taken: the rule of old traces, and of nothing else
    pub forcing: bool,
}

// The plain engine, or rows in key order; force is retired.
pub fn config_for(plain: bool) -> Config
    ensures { result ≡ config_for plain }
{
    let engine = if plain {
        EngineKind::Plain
    } else {
        EngineKind::Ordered
    };
    Config {
        engine,
        forcing: false,
    }
}
