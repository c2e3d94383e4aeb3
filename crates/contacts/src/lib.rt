// The calls for C and Rust: numbers and byte slices in, a struct of numbers out, each with the contract of the call that
// it passes on. include/contacts.h documents them.
#![tactic(auto)]

ghost use Rattle.std.specs.Prelude.{◌≡◌, length};
ghost use Rattle.engine.specs.Config.{config_for};
ghost use Rattle.engines.specs.Damage.{sound_by};
ghost use Rattle.owning.specs.Owner.{size_of, make_outcome, made, read_of, purge_of, purged_bytes, activate_of, activated_bytes};
ghost use Rattle.request.specs.Reading.{reading};
ghost use Rattle.request_writer.specs.Writing.{writing, frame_bytes, output_of};
ghost use Rattle.run.specs.Run.{begun, run_end, ran_of};
ghost use Rattle.replay.specs.Replay.{replayed};
ghost use Rattle.contacts.specs.Contacts.{ServesOne, version};
ghost use Rattle.answers.specs.Answers.{ran_answer, document_answer, purged_answer, activated_answer, request_answer, fields_for, written_answer, replayed_answer};

use answers::{
    ActivatedAnswer, DocumentAnswer, PurgedAnswer, RanAnswer, ReplayedAnswer, RequestAnswer,
    ServedAnswer, WrittenAnswer,
};
use numbers::Cas;
use request::Fields;
use run::Cursor;
use tally::Tally;

// The version of these calls, 10,000 for the major number, 100 for the minor and 1 for the patch: 4.10.0.
#[unsafe(no_mangle)]
pub extern "C" fn contacts_version() -> u32
    ensures { result ≡ version }
{
    41000
}

// The bytes that a table of so many rows needs, 0 where no table has so many.
#[unsafe(no_mangle)]
pub extern "C" fn contacts_size(rows: usize) -> usize
    ensures { result ≡ size_of rows }
{
    owner::size(rows)
}

// Makes a fresh table: 0, or 5 where it is refused and the memory is unchanged.
#[unsafe(no_mangle)]
pub extern "C" fn contacts_make(b: &mut [u8], rows: usize, state: u8, mode: u8, vbucket: u16) -> u8
    ensures { (result ≡ make_outcome (length b.old) rows state mode) × (b.new ≡ made b.old rows state mode vbucket) }
{
    match owner::make(b, rows, state, mode, vbucket) {
        Ok(()) => 0,
        Err(_) => 5,
    }
}

// Whether the memory is a table that is not damaged.
#[unsafe(no_mangle)]
pub extern "C" fn contacts_sound(plain: bool, b: &[u8]) -> bool
    ensures { result ≡ sound_by (config_for plain) b.now }
{
    table::is_sound(engine::config_for(plain), b)
}

// Serves the request at the start of the received bytes, and counts it.
#[unsafe(no_mangle)]
pub extern "C" fn contacts_serve(
    plain: bool,
    b: &mut [u8],
    clock: u32,
    s: &[u8],
    out: &mut [u8],
    t: &mut Tally,
) -> ServedAnswer
    ensures { ServesOne (config_for plain) b.old clock s.now out.old t.old result b.new out.new t.new }
{
    let start = Cursor { at: 0 };
    let moved = start.serve(engine::config_for(plain), b, clock, s, out, t);
    answers::served_answer(moved.served)
}

// Serves the frames of a run one after another, each reply after those before it, until a call is refused.
#[unsafe(no_mangle)]
pub extern "C" fn contacts_serve_run(
    plain: bool,
    b: &mut [u8],
    clock: u32,
    run: &[u8],
    out: &mut [u8],
    t: &mut Tally,
) -> RanAnswer
    ensures { (result ≡ ran_answer (ran_of (config_for plain) clock run.now (run_end (config_for plain) clock run.now (begun b.old out.old t.old))))
        × ((b.new ≡ (run_end (config_for plain) clock run.now (begun b.old out.old t.old)).table)
        × ((out.new ≡ (run_end (config_for plain) clock run.now (begun b.old out.old t.old)).reply)
        × (t.new ≡ (run_end (config_for plain) clock run.now (begun b.old out.old t.old)).tally))) }
{
    let r = run::serve_run(engine::config_for(plain), b, clock, run, out, *t);
    *t = answers::ran_tally(r);
    answers::ran_answer(r)
}

// Reads a key's live document. Nothing changes.
#[unsafe(no_mangle)]
pub extern "C" fn contacts_read(plain: bool, b: &[u8], clock: u32, key: &[u8]) -> DocumentAnswer
    ensures { result ≡ document_answer (read_of (config_for plain) b.now clock key.now) }
{
    answers::document_answer(owner::read(engine::config_for(plain), b, clock, key))
}

// Frees the tombstones and expired documents with CAS at or below the bound, and says how many.
#[unsafe(no_mangle)]
pub extern "C" fn contacts_purge(plain: bool, b: &mut [u8], clock: u32, bound: u64) -> PurgedAnswer
    ensures { (result ≡ purged_answer (purge_of (config_for plain) b.old clock bound)) × (b.new ≡ purged_bytes (config_for plain) b.old clock bound) }
{
    answers::purged_answer(owner::purge(engine::config_for(plain), b, clock, Cas(bound)))
}

// Makes a table active, unless it is damaged or dead. Nothing but the state changes.
#[unsafe(no_mangle)]
pub extern "C" fn contacts_activate(plain: bool, b: &mut [u8]) -> ActivatedAnswer
    ensures { (result ≡ activated_answer (activate_of (config_for plain) b.old)) × (b.new ≡ activated_bytes (config_for plain) b.old) }
{
    answers::activated_answer(owner::activate(engine::config_for(plain), b))
}

// Reads the request at the start of the received bytes.
#[unsafe(no_mangle)]
pub extern "C" fn contacts_read_request(s: &[u8]) -> RequestAnswer
    ensures { result ≡ request_answer (reading s.now) }
{
    answers::request_answer(request::read(s))
}

// Writes a request's frame at the start of out, where reading it would not refuse and it fits; else out is unchanged.
#[unsafe(no_mangle)]
pub extern "C" fn contacts_write_request(
    opcode: u8,
    datatype: u8,
    vbucket: u16,
    opaque: u32,
    cas: u64,
    extras: &[u8],
    key: &[u8],
    value: &[u8],
    out: &mut [u8],
) -> WrittenAnswer
    ensures { (result ≡ written_answer (writing (fields_for opcode datatype vbucket opaque cas) extras.now key.now value.now (length out.old)))
        × (out.new ≡ output_of (writing (fields_for opcode datatype vbucket opaque cas) extras.now key.now value.now (length out.old))
        (frame_bytes (fields_for opcode datatype vbucket opaque cas) extras.now key.now value.now) out.old) }
{
    let f = Fields {
        opcode,
        datatype,
        vbucket,
        opaque,
        cas: Cas(cas),
    };
    answers::written_answer(request_writer::write(f, extras, key, value, out))
}

// Replays the trace of a voyage on a fresh active table of 32 rows in the lent memory.
#[unsafe(no_mangle)]
pub extern "C" fn contacts_replay(plain: bool, b: &mut [u8], trace: &[u8]) -> ReplayedAnswer
    ensures { (result ≡ replayed_answer (replayed (config_for plain) b.old trace.now).answer) × (b.new ≡ (replayed (config_for plain) b.old trace.now).table) }
{
    answers::replayed_answer(replay::replay(engine::config_for(plain), b, trace))
}
