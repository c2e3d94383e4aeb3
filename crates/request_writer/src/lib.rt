// Writing a request: its frame is written where reading it would not refuse.
#![tactic(auto)]

ghost use Rattle.std.specs.Prelude.{◌≡◌, cond, ◌&&◌, ◌++◌, ◌+◌, ◌≤◌, length, leb};
ghost use Rattle.std.specs.declared.option.Option.TheVariants.{Some, None};
ghost use Rattle.octets.specs.Parts.{written};
ghost use Rattle.header.specs.Header.{header_bytes};
ghost use Rattle.header.specs.Layout.{layout_of};
ghost use Rattle.request_writer.specs.declared.WriteError.TheVariants.{Refused};
ghost use Rattle.request_writer.specs.Writing.{written_told, header_for, frame_bytes, writing, output_of};

use header::Header;
use outcome::Status;
use request::{Fields, LONGEST_BODY};

// Why nothing was written.
#[derive(Clone, Copy, Debug, PartialEq, Eq)]
pub enum WriteError {
    // reading the frame would refuse it, or no header holds its lengths: status 0x04
    Refused,
    // the frame is longer than the room for it: outcome 4
    NoRoom,
}

impl From<Status> for WriteError {
    ghost from_gives = { λ status error. error ≡ Refused };

    fn from(_status: Status) -> WriteError {
        WriteError::Refused
    }
}

// The header for these lengths of extras, key and value, where it holds them and the body isn't too long.
#[tactic(auto, unfolding(crate::specs::Writing::header_for))]
fn header_for(f: Fields, extras: usize, key: usize, value: usize) -> Option<Header>
    ensures { result ≡ cond (leb extras 255 && leb (extras + key + value) 1400) (Some (header_for f extras key value)) None }
{
    let extlen = u8::try_from(extras).ok()?;
    let keylen = u16::try_from(key).ok()?;
    let body = u32::try_from(extras.checked_add(key)?.checked_add(value)?).ok()?;
    if LONGEST_BODY < body {
        return None;
    }
    Some(Header {
        magic: header::REQUEST_MAGIC,
        opcode: f.opcode,
        keylen,
        extlen,
        datatype: f.datatype,
        vbucket: f.vbucket,
        body,
        opaque: f.opaque,
        cas: f.cas,
    })
}

fn put_frame(out: &mut [u8], h: Header, extras: &[u8], key: &[u8], value: &[u8])
    requires { (length extras.now ≡ h.extlen) × ((length key.now ≡ h.keylen) × ((layout_of h).value + length value.now ≤ length out.old)) }
    ensures { out.new ≡ written out.old 0 (header_bytes h ++ (extras.now ++ (key.now ++ value.now))) }
{
    let l = header::layout_of(h);
    header::put(out, h);
    octet_writer::put_bytes(out, l.extras, extras);
    octet_writer::put_bytes(out, l.key, key);
    octet_writer::put_bytes(out, l.value, value);
}

// Writes a request's frame at the start of out, where reading it would not refuse and it fits, and returns its length; else
// out is unchanged.
pub fn write(
    f: Fields,
    extras: &[u8],
    key: &[u8],
    value: &[u8],
    out: &mut [u8],
) -> Result<usize, WriteError>
    ensures { (written_told result ≡ writing f extras.now key.now value.now (length out.old))
        × (out.new ≡ output_of (written_told result) (frame_bytes f extras.now key.now value.now) out.old) }
{
    let h = header_for(f, extras.len(), key.len(), value.len()).ok_or(WriteError::Refused)?;
    rules::status(h, extras, value)?;
    let end = header::layout_of(h).end;
    if out.len() < end {
        return Err(WriteError::NoRoom);
    }
    put_frame(out, h, extras, key, value);
    Ok(end)
}
