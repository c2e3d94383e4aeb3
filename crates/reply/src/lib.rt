// A reply's bytes: written at the start of the reply area, from a decision or, for a frame that was refused, from its status alone.
#![tactic(auto)]

ghost use Rattle.std.specs.Prelude.{◌≡◌, cond, [], ◌++◌, ◌+◌, ◌≤◌, length};
ghost use Rattle.octets.specs.Parts.{written};
ghost use Rattle.octets.specs.BigEndian.{bytes_of};
ghost use Rattle.decision.specs.Decide.{reply_extras, reply_key};
ghost use Rattle.header.specs.Header.{header_bytes};
ghost use Rattle.serving.specs.Reply.{body_of, header_with, reply_header, reply_bytes};
ghost use Rattle.reply.specs.Fitting.{fitting_reply, bare_header};

use decision::DecisionCode;
use effects::Reply;
use header::Header;
use numbers::Cas;
use serving::ROOM;

fn shown_key(keyed: bool, key: &[u8]) -> &[u8]
    ensures { result.now ≡ cond keyed key.now [] }
{
    if keyed { key } else { &key[..0] }
}

// Flags, key and value from byte 24 on, and their length.
fn put_found(out: &mut [u8], flags: u32, key: &[u8], old: &[u8]) -> usize
    requires { (1302 ≤ length out.old) × ((length key.now ≤ 250) × (length old.now ≤ 1024)) }
    ensures { (result ≡ 4 + length key.now + length old.now)
        × (out.new ≡ written out.old 24 (bytes_of 4 flags ++ (key.now ++ old.now))) }
{
    let k = key.len();
    octet_writer::put_be(out, 24, 4, flags as u64);
    octet_writer::put_bytes(out, 28, key);
    octet_writer::put_bytes(out, 28 + k, old);
    4 + k + old.len()
}

// Extras, key and value from byte 24 on, and their length.
fn put_body(out: &mut [u8], r: Reply, key: &[u8], shown: &[u8]) -> usize
    requires { (1302 ≤ length out.old) × ((length key.now ≤ 250) × (length shown.now ≤ 1024)) }
    ensures { (result ≡ length (body_of r key.now shown.now))
        × (out.new ≡ written out.old 24 (body_of r key.now shown.now)) }
{
    match r {
        Reply::Bare => 0,
        Reply::Found(flags, keyed) => put_found(out, flags, shown_key(keyed, key), shown),
        Reply::Counted(n) => {
            octet_writer::put_be(out, 24, 8, n);
            8
        }
        Reply::Version => {
            octet_writer::put_bytes(out, 24, b"4.0.0");
            5
        }
        Reply::Keys(_) => {
            octet_writer::put_bytes(out, 24, shown);
            shown.len()
        }
    }
}

fn extras_size(r: Reply) -> u8
    ensures { result ≡ length (reply_extras r) }
{
    match r {
        Reply::Found(_, _) => 4,
        _ => 0,
    }
}

fn key_size(r: Reply, key: &[u8]) -> usize
    ensures { result ≡ length (reply_key r key.now) }
{
    match r {
        Reply::Found(_, keyed) => shown_key(keyed, key).len(),
        _ => 0,
    }
}

// The header of every reply. The status stands in place of the vbucket.
fn header_with(
    op: u8,
    opaque: u32,
    status: u8,
    keylen: u16,
    extlen: u8,
    body: u32,
    cas: Cas,
) -> Header
    ensures { result ≡ header_with op opaque status keylen extlen body cas }
{
    Header {
        magic: 0x81,
        opcode: op,
        keylen,
        extlen,
        datatype: 0,
        vbucket: status as u16,
        body,
        opaque,
        cas,
    }
}

fn reply_header<D: DecisionCode>(
    op: u8,
    opaque: u32,
    d: D,
    key: &[u8],
    old: &[u8],
    body: usize,
) -> Header
    requires { (length key.now ≤ 250)
        × ((length old.now ≤ 1024) × (body ≡ length (body_of (D.told d).done.reply key.now old.now))) }
    ensures { result ≡ reply_header op opaque (D.told d) key.now old.now }
{
    let status = d.status();
    let r = d.reply();
    let k = key_size(r, key) as u16;
    let e = extras_size(r);
    header_with(op, opaque, status, k, e, body as u32, d.cas())
}

fn put_fitting<D: DecisionCode>(
    out: &mut [u8],
    op: u8,
    opaque: u32,
    d: D,
    key: &[u8],
    old: &[u8],
) -> usize
    requires { (1302 ≤ length out.old) × ((length key.now ≤ 250) × (length old.now ≤ 1024)) }
    ensures { (result ≡ length (reply_bytes op opaque (D.told d) key.now old.now))
        × (out.new ≡ written out.old 0 (reply_bytes op opaque (D.told d) key.now old.now)) }
{
    if d.silent() {
        return 0;
    }
    let n = put_body(out, d.reply(), key, old);
    header::put(out, reply_header(op, opaque, d, key, old, n));
    24 + n
}

// Writes a decision's reply and answers its length, 0 where the frame is silent. old: the stored value. Nothing where the
// key is over 250 bytes, the value over 1,024 or the room under 1,302.
pub fn put_reply<D: DecisionCode>(
    out: &mut [u8],
    op: u8,
    opaque: u32,
    d: D,
    key: &[u8],
    old: &[u8],
) -> usize
    ensures { (result ≡ length (fitting_reply (length out.old) op opaque (D.told d) key.now old.now))
        × (out.new ≡ written out.old 0 (fitting_reply (length out.old) op opaque (D.told d) key.now old.now)) }
{
    if (out.len() < ROOM) | (key.len() > 250) | (old.len() > 1024) {
        return 0;
    }
    put_fitting(out, op, opaque, d, key, old)
}

// Writes a bare header with a status, 24 bytes, where they fit. The status is the number that stands in the header: this took any, and takes any.
pub fn put_bare(out: &mut [u8], op: u8, opaque: u32, status: u8)
    ensures { out.new ≡ written out.old 0 (header_bytes (bare_header op opaque status)) }
{
    header::put(out, header_with(op, opaque, status, 0, 0, 0, Cas(0)));
}

// Writes the header of a reply whose value of so many bytes stands after it already. The status is a number, as above.
pub fn put_value_header(out: &mut [u8], op: u8, opaque: u32, status: u8, size: u32, cas: Cas)
    ensures { out.new ≡ written out.old 0 (header_bytes (header_with op opaque status 0 0 size cas)) }
{
    header::put(out, header_with(op, opaque, status, 0, 0, size, cas));
}
