// The 24 bytes that open every frame, request or reply.
#![tactic(auto)]

ghost use Rattle.std.specs.Prelude.{◌≡◌, ◌≤◌, length};
ghost use Rattle.octets.specs.Parts.{pasted, written};
ghost use Rattle.header.specs.Header.{header_of, front_bytes, middle_bytes, back_bytes, header_bytes};
ghost use Rattle.header.specs.Layout.{layout_of};

use numbers::Cas;

pub const SIZE: usize = 24;

// The first byte of a request's frame.
pub const REQUEST_MAGIC: u8 = 0x80;

#[derive(Clone, Copy)]
pub struct Header {
    pub magic: u8,
    pub opcode: u8,
    pub keylen: u16,
    pub extlen: u8,
    pub datatype: u8,
    // in a reply: the status
    pub vbucket: u16,
    // the lengths of extras, key and value together
    pub body: u32,
    pub opaque: u32,
    pub cas: Cas,
}

// Where the parts of a frame stand, counted from its start.
#[derive(Clone, Copy)]
pub struct Layout {
    pub extras: usize,
    pub key: usize,
    pub value: usize,
    pub end: usize,
}

pub fn layout_of(h: Header) -> Layout
    ensures { result ≡ layout_of h }
{
    let key = SIZE + h.extlen as usize;
    Layout {
        extras: SIZE,
        key,
        value: key + h.keylen as usize,
        end: SIZE + h.body as usize,
    }
}

// The header at the start of s; what isn't there reads as empty.
pub fn read(s: &[u8]) -> Header
    ensures { result ≡ header_of s.now }
{
    Header {
        magic: octets::byte(s, 0),
        opcode: octets::byte(s, 1),
        keylen: octets::be16(s, 2),
        extlen: octets::byte(s, 4),
        datatype: octets::byte(s, 5),
        vbucket: octets::be16(s, 6),
        body: octets::be32(s, 8),
        opaque: octets::be32(s, 12),
        cas: Cas(octets::be64(s, 16)),
    }
}

fn put_front(out: &mut [u8], h: Header)
    requires { 24 ≤ length out.old }
    ensures { out.new ≡ written out.old 0 (front_bytes h) }
{
    octet_writer::put_be(out, 0, 1, h.magic as u64);
    octet_writer::put_be(out, 1, 1, h.opcode as u64);
    octet_writer::put_be(out, 2, 2, h.keylen as u64);
}

fn put_middle(out: &mut [u8], h: Header)
    requires { 24 ≤ length out.old }
    ensures { out.new ≡ written out.old 4 (middle_bytes h) }
{
    octet_writer::put_be(out, 4, 1, h.extlen as u64);
    octet_writer::put_be(out, 5, 1, h.datatype as u64);
    octet_writer::put_be(out, 6, 2, h.vbucket as u64);
}

fn put_back(out: &mut [u8], h: Header)
    requires { 24 ≤ length out.old }
    ensures { out.new ≡ written out.old 8 (back_bytes h) }
{
    octet_writer::put_be(out, 8, 4, h.body as u64);
    octet_writer::put_be(out, 12, 4, h.opaque as u64);
    octet_writer::put_be(out, 16, 8, h.cas.0);
}

// Writes a header at the start of out; where it doesn't fit, out is unchanged.
pub fn put(out: &mut [u8], h: Header)
    ensures { out.new ≡ written out.old 0 (header_bytes h) }
{
    if SIZE <= out.len() {
        put_front(out, h);
        put_middle(out, h);
        put_back(out, h);
    }
}
