// What is printed of requests.
use numbers::Numbers;
use request::{Fields, Frame, Span};
use vector_text::show::{decimal, hexadecimal, text};
use with_meta::WithMeta;

fn span(name: &[u8], p: Span) {
    decimal(name, p.at as u64);
    decimal(b"+", p.len as u64);
}

fn fields(f: Fields) {
    hexadecimal(b" opcode=", u64::from(f.opcode), 2);
    hexadecimal(b" datatype=", u64::from(f.datatype), 2);
    hexadecimal(b" vbucket=", u64::from(f.vbucket), 4);
    hexadecimal(b" opaque=", u64::from(f.opaque), 8);
    hexadecimal(b" cas=", f.cas.0, 16);
}

pub(crate) fn frame(f: Frame) {
    text(b"request");
    fields(f.fields);
    span(b" extras=", f.extras);
    span(b" key=", f.key);
    span(b" value=", f.value);
    decimal(b" meta=", f.meta as u64);
}

fn numbers(n: Numbers) {
    hexadecimal(b" flags=", u64::from(n.flags), 8);
    hexadecimal(b" expiry=", u64::from(n.expiry), 8);
    hexadecimal(b" revision=", n.revision.0, 16);
    hexadecimal(b" cas=", n.cas.0, 16);
}

pub(crate) fn with_meta(w: WithMeta) {
    text(b" with-meta");
    numbers(w.numbers);
    hexadecimal(b" options=", u64::from(w.options), 8);
    decimal(b" section=", u64::from(w.section));
}
