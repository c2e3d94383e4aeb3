// A boat's table, and requests on it: each is written as a frame, and the frame is served.
use engine::Config;
use numbers::Cas;
use outcome::Refusal;
use request::Fields;
use serving::Served;

const ACTIVE: u8 = 1;

const BY_REVISION: u8 = 1;

const VBUCKET: u16 = 7;

pub(crate) const ROWS: usize = 4;
// What a table of so many rows needs, and what a reply may need.
pub(crate) const SIZE: usize = rows::HEADER + ROWS * rows::ROW;

pub(crate) const ROOM: usize = serving::ROOM;

// When a request is served, and what its header says.
#[derive(Clone, Copy)]
pub(crate) struct Call {
    pub(crate) clock: u32,
    pub(crate) opcode: u8,
    pub(crate) cas: Cas,
}

// The engine of every boat: rows in key order.
pub(crate) fn config() -> Config {
    engine::config_for(false)
}

pub(crate) fn fresh(boat: &mut [u8]) {
    let _ = owner::make(boat, ROWS, ACTIVE, BY_REVISION, VBUCKET);
}

// Serves a request with these parts. Parts that the writer refuses make no frame, and serving says that there is none.
pub(crate) fn send(
    boat: &mut [u8],
    call: Call,
    extras: &[u8],
    key: &[u8],
    value: &[u8],
    reply: &mut [u8],
) -> Result<Served, Refusal> {
    let fields = Fields {
        opcode: call.opcode,
        datatype: 0,
        vbucket: VBUCKET,
        opaque: 0,
        cas: call.cas,
    };
    let mut frame = [0u8; 256];
    let len = request_writer::write(fields, extras, key, value, &mut frame).unwrap_or(0);
    serve::serve_one(
        config(),
        boat,
        call.clock,
        octets::part(&frame, 0, len),
        reply,
    )
}
