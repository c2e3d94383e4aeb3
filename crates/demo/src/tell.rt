// What is printed: texts, and lines whose parts stand in columns.
use header::Header;
use outcome::{Refusal, Status};
use serving::Served;

pub(crate) fn text(s: &[u8]) {
    io::write_all(1, s);
}

// A line, and where it goes on.
#[derive(Drop)]
pub(crate) struct Line {
    bytes: [u8; 128],
    end: usize,
}

fn digit(n: u32) -> u8 {
    b'0' + (n % 10) as u8
}

fn is_counter(opcode: u8) -> bool {
    matches!(opcode, 0x05 | 0x06 | 0x15 | 0x16)
}

impl Line {
    // A line that goes on at a column.
    pub(crate) fn at(column: usize) -> Line {
        Line {
            bytes: [b' '; 128],
            end: column,
        }
    }

    // Goes on at a column.
    pub(crate) fn go_to(&mut self, column: usize) {
        self.end = column;
    }

    // Puts a text. One that doesn't fit is left out.
    pub(crate) fn put(&mut self, s: &[u8]) {
        if octets::fits(self.bytes.len(), self.end, s.len()) {
            octet_writer::put_bytes(&mut self.bytes, self.end, s);
            self.end += s.len();
        }
    }

    pub(crate) fn put_at(&mut self, column: usize, s: &[u8]) {
        self.go_to(column);
        self.put(s);
    }

    pub(crate) fn tell(&self) {
        text(octets::part(&self.bytes, 0, self.end));
        text(b"\n");
    }

    pub(crate) fn put_number(&mut self, n: u64) {
        let mut spelled = [0u8; 20];
        let k = io::decimal(n, &mut spelled);
        self.put(&spelled[..k]);
    }

    // The last three digits of a number, after a comma.
    fn put_three(&mut self, n: u32) {
        self.put(&[b',', digit(n / 100), digit(n / 10), digit(n)]);
    }

    // A clock of a million seconds or more, its thousands set apart.
    pub(crate) fn put_clock(&mut self, clock: u32) {
        self.put_number(u64::from(clock / 1000000));
        self.put_three(clock / 1000);
        self.put_three(clock);
    }

    fn put_hex(&mut self, n: u8) {
        let mut spelled = [0u8; 16];
        let k = io::hex(u64::from(n), 2, &mut spelled);
        self.put(b"0x");
        self.put(&spelled[..k]);
    }

    // A status: its number, and what it means to who asked.
    pub(crate) fn put_status(&mut self, status: Result<(), Status>) {
        self.put_hex(outcome::status_of(status));
        match status {
            Ok(()) => self.put(b" done"),
            Err(Status::NotFound) => self.put(b" no such contact"),
            Err(Status::Exists) => self.put(b" what is held stands"),
            Err(Status::NotStored) => self.put(b" nothing to join it to"),
            Err(_) => self.put(b" refused"),
        }
    }

    pub(crate) fn put_refusal(&mut self, refusal: Refusal) {
        self.put(b"not served, outcome ");
        self.put_number(u64::from(refusal.number()));
    }

    pub(crate) fn put_found(&mut self, found: &[u8]) {
        self.put(b": ");
        self.put(found);
    }

    // How long a contact is still good, or how long ago it expired.
    pub(crate) fn put_left(&mut self, left: Option<i64>) {
        match left {
            None => self.put(b"never expires"),
            Some(n) => {
                self.put_number(numbers::magnitude(n));
                if n <= 0 {
                    self.put(b" s past");
                } else {
                    self.put(b" s left");
                }
            }
        }
    }

    // The key and the value that a reply brings, if any. A counter's value is a number of eight bytes.
    fn put_brought(&mut self, sent: &[u8], h: Header) {
        let key = request::bytes_in(sent, request::key_span(h));
        let value = request::bytes_in(sent, request::value_span(h));
        if value.is_empty() {
            return;
        }
        if is_counter(h.opcode) {
            self.put(b": ");
            self.put_number(octets::be64(value, 0));
            return;
        }
        if !key.is_empty() {
            self.put_found(key);
        }
        self.put_found(value);
    }

    fn put_done(&mut self, status: Result<(), Status>, sent: &[u8]) {
        self.put_status(status);
        if sent.is_empty() {
            self.put(b", nothing sent");
        } else {
            self.put_brought(sent, header::read(sent));
        }
    }

    // The answer to a request, as it was served.
    pub(crate) fn put_answer(&mut self, answer: Result<Served, Refusal>, reply: &[u8]) {
        match answer {
            Ok(served) => self.put_done(served.status, octets::part(reply, 0, served.reply)),
            Err(refusal) => self.put_refusal(refusal),
        }
    }
}
