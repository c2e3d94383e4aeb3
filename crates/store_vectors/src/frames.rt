// Frames served, and their counts.
use crate::show;
use crate::store::{FILL, Store};
use outcome::Refusal;
use serving::Served;
use vector_text::bytes;
use vector_text::show::{decimal, hexadecimal, octets, text};

// Whether the area is as it was from a place on.
fn show_past(replies: &[u8], len: usize) {
    if bytes::are_all(octets::rest(replies, len), FILL) {
        text(b" past kept");
    } else {
        text(b" past CHANGED");
    }
}

fn show_served(answer: Result<Served, Refusal>, replies: &[u8]) {
    match answer {
        Ok(served) => {
            let status = outcome::status_of(served.status);
            hexadecimal(b"status ", u64::from(status), 2);
            decimal(b" used ", served.used as u64);
            decimal(b" reply ", served.reply as u64);
            text(b" ");
            octets(octets::part(replies, 0, served.reply));
            show_past(replies, served.reply);
        }
        Err(refusal) => {
            decimal(b"outcome ", u64::from(refusal.number()));
            decimal(b" needs ", refusal.needed() as u64);
            show_past(replies, 0);
        }
    }
}

impl Store<'_> {
    // Serves the frame at the start of the bytes, prints the answer, and hands on how many bytes were consumed: none where it is refused.
    pub(crate) fn serve(&mut self, clock: u32, frame: &[u8]) -> usize {
        self.replies.fill(FILL);
        let answer = serve::serve_one(self.config, self.table, clock, frame, self.replies);
        show_served(answer, self.replies);
        show::table(self.table);
        self.tally = tally::counted(self.tally, answer);
        answer.map_or(0, |served| served.used)
    }

    // Serves frame after frame, a line for each, until one is refused.
    pub(crate) fn run(&mut self, clock: u32, frames: &[u8]) {
        let mut left = frames;
        loop {
            let used = self.serve(clock, left);
            if used == 0 || left.len() < used {
                return;
            }
            text(b"\n");
            left = &left[used..];
        }
    }
}
