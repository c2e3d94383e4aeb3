// Decides the requests that lines of standard input describe, and prints each line with its answer:
//
//     # ..                                  a heading; it and an empty line have no answer
//     head STATE MODE VBUCKET MARK          sets the table's head: state 1 to 4, mode 1 revision, 2 last-write-wins
//     row none                              sets the key's row: the key has none,
//     row tomb REVISION CAS                 a tombstone,
//     row doc FLAGS EXPIRY REVISION CAS 'VALUE'   or a document
//     size SIZE                             sets the stored value's size, its bytes aside
//     free yes | free no                    sets whether a row is free
//     clock SECONDS                         sets the clock
//     COMMAND VBUCKET CAS ..                a request with this header, answered by what is decided on all of this
//     quiet COMMAND ..                      the same request in its quiet form
//
// The commands, and what follows their CAS: get, getk, noop, version and delete nothing; set, add and replace FLAGS EXPIRY SIZE, the
// size of the value; incr and decr DELTA INITIAL EXPIRY; setm, addm and delm, the with-meta writes, FLAGS EXPIRY REVISION CAS OPTIONS
// SIZE; append and prepend SIZE; touch and gat, Get-and-touch, EXPIRY. Numbers are decimal, or hexadecimal after 0x, and count by as many low bits as their field has. A request changes nothing for the
// next line. Any other line is answered by `what?`.
#![tactic(auto)]

mod requests;
mod setting;
mod show;
mod words;

use commands::Context;
use vector_text::parts::lines;
use vector_text::show::text;

fn answer_request(line: &[u8], t: Context) {
    match requests::read(line) {
        Some(request) => {
            text(b": ");
            show::decision(t.head, decision::decide(t, request));
        }
        None => text(b": what?"),
    }
}

// Answers a line, and hands on what the next is decided on.
fn answer_line(line: &[u8], t: Context) -> Context {
    text(line);
    if line.is_empty() || line.starts_with(b"#") {
        return t;
    }
    if let Some(changed) = setting::changed(line, t) {
        return changed;
    }
    answer_request(line, t);
    t
}

fn answer_lines(input: &[u8]) {
    let mut t = setting::first();
    for line in lines(input) {
        t = answer_line(line, t);
        text(b"\n");
    }
}

fn main() {
    let mut input = io::large_buffer();
    let n = io::read_full(0, &mut input);
    answer_lines(&input[..n]);
}
