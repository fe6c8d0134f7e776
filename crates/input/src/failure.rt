// Says on standard error why a stream failed, in the system's words.
ghost use Rattle.std.specs.Prelude.{◌≤◌, length};

use std::fmt::Write;
use std::{fmt, io};

// Bytes of a reason that are kept.
const ROOM: usize = 256;

// What stands between the system's words and the number of an error, where it is printed.
const NUMBER: &[u8] = b" (os error ";

// The first bytes of what is written.
#[derive(Drop)]
struct Reason {
    text: [u8; ROOM],
    len: usize,
    ghost within_room: { len ≤ 256 },
}

impl Write for Reason {
    fn write_str(&mut self, s: &str) -> fmt::Result {
        let n = s.len().min(ROOM - self.len);
        self.text[self.len..self.len + n].copy_from_slice(&s.as_bytes()[..n]);
        self.len += n;
        Ok(())
    }
}

// How many bytes stand before the number of an error: all, where there is none.
fn before_number(text: &[u8]) -> usize
    ensures { result ≤ length text.now }
{
    text.windows(NUMBER.len())
        .position(|part| part == NUMBER)
        .unwrap_or(text.len())
}

// Prints a line: which stream failed, a colon and the reason. Where that fails too, nothing more can be said.
pub fn say_failed(rt: &impl Eprint, stream: &str, error: io::Error) {
    let mut reason = Reason {
        text: [0; ROOM],
        len: 0,
    };
    let _ = write!(reason, "{error}");
    let len = before_number(&reason.text[..reason.len]);
    let words = str::from_utf8(&reason.text[..len]).unwrap_or("");
    let _ = eprintln!(rt; "{stream}: {words}");
}
