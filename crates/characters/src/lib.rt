// Refusal 12, over the whole text: its length, its bytes and its last line.
#![tactic(auto)]

ghost use Rattle.std.specs.Prelude.{◌≡◌};
ghost use Rattle.model.specs.Calls.{answer};
ghost use Rattle.model.specs.Answers.{checked_answer};
ghost use Rattle.model.specs.Reader.{allowed, broken_off, check_text};
ghost use Rattle.characters.specs.Given.{PassGiven};

use model::Reason;

// Bytes of a text at most.
const MAX_TEXT: usize = 65536;

// Whether the byte is one of a-z, 0-9, minus, space and line feed. The ranges are tested one after the other: one `matches!` for all looks for the
// punctuation first at each byte, and takes longer.
#[tactic(auto, unfolding(model::specs::Reader::allowed))]
fn is_allowed(b: u8) -> bool
    ensures { result ≡ allowed b }
{
    if b'a' <= b {
        b <= b'z'
    } else if b'0' <= b {
        b <= b'9'
    } else {
        matches!(b, b'-' | b' ' | b'\n')
    }
}

// Passes over the bytes, up to one that is not allowed, and counts lines.
fn check_bytes(text: &[u8]) -> Result<usize, Reason>
    ensures { PassGiven text.now result }
{
    let mut line = 1;
    for &b in text {
        if !is_allowed(b) {
            return Err(Reason::Characters { line });
        }
        if b == b'\n' {
            line += 1;
        }
    }
    Ok(line)
}

// Whether the last line has no line feed.
fn is_broken_off(text: &[u8]) -> bool
    ensures { result ≡ broken_off text.now }
{
    match text {
        [] => false,
        [.., last] => *last != b'\n',
    }
}

// Refusal 12: the length, then the bytes, then the last line.
pub fn check_text(text: &[u8]) -> Result<(), Reason>
    ensures { checked_answer result ≡ answer (check_text text.now) tt }
{
    if MAX_TEXT < text.len() {
        return Err(Reason::Characters { line: 0 });
    }
    let line = check_bytes(text)?;
    if is_broken_off(text) {
        return Err(Reason::Characters { line });
    }
    Ok(())
}
