// Reads a text from standard input into a lent buffer.
#![tactic(auto)]

mod failure;

ghost use Rattle.std.specs.Prelude.{◌≡◌, suc, length, IfOk};
ghost use Rattle.model.specs.Limits.{max_text};
ghost use Rattle.input.specs.Reading.{ReadInto};

pub use failure::say_failed;
use std::io;
use std::io::Read;

// One byte more than a text may have, so that a longer one is seen to be longer.
pub const TEXT_ROOM: usize = 65537;

// Reads standard input, which the reader is, into the buffer, which has a byte more than the longest text, until the buffer is full or the input ends, and
// returns how many bytes were read. A read that fails ends it.
pub fn read_input<R: Read>(reader: &mut R, text: &mut [u8]) -> io::Result<usize>
    requires { length text.old ≡ suc max_text }
    ensures { IfOk result (ReadInto (R.remaining reader.old) (R.remaining reader.new) text.new) }
{
    let mut at = 0;
    while at < text.len() {
        let n = reader.read(&mut text[at..])?;
        if n == 0 {
            break;
        }
        at += n;
    }
    Ok(at)
}

#[cfg(test)]
mod tests {
    use super::*;
    use std::test::Fail;

    // Gives one byte a read, so many times, and then fails.
    #[derive(Drop)]
    struct Breaking {
        left: usize,
    }

    impl Read for Breaking {
        fn read(&mut self, buf: &mut [u8]) -> io::Result<usize> {
            if self.left == 0 {
                return Err(io::Error::other("broken"));
            }
            if buf.is_empty() {
                return Ok(0);
            }
            self.left -= 1;
            buf[0] = b'x';
            Ok(1)
        }
    }

    #[test]
    fn reads_to_the_end_of_the_input(rt: HostRuntime) -> Result<(), Fail> {
        let mut text = [0u8; TEXT_ROOM];
        let mut reader: &[u8] = b"a text";
        assert!(rt; matches!(read_input(&mut reader, &mut text), Ok(6)));
        assert_eq!(rt; &text[..7], b"a text\0".as_slice());
        Ok(())
    }

    #[test]
    fn tells_a_read_that_fails_after_others(rt: HostRuntime) -> Result<(), Fail> {
        let mut text = [0u8; TEXT_ROOM];
        assert!(rt; matches!(read_input(&mut Breaking { left: 3 }, &mut text), Err(_)));
        assert!(rt;
            matches!(
                read_input(&mut Breaking { left: TEXT_ROOM }, &mut text),
                Ok(65537)
            )
        );
        Ok(())
    }
}
