// Reads input into memory that the caller lends.
#![tactic(auto)]

ghost use Rattle.std.specs.Prelude.{◌≤◌, ◌<◌, length, take, IfOk};
ghost use Rattle.std.specs.Io.KnownBytes.{Consumes, IsAtEnd};

use std::io;
use std::io::Read;

// Reads until the memory is full or the input ends. Answers how many bytes were put at its start.
pub fn read_full<R: Read>(input: &mut R, buf: &mut [u8]) -> io::Result<usize>
    ensures count { IfOk result (λ n. n ≤ length buf.new) }
    ensures bytes { IfOk result (λ n. Consumes (R.remaining input.old) (R.remaining input.new) (take n buf.new)) }
    ensures end { IfOk result (λ n. n < length buf.new → IsAtEnd (R.remaining input.new)) }
{
    let mut done = 0;
    while done < buf.len() {
        let n = input.read(&mut buf[done..])?;
        if n == 0 {
            return Ok(done);
        }
        done += n;
    }
    Ok(done)
}

#[cfg(test)]
mod tests {
    use super::*;
    use std::test::Fail;

    // two reads give five bytes, and a third says that it ends
    #[test]
    fn reads_on_to_the_end(rt: HostRuntime) -> Result<(), Fail> {
        let mut input = (&b"ab"[..]).chain(&b"cde"[..]);
        let mut buf = [0u8; 8];
        let n = read_full(&mut input, &mut buf)?;
        assert_eq!(rt; n, 5);
        assert_eq!(rt; buf, *b"abcde\0\0\0");
        Ok(())
    }

    #[test]
    fn leaves_what_has_no_room(rt: HostRuntime) -> Result<(), Fail> {
        let mut input = (&b"ab"[..]).chain(&b"cde"[..]);
        let mut buf = [0u8; 4];
        let n = read_full(&mut input, &mut buf)?;
        assert_eq!(rt; n, 4);
        assert_eq!(rt; buf, *b"abcd");
        let n = read_full(&mut input, &mut buf)?;
        assert_eq!(rt; n, 1);
        assert_eq!(rt; buf, *b"ebcd");
        Ok(())
    }
}
