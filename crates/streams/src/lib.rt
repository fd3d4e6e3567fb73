// What the programs share: a buffer filled from a reader, and the run of a program. A read that fails stops no program: it ends the input.
#![tactic(auto)]

ghost use Rattle.std.specs.Prelude.{◌≡◌, ◌<◌, ◌≤◌, length, take, false, true};
ghost use Rattle.std.specs.Io.KnownBytes.{Consumes, IsAtEnd};
ghost use Rattle.streams.specs.Written.{AllRead, Written};

use std::io::{Read, Write};

// How many bytes stand at the start of the buffer, and whether a read failed after them.
#[derive(Clone, Copy)]
pub struct Filled {
    pub count: usize,
    pub failed: bool,
}

// Reads until the buffer is full, the input ends or a read fails. No byte that the reader gave is lost, and none stands twice or in another order; a
// buffer that is not full holds the input to its end, unless a read failed.
pub fn read_full<R: Read>(reader: &mut R, buf: &mut [u8]) -> Filled
    ensures count { result.count ≤ length buf.new }
    ensures bytes { Consumes (R.remaining reader.old) (R.remaining reader.new) (take result.count buf.new) }
    ensures end { result.failed ≡ false → result.count < length buf.new → IsAtEnd (R.remaining reader.new) }
{
    let mut done = 0;
    while done < buf.len() {
        match reader.read(&mut buf[done..]) {
            Ok(0) => {
                return Filled {
                    count: done,
                    failed: false,
                };
            }
            Ok(n) => done += n,
            Err(_) => {
                return Filled {
                    count: done,
                    failed: true,
                };
            }
        }
    }
    Filled {
        count: done,
        failed: false,
    }
}

// Fills the buffer from the reader, has `work` write into the area what is made of the bytes, and gives out as many bytes of the area as it says. Whether
// nothing failed.
pub fn run<R: Read, W: Write, F: Fn(&mut [u8], &[u8]) -> usize>(
    input: &mut R,
    out: &mut W,
    buf: &mut [u8],
    area: &mut [u8],
    work: F,
) -> bool
    requires callable { (a : _) (bytes : _) → length a.now ≡ length area.old → F.pre work a bytes }
    requires within { (a : _) (bytes : _) (n : _) (left : _) → F.post work a bytes n left → n ≤ length left.now }
    ensures { result ≡ true → (count : _) × AllRead (R.remaining input.old) (R.remaining input.new) buf.new count
        × Written (F.post work) (take count buf.new) (W.contents out.old) (W.contents out.new) }
{
    let got = read_full(input, buf);
    let count = work(area, &buf[..got.count]);
    match out.write_all(&area[..count]) {
        Ok(()) => !got.failed,
        Err(_) => false,
    }
}
