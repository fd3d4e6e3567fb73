// Works the text that `split` prints for each of the sheets of standard input, and prints it. The cases and what must be printed are made by
// tests/reference.
#![tactic(auto)]

use split_text::{TEXT, write_text};
use std::io;
use std::io::{BufReader, BufWriter, Read, Write};
use streams::read_full;
use test_cases::{AREA, head, joined, work_cases};

// Fills a sheet from standard input and prints its text, if there is another; one of a length that is more than the array has is passed over.
fn work<R: Read, W: Write>(input: &mut R, out: &mut W) -> io::Result<bool> {
    let Some(head) = head::<2, R>(input) else {
        return Ok(false);
    };
    let length = joined(head[0], head[1]);
    if length <= AREA {
        let mut bytes = [0u8; AREA];
        let sheet = &mut bytes[..length];
        read_full(input, sheet);
        let mut text = [0u8; TEXT];
        let count = write_text(&mut text, sheet);
        out.write_all(&text[..count])?;
    }
    Ok(true)
}

fn main(rt: HostRuntime) -> io::Result<()> {
    let mut input = BufReader::new(rt.alloc(), rt.reader())?;
    let mut out = BufWriter::new(rt.alloc(), io::writer(&rt))?;
    work_cases(&mut input, &mut out, work)
}
