// Makes sheets of the typed lines of standard input and prints a line for each: number, place, count and the sheet's bytes.
// The cases and what must be printed are made by tests/reference.
#![tactic(auto)]

use std::io;
use std::io::{BufReader, BufWriter};
use test_cases::work_calls;

fn main(rt: HostRuntime) -> io::Result<()> {
    let mut input = BufReader::new(rt.alloc(), rt.reader())?;
    let mut out = BufWriter::new(rt.alloc(), io::writer(&rt))?;
    work_calls(&mut input, &mut out, splitter::typed)
}
