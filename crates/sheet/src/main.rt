// The program `sheet`: reads one typed line from standard input and gives out its sheet, or the line of its refusal.
// What it gives out is `SheetSent` of the bytes of its input (specification, Text), by the contract of `run`.
#![tactic(auto)]

ghost use Rattle.std.specs.Prelude.{◌≡◌, true, IfSome, List, ℕ};
ghost use Rattle.std.specs.Io.KnownBytes.{Appends};
ghost use Rattle.specification.specs.Text.{SheetSent};

use sheet_output::write_output;
use splitter::AREA;
use std::io;
use std::io::{Read, Write};

// Whether nothing failed: then the writer has got the sheet, or the refusal, of all that the reader had.
fn run<R: Read, W: Write>(input: &mut R, out: &mut W) -> bool
    ensures { result ≡ true → IfSome (R.remaining input.old) (λ xs. (bytes : List ℕ) × SheetSent xs bytes × Appends (W.contents out.old) (W.contents out.new) bytes) }
{
    // A line of more than 255 bytes is turned back as such, so that 256 decide (sheet_output, `sent_prefix`).
    let mut line = [0u8; 256];
    let mut area = [0u8; AREA];
    streams::run(input, out, &mut line, &mut area, write_output)
}

// A failed read ends the input, and a failed write is passed over: the program ends as it does else.
fn main(rt: HostRuntime) {
    run(&mut rt.reader(), &mut io::writer(&rt));
}
