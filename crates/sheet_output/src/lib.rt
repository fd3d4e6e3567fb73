// What the program `sheet` gives out, written into a lent area: the bytes of a line's sheet, or the line of a refusal.
// What is public is so for the program, and no entry point of the library.
#![tactic(auto)]

ghost use Rattle.std.specs.Prelude.{◌≤◌, length};
ghost use Rattle.specification.specs.Limits.{answer_area};
ghost use Rattle.sheet_output.specs.Sent.{Sent};

use split_text::outcome_text;
use splitter::typed;

// For any bytes, a line or not, from the start of the area on.
pub fn write_output(out: &mut [u8], line: &[u8]) -> usize
    requires { answer_area ≤ length out.old }
    ensures { Sent line.now out.old out.new result }
{
    let called = typed(line, out);
    outcome_text(out, called)
}
