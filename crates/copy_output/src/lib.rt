// What the program `copy` gives out, written into a lent area: the copy's bytes, or the line of a refusal.
// What is public is so for the program, and no entry point of the library.
#![tactic(auto)]

ghost use Rattle.std.specs.Prelude.{◌≤◌, length};
ghost use Rattle.specification.specs.Limits.{answer_area};
ghost use Rattle.specification.specs.Text.{copied};
ghost use Rattle.area.specs.Wrote.{Wrote};

use split_text::outcome_text;
use splitter::copy;

// For any bytes, a sheet or not, from the start of the area on.
pub fn write_output(out: &mut [u8], sheet: &[u8]) -> usize
    requires { answer_area ≤ length out.old }
    ensures { Wrote out.old out.new 0 (copied sheet.now) result }
{
    let called = copy(sheet, out);
    outcome_text(out, called)
}
