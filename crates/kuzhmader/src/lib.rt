// The library for C: the calls of the header `kuzhmader.h`, where a slice is a pointer and a length. None has a `requires`.
// Each has the contract of the call that it stands for: the number, the place, the count and every byte of the area.
#![tactic(auto)]

ghost use Rattle.std.specs.Prelude.{length};
ghost use Rattle.specification.specs.Calls.{split_call, read_call};
ghost use Rattle.specification.specs.Copy.{copy_call};
ghost use Rattle.splitter.specs.Outcomes.{Called, TypedCall};

use splitter::Outcome;

// `splitter::split` for C.
#[unsafe(no_mangle)]
pub extern "C" fn kuzhmader_split(sheet: &[u8], area: &mut [u8]) -> Outcome
    ensures { Called (split_call (length area.old) sheet.now) result area.old area.new }
{
    splitter::split(sheet, area)
}

// `splitter::read` for C.
#[unsafe(no_mangle)]
pub extern "C" fn kuzhmader_read(bytes: &[u8], area: &mut [u8]) -> Outcome
    ensures { Called (read_call (length area.old) bytes.now) result area.old area.new }
{
    splitter::read(bytes, area)
}

// `splitter::copy` for C.
#[unsafe(no_mangle)]
pub extern "C" fn kuzhmader_copy(sheet: &[u8], area: &mut [u8]) -> Outcome
    ensures { Called (copy_call (length area.old) sheet.now) result area.old area.new }
{
    splitter::copy(sheet, area)
}

// `splitter::typed` for C.
#[unsafe(no_mangle)]
pub extern "C" fn kuzhmader_typed(line: &[u8], area: &mut [u8]) -> Outcome
    ensures { TypedCall line.now result area.old area.new }
{
    splitter::typed(line, area)
}
