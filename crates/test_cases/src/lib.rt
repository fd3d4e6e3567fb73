// What the test programs share: the cases of an input, records read from bytes, and areas that show what a call changed. It is no part of the library,
// and nothing is promised of it: what a program prints is compared with what the reference printed.
#![tactic(auto)]

use arrays::Coefs;
use polynomial::Poly;
use splitter::Outcome;
use std::io::{Read, Write};
use std::{array, io};
use streams::read_full;

// The length of the arrays of which a call is lent a part: its input, and its answer area.
pub const AREA: usize = 1024;

// The most cases of an input that are worked.
const CASES: u16 = 65535;

// Number and place, with which every line of an answer begins.
pub fn print_outcome<W: Write>(out: &mut W, number: u8, place: usize) -> io::Result<()> {
    write!(out, "{number} {place}")
}

// The coefficients, each after a blank.
pub fn print_coefficients<W: Write>(out: &mut W, coefs: &[u16]) -> io::Result<()> {
    for c in coefs {
        write!(out, " {c}")?;
    }
    Ok(())
}

// A number of two bytes, low byte first.
pub fn joined(low: u8, high: u8) -> usize {
    u16::from_le_bytes([low, high]) as usize
}

// A record: the prime and 33 coefficients of two bytes each.
pub fn record(bytes: &[u8; 67]) -> Poly {
    let coefs: Coefs = array::from_fn(|i| u16::from_le_bytes([bytes[1 + 2 * i], bytes[2 + 2 * i]]));
    Poly {
        prime: bytes[0],
        coefs,
    }
}

// An area before a call: a byte for each place.
fn fresh_area() -> [u8; AREA] {
    array::from_fn(|place| (place % 251) as u8)
}

// The first bytes of a case; none at the end of the input.
pub fn head<const N: usize, R: Read>(input: &mut R) -> Option<[u8; N]> {
    let mut bytes = [0u8; N];
    let got = read_full(input, &mut bytes);
    if got.count == N { Some(bytes) } else { None }
}

// Works the cases, of which each call says whether there was another, and says at last how many there were.
pub fn work_cases<R: Read, W: Write, F: Fn(&mut R, &mut W) -> io::Result<bool>>(
    input: &mut R,
    out: &mut W,
    work: F,
) -> io::Result<()>
    requires { F.IsAlwaysCallable work }
{
    for cases in 0..CASES {
        if !work(input, out)? {
            return print_cases(out, cases);
        }
    }
    print_cases(out, CASES)
}

// The last line.
fn print_cases<W: Write>(out: &mut W, cases: u16) -> io::Result<()> {
    writeln!(out, "cases {cases}")?;
    out.flush()
}

// Works the cases of a call: each says the length of its input and that of the answer area, and then comes the input.
pub fn work_calls<R: Read, W: Write, F: Fn(&[u8], &mut [u8]) -> Outcome>(
    input: &mut R,
    out: &mut W,
    call: F,
) -> io::Result<()>
    requires { F.IsAlwaysCallable call }
{
    work_cases(
        input,
        out,
        |input: &mut R, out: &mut W|
            requires { F.IsAlwaysCallable call }
        { work_call(input, out, &call) },
    )
}

// Fills the input and calls; a case of a length that is more than the arrays have is passed over.
fn work_call<R: Read, W: Write, F: Fn(&[u8], &mut [u8]) -> Outcome>(
    input: &mut R,
    out: &mut W,
    call: &F,
) -> io::Result<bool>
    requires { F.IsAlwaysCallable call.now }
{
    let Some(head) = head::<4, R>(input) else {
        return Ok(false);
    };
    let length = joined(head[0], head[1]);
    let room = joined(head[2], head[3]);
    if length <= AREA {
        let mut bytes = [0u8; AREA];
        read_full(input, &mut bytes[..length]);
        if room <= AREA {
            let mut area = fresh_area();
            let outcome = call(&bytes[..length], &mut area[..room]);
            print_call(out, outcome, &area)?;
        }
    }
    Ok(true)
}

// The line of a call: number, place, count, the bytes written in hexadecimal, and the word `changed` if a byte past them is not what it was.
fn print_call<W: Write>(out: &mut W, outcome: Outcome, area: &[u8; AREA]) -> io::Result<()> {
    print_outcome(out, outcome.number, outcome.place)?;
    let count = outcome.count;
    write!(out, " {count}")?;
    if 0 < count {
        out.write_all(b" ")?;
    }
    for b in area.iter().take(count) {
        write!(out, "{b:02x}")?;
    }
    let kept = area.iter().skip(count).eq(fresh_area().iter().skip(count));
    out.write_all(if kept { b"\n" } else { b" changed\n" })
}
