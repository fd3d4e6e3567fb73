// Looks for the parts of the records of standard input and prints a line for each: number, place, then every part with its verdict, base and
// factors. A record that is not proper has number 10, a polynomial that is not monic 13 and one of degree 0 has 5, at place 0 and with no parts. The
// cases and what must be printed are made by tests/reference.
#![tactic(auto)]

ghost use Rattle.std.specs.Prelude.{OnOk};
ghost use Rattle.parts.specs.PowersFound.{PowersFound};
ghost use Rattle.polynomial.specs.AsRecord.{as_record};
ghost use Rattle.test_parts.specs.HasParts.{HasParts};

use arrays::{Coefs, size};
use modp_factors::Powers;
use part_verdict::{Factor, Part, Verdict};
use parts::{next_part, powers_of};
use polynomial::{Poly, leading, proper};
use refusals::Refusal;
use std::io;
use std::io::{BufReader, BufWriter, Read, Write};
use test_cases::{head, print_coefficients, print_outcome, record, work_cases};

// ` :` and the coefficients of a polynomial of the degree.
fn print_polynomial<W: Write>(out: &mut W, coefs: Coefs, degree: usize) -> io::Result<()> {
    write!(out, " :")?;
    print_coefficients(out, &coefs[..degree % 33 + 1])
}

// ` ; times : factor`.
fn print_factor<W: Write>(out: &mut W, factor: Factor) -> io::Result<()> {
    let times = factor.times;
    write!(out, " ; {times}")?;
    print_polynomial(out, factor.coefs, factor.degree)
}

// ` 1`, ` 2` or ` 3`, or ` 4` and m1.
fn print_verdict<W: Write>(out: &mut W, verdict: Verdict) -> io::Result<()> {
    match verdict {
        Verdict::Basic => write!(out, " 1"),
        Verdict::Solid => write!(out, " 2"),
        Verdict::Power => write!(out, " 3"),
        Verdict::Split(m1) => write!(out, " 4 {m1}"),
    }
}

// ` | degree power verdict : base`, and the one or two factors.
fn print_part<W: Write>(out: &mut W, part: Part) -> io::Result<()> {
    let degree = part.degree;
    let exponent = part.exponent;
    write!(out, " | {degree} {exponent}")?;
    print_verdict(out, part.verdict)?;
    print_polynomial(out, part.base, degree)?;
    print_factor(out, part.first)?;
    match part.second {
        Some(second) => print_factor(out, second),
        None => Ok(()),
    }
}

fn print_parts<W: Write>(out: &mut W, f: Coefs, d: usize, p: u16, found: &Powers) -> io::Result<()>
    requires { PowersFound p f d found.now }
{
    let mut rest = f;
    let mut e = d;
    let powers = found.as_slice();
    for x in powers {
        let next = next_part(rest, e, *x, p);
        print_part(out, next.part)?;
        rest = next.rest;
        e = next.degree;
    }
    Ok(())
}

// Whether the record has parts.
fn judged(a: Poly) -> Result<(), Refusal>
    ensures { OnOk result (HasParts (as_record a)) }
{
    if !proper(a) {
        return Err(Refusal::NotProper);
    }
    if leading(a.coefs) != 1 {
        return Err(Refusal::DivisorNotMonic);
    }
    if size(a.coefs) == 1 {
        return Err(Refusal::WrongDegree);
    }
    Ok(())
}

// The line of a record.
fn print_record<W: Write>(out: &mut W, a: Poly) -> io::Result<()> {
    match judged(a) {
        Ok(()) => {
            print_outcome(out, 0, 0)?;
            let f = a.coefs;
            let d = size(f) - 1;
            let p = a.prime as u16;
            let found = powers_of(f, d, p);
            print_parts(out, f, d, p, &found)?;
        }
        Err(why) => print_outcome(out, why.into(), 0)?,
    }
    writeln!(out)
}

// Works a record, if there is another.
fn work<R: Read, W: Write>(input: &mut R, out: &mut W) -> io::Result<bool> {
    let Some(bytes) = head(input) else {
        return Ok(false);
    };
    print_record(out, record(&bytes))?;
    Ok(true)
}

fn main(rt: HostRuntime) -> io::Result<()> {
    let mut input = BufReader::new(rt.alloc(), rt.reader())?;
    let mut out = BufWriter::new(rt.alloc(), io::writer(&rt))?;
    work_cases(&mut input, &mut out, work)
}
