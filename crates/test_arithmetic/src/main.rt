// Works the cases of standard input with the public arithmetic and prints a line for each: number, place and the record or records
// given back. The cases and what must be printed are made by tests/reference.
#![tactic(auto)]

use polynomial::{Answer, Division, Poly};
use std::io;
use std::io::{BufReader, BufWriter, Read, Write};
use streams::read_full;
use test_cases::{head, print_coefficients, print_outcome, record, work_cases};

// The prime and the 33 coefficients.
fn print_record<W: Write>(out: &mut W, a: Poly) -> io::Result<()> {
    let prime = a.prime;
    write!(out, " {prime}")?;
    print_coefficients(out, &a.coefs)
}

fn print_answer<W: Write>(out: &mut W, a: Answer) -> io::Result<()> {
    print_outcome(out, a.number, a.place)?;
    print_record(out, a.poly)?;
    writeln!(out)
}

fn print_division<W: Write>(out: &mut W, a: Division) -> io::Result<()> {
    print_outcome(out, a.number, a.place)?;
    print_record(out, a.quotient)?;
    write!(out, " |")?;
    print_record(out, a.remainder)?;
    writeln!(out)
}

// What a case asks for: a polynomial of the first record's prime, or the two records worked together.
enum Operation {
    Zero,
    One,
    X,
    Sum,
    Difference,
    Product,
    Division,
}

// The number that a case has for it; all from 6 on divide.
impl From<u8> for Operation {
    fn from(number: u8) -> Operation {
        match number {
            0 => Operation::Zero,
            1 => Operation::One,
            2 => Operation::X,
            3 => Operation::Sum,
            4 => Operation::Difference,
            5 => Operation::Product,
            _ => Operation::Division,
        }
    }
}

fn print_result<W: Write>(out: &mut W, operation: Operation, a: Poly, b: Poly) -> io::Result<()> {
    match operation {
        Operation::Zero => print_answer(out, Poly::zero(a.prime)),
        Operation::One => print_answer(out, Poly::one(a.prime)),
        Operation::X => print_answer(out, Poly::x(a.prime)),
        Operation::Sum => print_answer(out, polynomial::add(a, b)),
        Operation::Difference => print_answer(out, polynomial::sub(a, b)),
        Operation::Product => print_answer(out, polynomial::mul(a, b)),
        Operation::Division => print_division(out, polynomial::divide(a, b)),
    }
}

// Works a case, if there is another.
fn work<R: Read, W: Write>(input: &mut R, out: &mut W) -> io::Result<bool> {
    let mut operation = [0u8; 1];
    let mut a = [0u8; 67];
    read_full(input, &mut operation);
    read_full(input, &mut a);
    let Some(b) = head(input) else {
        return Ok(false);
    };
    print_result(out, operation[0].into(), record(&a), record(&b))?;
    Ok(true)
}

fn main(rt: HostRuntime) -> io::Result<()> {
    let mut input = BufReader::new(rt.alloc(), rt.reader())?;
    let mut out = BufWriter::new(rt.alloc(), io::writer(&rt))?;
    work_cases(&mut input, &mut out, work)
}
