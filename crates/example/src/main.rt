// Document 01's example at work: the factors x + 1, x + 1 and x + 4 modulo 9 multiplied out, and the product divided by x + 4 again.
// A polynomial is printed by its coefficients, constant first; zero has none.
#![tactic(auto)]

use polynomial::Poly;
use std::io;
use std::io::{BufWriter, Write};

// x + c modulo 9.
fn linear(c: u16) -> Poly {
    let mut coefs = arrays::monomial(1);
    coefs[0] = c;
    Poly { prime: 3, coefs }
}

fn print<W: Write>(out: &mut W, title: &[u8], a: Poly) -> io::Result<()> {
    out.write_all(title)?;
    let coefs = a.coefs;
    for c in &coefs[..arrays::size(coefs)] {
        write!(out, " {c}")?;
    }
    out.write_all(b"\n")
}

fn main(rt: HostRuntime) -> io::Result<()> {
    let mut out = BufWriter::new(rt.alloc(), io::writer(&rt))?;
    let square = polynomial::mul(linear(1), linear(1));
    let product = polynomial::mul(square.poly, linear(4));
    print(&mut out, b"(x + 1)(x + 1)(x + 4):", product.poly)?;
    let division = polynomial::divide(product.poly, linear(4));
    print(&mut out, b"divided by x + 4:", division.quotient)?;
    print(&mut out, b"remainder:", division.remainder)?;
    out.flush()
}
