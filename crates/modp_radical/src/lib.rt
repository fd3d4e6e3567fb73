// Modulo a prime p below 256: a divisor of a polynomial that has no square factor, by its derivative, or, where that is 0, the p-th root. Which divisor it is
// is not promised: of the quotient by the gcd with the derivative the factors of the lowest multiplicity, where they can be told. What is public is so for
// the crates above, and no entry point of the library.
#![tactic(auto)]

ghost use Rattle.std.specs.Prelude.{◌≡◌, ◌<◌};
ghost use Rattle.algebra.specs.PolynomialRing.{𝟎};
ghost use Rattle.algebra.specs.Fields.{Prime};
ghost use Rattle.algebra.specs.CoefficientLists.{poly};
ghost use Rattle.arrays.specs.Represents.{Represents};
ghost use Rattle.frobenius.specs.Derivatives.{derivative as derivativeOf};
ghost use Rattle.modp_radical.specs.Radicals.{RootHeld, DivisorOf, RadicalOf};

use arrays::{Coefs, MonicPoly};
use residues::Modulus;

// What `radical_of` finds of a polynomial: its p-th root, or a divisor.
#[derive(Clone, Copy)]
pub enum Radical {
    Root(MonicPoly),
    Divisor(MonicPoly),
}

// The derivative of a. The products have 16 bits, of which a machine takes eight at a time.
fn derivative(a: MonicPoly) -> Coefs
    requires { a.n < 256 }
    ensures { Represents a.n result (derivativeOf (poly a.n a.coefs)) }
{
    let modulus = Modulus::new(a.n);
    let mut r = [0u16; 33];
    for k in 0..a.degree {
        r[k] = modulus.reduce_narrow((k as u16 + 1) * a.coefs[k + 1]);
    }
    r
}

// The p-th root of a, whose derivative is 0 modulo p: every p-th coefficient of a.
fn root(a: MonicPoly) -> MonicPoly
    requires { Prime a.n × (0 < a.degree) × (derivativeOf (poly a.n a.coefs) ≡ 𝟎) }
    ensures { RootHeld a.n (poly a.n a.coefs) a.degree result.coefs result.degree × (result.n ≡ a.n) }
{
    let step = a.n as usize;
    let mut coefs = [0u16; 33];
    for i in 0..a.degree / step + 1 {
        coefs[i] = a.coefs[i * step];
    }
    MonicPoly {
        coefs,
        degree: a.degree / step,
        n: a.n,
    }
}

// The factors of z whose multiplicity is the lowest, where c is what z leaves of a polynomial: z is divided out of c as often as it goes, and what is common
// with the rest is taken off z. All of z where c is 1: the multiplicities are one; and where z is of degree below 4: without roots it is irreducible then.
// That the multiplicity is the lowest is not promised, so that only time rests on it.
fn lowest(z: MonicPoly, c: MonicPoly) -> Radical
    requires { (0 < z.degree) × Prime z.n × (c.n ≡ z.n) }
    ensures { DivisorOf z.n (poly z.n z.coefs) z.degree result }
{
    if z.degree < 4 || c.degree == 0 {
        return Radical::Divisor(z);
    }
    let t = modp_roots::divide_out(c, z);
    let l = t.left;
    let m = quotients::remainder(l.coefs, l.degree + 1, z);
    let g = modp_euclid::common_divisor(m, z);
    let q = division::quotient(z, g);
    Radical::Divisor(q)
}

// Where the derivative of a is 0 its p-th root; else a divisor without square factors: `lowest` of a over its gcd with the derivative.
pub fn radical_of(a: MonicPoly) -> Radical
    requires { Prime a.n × (a.n < 256) × (0 < a.degree) }
    ensures { RadicalOf a.n (poly a.n a.coefs) a.degree result }
{
    let v = derivative(a);
    if arrays::size_below(&v, a.degree) == 0 {
        return Radical::Root(root(a));
    }
    let g = modp_euclid::common_divisor(v, a);
    let q = division::quotient(a, g);
    lowest(q, g)
}
