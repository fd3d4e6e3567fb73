// Division of arrays modulo n by a monic polynomial, built of the one loop of `modular`.
// All is public for the crates above, and no entry point of the library.
#![tactic(auto)]

ghost use Rattle.std.specs.Prelude.{◌≡◌, ◌<◌, ◌≤◌, ◌-◌, replicate};
ghost use Rattle.algebra.specs.Divisibility.{◌∣◌};
ghost use Rattle.algebra.specs.Degree.{Below};
ghost use Rattle.algebra.specs.CoefficientLists.{poly, Reduced, 𝓩[x]/};
ghost use Rattle.division.specs.DivisionLoop.{DividedBy};

use arrays::{Coefs, MonicPoly};
use modular::add_by;
use residues::Modulus;

#[derive(Clone, Copy)]
pub struct Divided {
    pub quotient: Coefs,
    pub remainder: Coefs,
}

// a divided by the monic b in place, where a has s terms: the quotient goes into q, which is 0, and a becomes the remainder.
pub fn divide_in_place(a: &mut [u16], q: &mut [u16], s: usize, b: &MonicPoly)
    requires { Reduced b.now.n 33 a.old × (q.old ≡ replicate 33 0) × (s ≤ 33) × Below s (poly b.now.n a.old) }
    ensures { DividedBy b.now.n a.old b.now.coefs b.now.degree q.new a.new }
{
    let terms = b.degree + 1;
    let modulus = Modulus::new(b.n);
    for top in (b.degree..s).rev() {
        let k = top - b.degree;
        let c = a[top];
        q[k] = c;
        if c != 0 {
            add_by(&mut a[k..], b.n - c, &b.coefs, terms, modulus);
        }
    }
}

// a divided by the monic b, where a has s terms.
pub fn divide(a: Coefs, s: usize, b: MonicPoly) -> Divided
    requires { Reduced b.n 33 a × (s ≤ 33) × Below s (poly b.n a) }
    ensures { DividedBy b.n a b.coefs b.degree result.quotient result.remainder }
{
    let mut quotient = [0u16; 33];
    let mut remainder = a;
    divide_in_place(&mut remainder, &mut quotient, s, &b);
    Divided {
        quotient,
        remainder,
    }
}

// The quotient of a by g, which divides it.
pub fn quotient(a: MonicPoly, g: MonicPoly) -> MonicPoly
    requires { (1 < a.n) × (g.n ≡ a.n) × ◌∣◌ (𝓩[x]/ a.n) (poly a.n g.coefs) (poly a.n a.coefs) }
    ensures { DividedBy a.n a.coefs g.coefs g.degree result.coefs (replicate 33 0) × (result.degree ≡ a.degree - g.degree) × (result.n ≡ a.n) }
{
    let t = divide(a.coefs, a.degree + 1, g);
    let coefs = t.quotient;
    MonicPoly {
        coefs,
        degree: a.degree - g.degree,
        n: a.n,
    }
}
