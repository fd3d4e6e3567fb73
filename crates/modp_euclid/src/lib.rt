// Euclid's algorithm on polynomials over ℤ/p, p a prime, on arrays of 33 coefficients: the monic multiple, the monic gcd, and the
// monic gcd with one cofactor. What is public is so for the crates above, and no entry point of the library.
#![tactic(auto)]

ghost use Rattle.std.specs.Prelude.{◌≡◌, ◌<◌, ◌≤◌, ◌+◌, ◌-◌};
ghost use Rattle.algebra.specs.Degree.{Below};
ghost use Rattle.algebra.specs.Fields.{Prime};
ghost use Rattle.algebra.specs.CoefficientLists.{poly, Reduced};
ghost use Rattle.arrays.specs.Sizes.{Size};
ghost use Rattle.modp_euclid.specs.MonicMultiples.{MonicMultipleOf};
ghost use Rattle.modp_euclid.specs.RemainderRows.{ReducedRow, MonicRow};
ghost use Rattle.modp_euclid.specs.TakenOff.{TakenOff};
ghost use Rattle.modp_euclid.specs.RowTakenOff.{Operands, RowTakenOff};
ghost use Rattle.modp_euclid.specs.CommonDivisors.{GcdOf, CofactorOf};

use arrays::{Coefs, MonicPoly, size_below};
use modular::add_by;
use residues::{Modulus, inverse, times};

// unit·a, which is monic.
#[derive(Clone, Copy)]
struct MonicMultiple {
    multiple: MonicPoly,
    unit: u16,
}

// The gcd of a and b, and the cofactor of a: cofactor·a leaves the gcd modulo b.
#[derive(Clone, Copy)]
pub struct CommonDivisor {
    pub gcd: MonicPoly,
    pub cofactor: Coefs,
}

// The monic multiple of a, which is of degree e.
fn monic_multiple(a: Coefs, e: usize, p: u16) -> MonicMultiple
    requires { Prime p × Reduced p 33 a × Size a (e + 1) }
    ensures { MonicMultipleOf p a e result.multiple.coefs result.unit × (result.multiple.degree ≡ e) × (result.multiple.n ≡ p) }
{
    let unit = inverse(a[e], p);
    let array = modular::multiple(unit, a, e + 1, p);
    let multiple = MonicPoly {
        coefs: array,
        degree: e,
        n: p,
    };
    MonicMultiple { multiple, unit }
}

// a modulo g in place, where a has s terms and g, of degree e, any leading coefficient: its multiples take the highest term of a off, turn by turn. Gives the
// size of what is left.
fn take_off(a: &mut [u16], s: usize, g: &[u16], e: usize, p: u16) -> usize
    requires { Prime p × (s ≤ 33) × Reduced p 33 a.old × Below s (poly p a.old) × Reduced p 33 g.now × Size g.now (e + 1) }
    ensures { TakenOff p a.old g.now e a.new result }
{
    let unit = inverse(g[e], p);
    let modulus = Modulus::new(p);
    for top in (e..s).rev() {
        let k = top - e;
        let c = times(a[top], unit, p);
        if c != 0 {
            add_by(&mut a[k..], p - c, g, e + 1, modulus);
        }
    }
    size_below(a, e)
}

// The same of a row: as many multiples of v are taken off the cofactor u as of g off a, where u and v have t terms.
fn take_row_off(
    a: &mut [u16],
    u: &mut [u16],
    s: usize,
    g: &[u16],
    v: &[u16],
    e: usize,
    t: usize,
    p: u16,
) -> usize
    requires { Prime p × (s ≤ 33) × (s - e + t ≤ 34)
        × Operands p s e t (record { remainder = a.old; cofactor = u.old }) (record { remainder = g.now; cofactor = v.now }) }
    ensures { RowTakenOff p s e t (record { remainder = a.old; cofactor = u.old })
        (record { remainder = g.now; cofactor = v.now }) (record { remainder = a.new; cofactor = u.new }) result }
{
    let unit = inverse(g[e], p);
    let modulus = Modulus::new(p);
    for high in (e..s).rev() {
        let k = high - e;
        let q = times(a[high], unit, p);
        if q != 0 {
            add_by(&mut a[k..], p - q, g, e + 1, modulus);
            add_by(&mut u[k..], p - q, v, t, modulus);
        }
    }
    size_below(a, e)
}

// The monic gcd of a and b, where a is of lower degree than b: the last remainder that is not 0, made monic. x and y hold two successive remainders, of sizes
// s and r, and each is reduced by the other in its place.
pub fn common_divisor(a: Coefs, b: MonicPoly) -> MonicPoly
    requires { Prime b.n × Reduced b.n 33 a × Below b.degree (poly b.n a) }
    ensures { GcdOf b.n a b.coefs b.degree result.coefs result.degree × (result.n ≡ b.n) }
{
    let p = b.n;
    let mut x = b.coefs;
    let mut y = a;
    let mut s = b.degree + 1;
    let mut r = size_below(&y, b.degree);
    while 0 < r {
        s = take_off(&mut x, s, &y, r - 1, p);
        if s == 0 {
            return monic_multiple(y, r - 1, p).multiple;
        }
        r = take_off(&mut y, r, &x, s - 1, p);
    }
    monic_multiple(x, s - 1, p).multiple
}

// The row of a and its cofactor u made monic, where a is of degree e and u has t terms.
fn monic_row(a: Coefs, u: Coefs, e: usize, t: usize, p: u16) -> CommonDivisor
    requires { Prime p × (t ≤ 33) × ReducedRow p t (record { remainder = a; cofactor = u }) × Size a (e + 1) }
    ensures { MonicRow p t e (record { remainder = a; cofactor = u }) (record { remainder = result.gcd.coefs; cofactor = result.cofactor })
        × (result.gcd.degree ≡ e) × (result.gcd.n ≡ p) }
{
    let m = monic_multiple(a, e, p);
    let v = modular::multiple(m.unit, u, t, p);
    CommonDivisor {
        gcd: m.multiple,
        cofactor: v,
    }
}

// The monic gcd of a and b with the cofactor of a, under the same conditions and where b is of degree 1 or more: u·a leaves x modulo b, and v·a leaves y. The
// cofactors stay exact: they have one term more at most than the degree of the former remainder is below that of b.
pub fn gcd(a: Coefs, b: MonicPoly) -> CommonDivisor
    requires { Prime b.n × (0 < b.degree) × Reduced b.n 33 a × Below b.degree (poly b.n a) }
    ensures { GcdOf b.n a b.coefs b.degree result.gcd.coefs result.gcd.degree × CofactorOf b.n a b.coefs b.degree result.gcd.coefs result.cofactor
        × (result.gcd.n ≡ b.n) }
{
    let p = b.n;
    let d = b.degree;
    let mut x = b.coefs;
    let mut y = a;
    let mut u = [0u16; 33];
    let mut v = [0u16; 33];
    v[0] = 1;
    let mut m = d + 1;
    let mut n = size_below(&y, d);
    while 0 < n {
        m = take_row_off(&mut x, &mut u, m, &y, &v, n - 1, d + 2 - m, p);
        if m == 0 {
            return monic_row(y, v, n - 1, d + 1 - n, p);
        }
        n = take_row_off(&mut y, &mut v, n, &x, &u, m - 1, d + 2 - n, p);
    }
    monic_row(x, u, m - 1, d + 1 - m, p)
}
