// Roots modulo a prime p below 256: the values of a polynomial at all residues, and how often x - c, or any monic polynomial, divides another.
// What is public is so for the crates above, and no entry point of the library.
#![tactic(auto)]

ghost use Rattle.std.specs.Prelude.{◌≡◌, suc, ◌<◌, ◌≤◌, ◌/◌, length};
ghost use Rattle.algebra.specs.Residues.{residue};
ghost use Rattle.algebra.specs.Degree.{Below};
ghost use Rattle.algebra.specs.Fields.{Prime};
ghost use Rattle.algebra.specs.CoefficientLists.{poly, Reduced};
ghost use Rattle.arrays.specs.Represents.{Within};
ghost use Rattle.frobenius.specs.Evaluation.{linear};
ghost use Rattle.modp_roots.specs.Values.{ValuesOf, HornerStep};
ghost use Rattle.modp_roots.specs.LinearDivision.{LinearDivided};
ghost use Rattle.modp_roots.specs.BinomialDivision.{PowerOf, LargestPower, BinomialDivided, MovedDown};
ghost use Rattle.modp_roots.specs.DividedOut.{DividedOut, Dividing};

use arrays::{Coefs, MonicPoly};
use residues::Modulus;

// What is left of a polynomial, and how often a divisor was divided out.
#[derive(Clone, Copy)]
pub struct Rest {
    pub left: MonicPoly,
    pub times: usize,
}

// One step of Horner's rule at every residue: the value r[c] becomes y + r[c]·c modulo p. The sums have 16 bits, of which a machine takes eight at a time.
fn horner_step(r: &mut [u16], y: u16, end: usize, p: Modulus)
    requires { (p.n < 256) × (y < p.n) × (end ≤ 256) × (end ≤ length r.old) × Within p.n r.old }
    ensures { HornerStep p.n y end r.old r.new }
{
    for c in 0..end {
        r[c] = p.reduce_narrow(y + r[c] * (c as u16));
    }
}

// The value of a, which has s terms, at every residue: Horner's rule, at all residues at once, up to the next multiple of 8.
pub fn values(a: Coefs, s: usize, p: u16) -> [u16; 256]
    requires { Prime p × (p < 256) × (s ≤ 33) × Reduced p 33 a × Below s (poly p a) }
    ensures { ValuesOf p (poly p a) result }
{
    let modulus = Modulus::new(p);
    let end = (p as usize + 7) / 8 * 8;
    let mut r = [0u16; 256];
    for i in (0..s).rev() {
        horner_step(&mut r, a[i], end, modulus);
    }
    r
}

// a, which has s terms, divided by x - c in place: a becomes the quotient, and the remainder is given. Two terms are taken a turn, as every b waits for the
// one before: times c² it passes both by one product and one reduction, and t, the value of the two alone, waits for no b.
fn divide_linear(a: &mut [u16], s: usize, c: u16, p: u16) -> u16
    requires { (p < 256) × (c < p) × (s ≤ length a.old) × Within p a.old × Below s (poly p a.old) }
    ensures { LinearDivided p c a.old a.new result }
{
    let modulus = Modulus::new(p);
    let square = modulus.reduce_narrow(c * c);
    let mut b: u16 = 0;
    let mut i = s;
    while 1 < i {
        i -= 2;
        let y = a[i + 1];
        let z = a[i];
        a[i + 1] = b;
        let t = modulus.reduce_narrow(z + y * c);
        a[i] = modulus.reduce_narrow(y + b * c);
        b = modulus.reduce_narrow(t + b * square);
    }
    if i == 0 {
        return b;
    }
    let y = a[0];
    a[0] = b;
    modulus.reduce_narrow(y + b * c)
}

// The largest power of p that is at most n.
fn largest_power(n: usize, p: u16) -> usize
    requires { Prime p × (p ≤ n) × (n < 33) }
    ensures { LargestPower p n result }
{
    let step = p as usize;
    let mut k = step;
    while k * step <= n {
        k *= step;
    }
    k
}

// a, of degree n, divided by x^k - c in place: the quotient stands in the entries from k on, the remainder in those below.
fn divide_binomial(a: &mut [u16], n: usize, k: usize, c: u16, p: u16)
    requires { (p < 256) × (c < p) × (0 < k) × (k ≤ n) × (n < length a.old) × Within p a.old × Below (suc n) (poly p a.old) }
    ensures { BinomialDivided p k c a.old a.new }
{
    let modulus = Modulus::new(p);
    for i in (0..n - k + 1).rev() {
        a[i] = modulus.reduce_narrow(a[i] + c * a[i + k]);
    }
}

// The entries of a from k on, moved down.
fn move_down(a: Coefs, k: usize) -> Coefs
    requires { k < 33 }
    ensures { MovedDown k a result }
{
    let mut r = [0u16; 33];
    r[..33 - k].copy_from_slice(&a[k..]);
    r
}

// a divided by (x - c)^k = x^k - c, where k is a power of p: each time x - c is divided out k times. That it goes no further is not promised:
// `divide_linear_out` comes last, so that only time rests on it.
fn divide_power(a: MonicPoly, k: usize, c: u16) -> Rest
    requires { Prime a.n × (a.n < 256) × (c < a.n) × PowerOf a.n k }
    ensures { Dividing a.n (poly a.n a.coefs) a.degree (linear (residue a.n c)) 1 result.left.coefs result.left.degree result.times × (result.left.n ≡ a.n) }
{
    let mut left = a;
    let mut times: usize = 0;
    while k <= left.degree {
        let mut f = left.coefs;
        divide_binomial(&mut f, left.degree, k, c, a.n);
        if arrays::size_below(&f[0..k], k) != 0 {
            return Rest { left, times };
        }
        left = MonicPoly {
            coefs: move_down(f, k),
            degree: left.degree - k,
            n: a.n,
        };
        times += k;
    }
    Rest { left, times }
}

// a divided by x - c as often as it goes, by one at a time.
fn divide_linear_out(a: MonicPoly, c: u16) -> Rest
    requires { Prime a.n × (a.n < 256) × (c < a.n) }
    ensures { DividedOut a.n (poly a.n a.coefs) a.degree (linear (residue a.n c)) 1 result × (result.left.n ≡ a.n) }
{
    let mut left = a;
    let mut multiplicity: usize = 0;
    while 0 < left.degree {
        let mut f = left.coefs;
        let r = divide_linear(&mut f, left.degree + 1, c, a.n);
        if r != 0 {
            return Rest {
                left,
                times: multiplicity,
            };
        }
        left = MonicPoly {
            coefs: f,
            degree: left.degree - 1,
            n: a.n,
        };
        multiplicity += 1;
    }
    Rest {
        left,
        times: multiplicity,
    }
}

// a divided by x - c as often as it goes, modulo p: where p² is at most its degree by (x - c)^k first, for the powers k of p from the largest down.
pub fn divide_root(a: MonicPoly, c: u16) -> Rest
    requires { Prime a.n × (a.n < 256) × (c < a.n) }
    ensures { DividedOut a.n (poly a.n a.coefs) a.degree (linear (residue a.n c)) 1 result × (result.left.n ≡ a.n) }
{
    let p = a.n as usize;
    if a.degree < p * p {
        return divide_linear_out(a, c);
    }
    let mut left = a;
    let mut times: usize = 0;
    let mut k = largest_power(a.degree, a.n);
    while 1 < k {
        let t = divide_power(left, k, c);
        left = t.left;
        times += t.times;
        k /= p;
    }
    let t = divide_linear_out(left, c);
    Rest {
        left: t.left,
        times: times + t.times,
    }
}

// a divided by g as often as it goes.
pub fn divide_out(a: MonicPoly, g: MonicPoly) -> Rest
    requires { Prime a.n × (g.n ≡ a.n) × (0 < g.degree) }
    ensures { DividedOut a.n (poly a.n a.coefs) a.degree (poly a.n g.coefs) g.degree result × (result.left.n ≡ a.n) }
{
    let mut left = a;
    let mut times: usize = 0;
    while g.degree <= left.degree {
        let t = division::divide(left.coefs, left.degree + 1, g);
        if arrays::size_below(&t.remainder, g.degree) != 0 {
            return Rest { left, times };
        }
        left = MonicPoly {
            coefs: t.quotient,
            degree: left.degree - g.degree,
            n: a.n,
        };
        times += 1;
    }
    Rest { left, times }
}
