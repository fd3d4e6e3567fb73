// The values of Algorithm 4.5 of document 002, each proved where the text first has it: g, h bar, m1 and w, u, and the factors made of them.
// f is a primary polynomial modulo p², which the contracts call the part; G is in `base` and of degree d. Arrays hold 33 coefficients, constant first.
// What is public is so for the crates above, and no entry point of the library.
#![tactic(auto)]

ghost use Rattle.std.specs.Prelude.{◌≡◌, true, List, ◌≢◌, ℕ, ◌≤◌, ◌%◌, ◌*◌};
ghost use Rattle.specification.specs.Limits.{taken, ◌²};
ghost use Rattle.specification.specs.Polynomials as spec;
ghost use Rattle.algebra.specs.Divisibility.{pow};
ghost use Rattle.algebra.specs.PolynomialRing.{𝟎};
ghost use Rattle.algebra.specs.Degree.{Below};
ghost use Rattle.algebra.specs.CoefficientLists.{poly, Reduced, 𝓩[x]/};
ghost use Rattle.arrays.specs.Represents.{Represents};
ghost use Rattle.part_values.specs.Given.{Given};
ghost use Rattle.part_values.specs.ArrayValues.{IsDigitLift, IsHBar, AreM1AndW, IsU, PowerOver, HBarOver, WOver};

use arrays::{Coefs, MonicPoly, size_below};
use division::divide;
use modular::{add_multiple, difference, multiple, over, product};
use residues::{inverse, reduce};

// m1 and w, where h bar = G^m1 · w.
#[derive(Clone, Copy)]
pub struct Multiplicity {
    pub m1: usize,
    pub w: Coefs,
}

// "Choose g ∈ GR(p^2, r)[x] monic so that ḡ = G": by item 5 the coefficients of G, read modulo p².
pub fn digit_lift(base: Coefs) -> Coefs
    ensures { (p d m : ℕ) (f : List ℕ) → Given p base d m f → IsDigitLift p base d result }
{
    base
}

// a^k, modulo the n of a: the square of the power to k / 2, and once more a where k is odd.
pub fn power(a: MonicPoly, k: usize) -> Coefs
    requires { (1 ≤ k) × (k * a.degree ≤ 32) }
    ensures { Represents a.n result (pow (𝓩[x]/ a.n) (poly a.n a.coefs) k) }
{
    if k == 1 {
        return a.coefs;
    }
    let half = k / 2;
    let h = power(a, half);
    let e = half * a.degree;
    let s = product(h, e + 1, h, e + 1, a.n);
    if k % 2 == 0 {
        return s;
    }
    product(a.coefs, a.degree + 1, s, 2 * e + 1, a.n)
}

// "determine h so that ph = f − g^m", where g^m is in `whole`: the bar of h. The entries of f − g^m are multiples of p below p², so divided by p they are
// below p.
pub fn h_bar(whole: Coefs, f: Coefs, p: u16) -> Coefs
    requires { PowerOver p f whole }
    ensures { (P : PowerOver p f whole) → IsHBar p P.g P.d P.m f result }
{
    let n = p * p;
    let e = difference(f, whole, n);
    over(e, p)
}

// "Determine the maximum m1 so that G^m1 | h̄ and determine w so that h̄ = G^m1·w̄": after k divisions h̄ = G^k·w. h̄ is not zero and of lower degree than G^m,
// so m1 is below m.
pub fn highest(h: Coefs, base: MonicPoly, m: usize) -> Multiplicity
    requires { HBarOver base.n base.coefs base.degree m h × (poly base.n h ≢ 𝟎) }
    ensures { (H : HBarOver base.n base.coefs base.degree m h) → AreM1AndW base.n base.coefs H.g base.degree m H.part result.m1 result.w }
{
    let most = m - 1;
    let mut w = h;
    for k in 0..most {
        let v = divide(w, (m - k) * base.degree, base);
        let terms = size_below(&v.remainder, base.degree);
        if terms != 0 {
            return Multiplicity { m1: k, w };
        }
        w = v.quotient;
    }
    Multiplicity { m1: most, w }
}

// "g^(m−m1) + pw", where k is m − m1, g is monic modulo p² and w of lower degree than g^k.
pub fn last_factor(g: MonicPoly, k: usize, w: Coefs, p: u16) -> Coefs
    requires { (taken p ≡ true) × (g.n ≡ p ²) × (1 ≤ k) × (k * g.degree ≤ 32) × Reduced p 33 w × Below (k * g.degree) (poly p w) }
    ensures { Represents (p ²) result (poly (p ²) (spec.lift p (spec.pow (p ²) g.coefs k) w)) }
{
    let q = power(g, k);
    lifted(q, w, k * g.degree, p)
}

// "Choose u such that ū = (m̄)^−1·w̄", where p does not divide m and w is of lower degree than G. m may be above p: what it leaves is inverted.
pub fn divided_by_exponent(w: Coefs, d: usize, m: usize, p: u16) -> Coefs
    requires { WOver p d m w × (m % p ≢ 0) × Below d (poly p w) }
    ensures { (W : WOver p d m w) → IsU p W.base W.g d m W.part result }
{
    let a = reduce(p, m as u64);
    let c = inverse(a, p);
    multiple(c, w, d, p)
}

// "g + pu", and "g^(m−m1) + pw": q + p·t modulo p², where t has s terms.
pub fn lifted(q: Coefs, t: Coefs, s: usize, p: u16) -> Coefs
    requires { (taken p ≡ true) × (s ≤ 33) × Reduced (p ²) 33 q × Reduced p 33 t × Below s (poly p t) }
    ensures { Represents (p ²) result (poly (p ²) (spec.lift p q t)) }
{
    add_multiple(q, p, t, 0, s, p * p)
}
