// One factor cut off a monic f modulo p², by one step of lifting: its bar is given, and coprime to what it leaves of the bar of f.
// What is public is so for the crates above, and no entry point of the library.
#![tactic(auto)]

ghost use Rattle.std.specs.Prelude.{◌≡◌, ◌<◌, ◌+◌, ◌-◌};
ghost use Rattle.specification.specs.Limits.{◌²};
ghost use Rattle.algebra.specs.PolynomialRing.{◌·◌};
ghost use Rattle.algebra.specs.Degree.{Below};
ghost use Rattle.algebra.specs.CoefficientLists.{poly, Reduced};
ghost use Rattle.division.specs.DivisionLoop.{DividedBy};
ghost use Rattle.part_lift.specs.Inverses.{CoprimePair};
ghost use Rattle.part_lift.specs.Quotients.{Quotient};
ghost use Rattle.part_lift.specs.Correction.{Correction};
ghost use Rattle.part_lift.specs.Cuttable.{Cuttable};
ghost use Rattle.part_lift.specs.CutOff.{CutOff};

use arrays::{Coefs, MonicPoly};
use division::{Divided, divide, divide_in_place};
use modp_euclid::gcd;
use modular::{add_multiple, modulo, over, product, sum};
use quotients::product_modulo;

// f is part·rest.
#[derive(Clone, Copy)]
pub struct Cut {
    pub part: MonicPoly,
    pub rest: MonicPoly,
}

// What is added to b, and what is taken off its quotient, both p times.
#[derive(Clone, Copy)]
struct Changes {
    part: Coefs,
    rest: Coefs,
}

// The quotient of t·r by c, where t is of lower degree than c and r has m + 1 terms.
fn product_quotient(t: Coefs, r: Coefs, m: usize, c: MonicPoly) -> Coefs
    requires { (c.degree + m < 33) × Reduced c.n 33 t × Reduced c.n 33 r × Below c.degree (poly c.n t) × Below (m + 1) (poly c.n r) }
    ensures { Quotient c.n c.coefs c.degree result (poly c.n t · poly c.n r) }
{
    let w = product(t, c.degree, r, m + 1, c.n);
    divide(w, c.degree + m, c).quotient
}

// The quotient of t·a by c, where a is c·k + r by d. In t·k and the quotient of t·r it takes a division of n - 1 turns only, where c is of degree n; where a is
// of lower degree than c, that of t·a itself takes fewer.
fn cofactor(t: Coefs, a: MonicPoly, d: Divided, c: MonicPoly) -> Coefs
    requires { CoprimePair c.n a.coefs a.degree c.coefs c.degree × Reduced c.n 33 t × Below c.degree (poly c.n t)
        × DividedBy c.n a.coefs c.coefs c.degree d.quotient d.remainder }
    ensures { Quotient c.n c.coefs c.degree result (poly c.n t · poly c.n a.coefs) }
{
    let i = a.degree;
    let n = c.degree;
    if i < n {
        return product_quotient(t, a.coefs, i, c);
    }
    let x = product_quotient(t, d.remainder, n - 1, c);
    let v = product(t, n, d.quotient, i - n + 1, c.n);
    sum(v, x, c.n)
}

// The t and y with t·a = c·y + h, where a and c are coprime and h is of lower degree than c: t is h·u modulo c, where u·a = 1 modulo c.
fn correction(h: Coefs, a: MonicPoly, c: MonicPoly) -> Changes
    requires { CoprimePair c.n a.coefs a.degree c.coefs c.degree × Reduced c.n 33 h × Below c.degree (poly c.n h) }
    ensures { Correction c.n h a.coefs a.degree c.coefs c.degree result.part result.rest }
{
    let d = divide(a.coefs, a.degree + 1, c);
    let r = d.remainder;
    let g = gcd(r, c);
    let u = g.cofactor;
    let t = product_modulo(h, u, c);
    let y = cofactor(t, a, d, c);
    Changes { part: t, rest: y }
}

// The factor of f whose bar is that of b, and what it leaves: f and b are monic modulo p². By b, f leaves p·h, and q is the quotient. Where t·q = b·y + h
// modulo p, f is (b + p·t)·(q - p·y).
pub fn cut_off(f: MonicPoly, b: MonicPoly, p: u16) -> Cut
    requires { Cuttable p f.coefs f.degree b.coefs b.degree × (f.n ≡ p ²) × (b.n ≡ p ²) }
    ensures { CutOff p f.coefs f.degree b.coefs b.degree result.part.coefs result.rest.coefs × (result.part.degree ≡ b.degree)
        × (result.rest.degree ≡ f.degree - b.degree) × (result.part.n ≡ p ²) × (result.rest.n ≡ p ²) }
{
    let (n, m) = (b.degree, b.n);
    let left = f.degree - n;
    let mut q = [0u16; 33];
    let mut r = f.coefs;
    divide_in_place(&mut r, &mut q, f.degree + 1, &b);
    let a = modulo(q, p);
    let c = modulo(b.coefs, p);
    let h = over(r, p);
    let quotient = MonicPoly {
        coefs: a,
        degree: left,
        n: p,
    };
    let base = MonicPoly {
        coefs: c,
        degree: n,
        n: p,
    };
    let s = correction(h, quotient, base);
    let part = add_multiple(b.coefs, p, s.part, 0, n, m);
    let rest = add_multiple(q, m - p, s.rest, 0, left, m);
    Cut {
        part: MonicPoly {
            coefs: part,
            degree: n,
            n: m,
        },
        rest: MonicPoly {
            coefs: rest,
            degree: left,
            n: m,
        },
    }
}
