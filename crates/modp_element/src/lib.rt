// Splitting a monic q modulo a prime by least dependencies: an element that splits q, or the answer that q is a power of one irreducible
// polynomial; and what an element is for a factor of q. What is public is so for the crates above, and no entry point of the library.
#![tactic(auto)]

ghost use Rattle.std.specs.Prelude.{◌≡◌, ◌<◌, ◌+◌, ◌-◌, ◌%◌};
ghost use Rattle.algebra.specs.Fields.{Prime};
ghost use Rattle.algebra.specs.PolynomialRing.{◌+ᴿ◌, ◌·◌, -ᴿ◌};
ghost use Rattle.algebra.specs.Monomials.{x^};
ghost use Rattle.algebra.specs.Degree.{Below};
ghost use Rattle.algebra.specs.CoefficientLists.{poly, Reduced};
ghost use Rattle.arrays.specs.Represents.{Represents};
ghost use Rattle.quotients.specs.Remainder.{Remainder};
ghost use Rattle.modp_element.specs.Images.{PowerImages};
ghost use Rattle.modp_element.specs.Elements.{ElementFound, Known, ForFactor};

use arrays::{Coefs, MonicPoly, monomial, size};
use modp_dependency::least_dependency;
use quotients::{power, product_modulo, remainder, times_power_of_x};

// x^p modulo q, for p = q.n, by p shifts or by squarings. A product takes as long as some 2·d shifts, and this power as some four products.
fn power_of_x(q: MonicPoly) -> Coefs
    requires { (1 < q.n) × (1 < q.degree) }
    ensures { Remainder q.n q.coefs q.degree result (x^ q.n) }
{
    let p = q.n as usize;
    if p < 8 * q.degree {
        return times_power_of_x(p, monomial(0), q);
    }
    power(monomial(1), q.n, q)
}

// x^p·a modulo q, where y is x^p modulo q, by p shifts or by one product.
fn next_power(a: Coefs, y: Coefs, q: MonicPoly) -> Coefs
    requires { Reduced q.n 33 a × Below q.degree (poly q.n a) × Remainder q.n q.coefs q.degree y (x^ q.n) }
    ensures { Remainder q.n q.coefs q.degree result (x^ q.n · poly q.n a) }
{
    let p = q.n as usize;
    if p < 2 * q.degree {
        return times_power_of_x(p, a, q);
    }
    product_modulo(a, y, q)
}

// c - 1 modulo p.
fn less_one(c: u16, p: u16) -> u16
    requires { c < p }
    ensures { result ≡ (c + (p - 1)) % p }
{
    if c == 0 { p - 1 } else { c - 1 }
}

// a - x^i: one coefficient changes.
fn less_power(a: Coefs, i: usize, p: u16) -> Coefs
    requires { (1 < p) × (i < 33) × Reduced p 33 a }
    ensures { Represents p result (poly p a +ᴿ -ᴿ x^ i) }
{
    let mut m = a;
    m[i] = less_one(a[i], p);
    m
}

// x^(p·i) - x^i modulo q, of degree d, for i below d: the images of the x^i under the map that takes v to v^p - v. That of 1 is 0.
fn images(q: MonicPoly) -> [Coefs; 33]
    requires { (1 < q.n) × (0 < q.degree) }
    ensures { PowerImages q.n q.coefs q.degree q.degree result }
{
    let zero = [0u16; 33];
    let mut r = [zero; 33];
    if q.degree < 2 {
        return r;
    }
    let y = power_of_x(q);
    let mut power = y;
    for i in 1..q.degree {
        r[i] = less_power(power, i, q.n);
        let next = next_power(power, y, q);
        power = next;
    }
    r
}

// A v that is not constant, of lower degree than q, with v^p = v modulo q, if there is one.
fn splitting_element(q: MonicPoly) -> Option<Coefs>
    requires { Prime q.n × (0 < q.degree) }
    ensures { ElementFound q.n q.degree q.coefs result }
{
    let t = images(q);
    let found = least_dependency(&t, 1, q.degree, q.degree, q.n)?;
    Some(found.coefs)
}

// A splitting element of q, if there is one: the one at hand, if it is known, or else one that is looked for.
pub fn element_of(q: MonicPoly, known: Option<Coefs>) -> Option<Coefs>
    requires { Prime q.n × (0 < q.degree) × Known q.n q.degree (poly q.n q.coefs) known }
    ensures { ElementFound q.n q.degree q.coefs result }
{
    match known {
        Some(v) => Some(v),
        None => splitting_element(q),
    }
}

// What an element v of q, of degree d, is for a factor b of q: a splitting element, unless v is constant modulo b. What is given is an
// element; that one is given where it could be is not promised, since only time rests on it.
pub fn element_for(v: Coefs, d: usize, b: MonicPoly) -> Option<Coefs>
    requires { (d < 33) × Reduced b.n 33 v × Below d (poly b.n v) }
    ensures { ForFactor b.n d v b.degree b.coefs result }
{
    let r = remainder(v, d, b);
    let splits = 1 < size(r);
    if splits { Some(r) } else { None }
}
