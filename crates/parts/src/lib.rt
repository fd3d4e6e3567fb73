// The parts of a monic f modulo p², one after the other in the order of item 3: first the powers of irreducible polynomials in its bar, and then over each of
// them one part, cut off of what is left of f. What is public is so for the crates above, and no entry point of the library.
#![tactic(auto)]

ghost use Rattle.std.specs.Prelude.{◌≡◌, true, List, ◌∷◌, ◌≤◌, ◌*◌};
ghost use Rattle.specification.specs.Limits.{taken, ◌²};
ghost use Rattle.algebra.specs.Divisibility.{pow};
ghost use Rattle.algebra.specs.CoefficientLists.{poly, 𝓩[x]/};
ghost use Rattle.arrays.specs.Represents.{Represents};
ghost use Rattle.arrays.specs.Held.{MonicArray, MonicModSquare};
ghost use Rattle.part_values.specs.Given.{Given};
ghost use Rattle.part_verdict.specs.PartFound.{PartFound};
ghost use Rattle.parts.specs.PowerParts.{power_degree};
ghost use Rattle.parts.specs.PowersLeft.{Left, FirstPart};
ghost use Rattle.parts.specs.PowersFound.{PowersFound};

use arrays::{Coefs, MonicPoly, monomial};
use modp_factors::{Power, Powers, factors};
use modular::modulo;
use part_lift::cut_off;
use part_values::power;
use part_verdict::{Part, split_part};

// The first part, and what is left, of the degree given.
#[derive(Clone, Copy)]
pub struct PartAndRest {
    pub part: Part,
    pub rest: Coefs,
    pub degree: usize,
}

// Item 1: the powers in the bar of f, which is of degree d.
pub fn powers_of(f: Coefs, d: usize, p: u16) -> Powers
    requires { MonicModSquare p f d }
    ensures { PowersFound p f d result }
{
    let bar = modulo(f, p);
    factors(MonicPoly {
        coefs: bar,
        degree: d,
        n: p,
    })
}

// G^m, the power x, where G is read modulo p².
fn lifted_power(x: Power, p: u16) -> MonicPoly
    requires { (taken p ≡ true) × MonicArray (p ²) x.degree x.base × (1 ≤ x.exponent) × (power_degree x ≤ 32) }
    ensures { Represents (p ²) result.coefs (pow (𝓩[x]/ (p ²)) (poly (p ²) x.base) x.exponent) × (result.degree ≡ power_degree x) × (result.n ≡ p ²) }
{
    let (d, m) = (x.degree, x.exponent);
    let n = p * p;
    let base = x.base;
    let g = MonicPoly {
        coefs: base,
        degree: d,
        n,
    };
    let whole = power(g, m);
    MonicPoly {
        coefs: whole,
        degree: m * d,
        n,
    }
}

// The part f over the power x, where `whole` is G^m modulo p².
fn part_over(f: Coefs, x: Power, whole: Coefs, p: u16) -> Part
    requires { Given p x.base x.degree x.exponent f × Represents (p ²) whole (pow (𝓩[x]/ (p ²)) (poly (p ²) x.base) x.exponent) }
    ensures { PartFound p f (power_degree x) result }
{
    let g = x.base;
    let base = MonicPoly {
        coefs: g,
        degree: x.degree,
        n: p,
    };
    split_part(f, base, x.exponent, whole)
}

// The part over the power x of the bar of f, which is of degree e, and what it leaves of f; there are other powers.
fn first_part(f: Coefs, e: usize, x: Power, p: u16) -> PartAndRest
    requires { (y : Power) × (L : List Power) × Left p f e (x ∷ y ∷ L) }
    ensures { FirstPart p f e x result }
{
    let whole = lifted_power(x, p);
    let all = MonicPoly {
        coefs: f,
        degree: e,
        n: whole.n,
    };
    let cut = cut_off(all, whole, p);
    let part = cut.part.coefs;
    let rest = cut.rest.coefs;
    PartAndRest {
        part: part_over(part, x, whole.coefs, p),
        rest,
        degree: e - whole.degree,
    }
}

// Items 2 and 4 to 9: the part over the power x, the first that is left in the bar of f, and what it leaves: 1, if it is the last.
pub fn next_part(f: Coefs, e: usize, x: Power, p: u16) -> PartAndRest
    requires { (L : List Power) × Left p f e (x ∷ L) }
    ensures { FirstPart p f e x result }
{
    let is_last = x.exponent * x.degree == e;
    if is_last {
        let whole = lifted_power(x, p);
        let part = part_over(f, x, whole.coefs, p);
        let one = monomial(0);
        return PartAndRest {
            part,
            rest: one,
            degree: 0,
        };
    }
    first_part(f, e, x, p)
}
