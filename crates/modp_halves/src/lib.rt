// Coprime factors of Q modulo p from a splitting element v: the gcd of Q and the first v - c that has a factor in common with Q, and what
// it leaves of Q. Where p is large, a polynomial m with m(v) = 0 modulo Q tells which v - c cannot have one. What is public is so for the crates above, and no
// entry point of the library.
#![tactic(auto)]

ghost use Rattle.std.specs.Prelude.{IfSome, ◌≡◌, ◌<◌, ◌≤◌, ◌-◌};
ghost use Rattle.algebra.specs.Divisibility.{pow};
ghost use Rattle.algebra.specs.Residues.{residue};
ghost use Rattle.algebra.specs.PolynomialRing.{◌+ᴿ◌, -ᴿ◌, constant};
ghost use Rattle.algebra.specs.CoefficientLists.{poly, Reduced, 𝓩[x]/};
ghost use Rattle.arrays.specs.Represents.{Represents};
ghost use Rattle.modp_dependency.specs.RemainderImages.{RemainderImages};
ghost use Rattle.modp_halves.specs.Halves.{Halvable, halvable_prop, HalvesOf};
ghost use Rattle.modp_halves.specs.Candidates.{Vanishing, Candidates};

use arrays::{Coefs, MonicPoly, monomial};
use division::quotient;
use modp_dependency::least_dependency;
use modp_euclid::common_divisor;
use modp_roots::values;
use quotients::product_modulo;

// From this prime on it pays to find out first which v - c can have a factor in common with Q: few of them do.
const FEW_VALUES_FROM: u16 = 11;

// Q, and a splitting element v of it.
#[derive(Clone, Copy)]
pub struct Splittable {
    pub q: MonicPoly,
    pub v: Coefs,
    pub ghost halvable: { Halvable q.n q.coefs q.degree v } by { halvable_prop q.n q.coefs q.degree v },
}

// Q is first·second.
#[derive(Clone, Copy)]
pub struct Halves {
    pub first: MonicPoly,
    pub second: MonicPoly,
}

// v - c.
fn less_constant(v: Coefs, c: u16, p: u16) -> Coefs
    requires { Reduced p 33 v × (c ≤ p) × (1 < p) }
    ensures { Represents p result (poly p v +ᴿ -ᴿ constant (residue p c)) }
{
    let one = monomial(0);
    modular::add_multiple(v, p - c, one, 0, 1, p)
}

impl Splittable {
    // The powers 1, v, v^2, .. of v modulo Q, as many as `count` says.
    fn powers(self, count: usize) -> [Coefs; 33]
        requires { (0 < count) × (count ≤ 33) }
        ensures { RemainderImages self.q.n self.q.coefs self.q.degree (pow (𝓩[x]/ self.q.n) (poly self.q.n self.v)) count result }
    {
        let mut power = monomial(0);
        let mut r = [power; 33];
        for i in 1..count {
            let next = product_modulo(power, self.v, self.q);
            r[i] = next;
            power = next;
        }
        r
    }

    // A polynomial m of lower degree than `count` with m(v) = 0 modulo Q, where there is one: a dependency of the powers of v.
    fn vanishing(self, count: usize) -> Option<MonicPoly>
        requires { (0 < count) × (count ≤ 33) }
        ensures { IfSome result (λ m. Vanishing self.q.n self.q.coefs self.v m.degree m.coefs) }
    {
        let t = self.powers(count);
        least_dependency(&t, 0, count, self.q.degree, self.q.n)
    }

    // The values at all residues of an m with m(v) = 0 modulo Q: where m(c) is not 0, v - c has no factor in common with Q, for it divides m(v) - m(c). Zeros
    // where no m is looked for or found, which costs only time. Most v have three values at most, so four powers come first; where Q has no roots, v has half
    // as many values at most as the degree says.
    fn candidates(self) -> [u16; 256]
        ensures { Candidates self.q.n self.q.coefs self.v result }
    {
        let all = [0u16; 256];
        if self.q.n < FEW_VALUES_FROM {
            return all;
        }
        let found = match self.vanishing(4) {
            Some(m) => Some(m),
            None => self.vanishing(self.q.degree / 2 + 1),
        };
        let Some(m) = found else {
            return all;
        };
        values(m.coefs, m.degree + 1, self.q.n)
    }

    // Q cut in two by v: one of the v - c has a factor in common with Q, so that the loop does not run out.
    pub fn halve(self) -> Halves
        ensures { HalvesOf self.q.n self.q.coefs self.q.degree result.first.coefs result.first.degree result.second.coefs
            × (result.second.degree ≡ self.q.degree - result.first.degree) × (result.first.n ≡ self.q.n) × (result.second.n ≡ self.q.n) }
    {
        let q = self.q;
        let tries = self.candidates();
        for c in 0..q.n {
            let is_candidate = tries[c as usize] == 0;
            if is_candidate {
                let w = less_constant(self.v, c, q.n);
                let first = common_divisor(w, q);
                if 0 < first.degree {
                    let second = quotient(q, first);
                    return Halves { first, second };
                }
            }
        }
        unreachable!()
    }
}
