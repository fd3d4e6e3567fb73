// Arrays of 33 coefficients, constant first: their type, monic polynomials, the powers of x, how many terms there are, a bound of all entries, and whether two
// are equal.
// What they hold as polynomials is in specs/. All is public for the crates above, and no entry point of the library.
#![tactic(auto)]

ghost use Rattle.std.specs.Prelude.{◌≡◌, ◌<◌, ◌≤◌, ltb, length};
ghost use Rattle.specification.specs.Lists.{all_pass};
ghost use Rattle.lists.specs.Decides.{Decides};
ghost use Rattle.arrays.specs.Represents.{ZeroFrom};
ghost use Rattle.arrays.specs.Sizes.{Size};
ghost use Rattle.arrays.specs.Held.{MonicArray};
ghost use Rattle.arrays.specs.MonomialArray.{IsMonomial};

// The coefficients of a polynomial of degree 32 at most.
pub type Coefs = [u16; 33];

// A monic polynomial modulo n, of the degree given.
#[derive(Clone, Copy)]
pub struct MonicPoly {
    pub coefs: Coefs,
    pub degree: usize,
    pub n: u16,
    pub ghost monic: { MonicArray n degree coefs },
}

// 1 modulo 2, the least there is.
impl Default for MonicPoly {
    ghost is_default = { λ q. (q.n ≡ 2) × (q.degree ≡ 0) × IsMonomial 0 q.coefs };

    fn default() -> MonicPoly {
        MonicPoly {
            coefs: monomial(0),
            degree: 0,
            n: 2,
        }
    }
}

// x to the power i: "leading coefficient 1, the rest 0".
pub fn monomial(i: usize) -> Coefs
    requires { i < 33 }
    ensures { IsMonomial i result }
{
    let mut r = [0u16; 33];
    r[i] = 1;
    r
}

// One more than the degree, where there are no terms from top on; 0 for the zero polynomial.
pub fn size_below(a: &[u16], top: usize) -> usize
    requires { (top ≤ 33) × (top ≤ length a.now) × ZeroFrom top a.now }
    ensures { Size a.now result }
{
    match a[..top].iter().rposition(|&c| c != 0) {
        Some(degree) => degree + 1,
        None => 0,
    }
}

// One more than the degree; 0 for the zero polynomial.
pub fn size(a: Coefs) -> usize
    ensures { Size a result }
{
    size_below(&a, 33)
}

// Every coefficient is below n.
pub fn all_below(a: Coefs, n: u16) -> bool
    ensures { result ≡ all_pass (λ c. ltb c n) a }
{
    a.iter().all(|&c| c < n)
}

// a and b have the same coefficients.
pub fn equal(a: Coefs, b: Coefs) -> bool
    ensures { Decides result (a ≡ b) }
{
    a == b
}
