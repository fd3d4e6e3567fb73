// Algorithm 4.5 of document 002: the verdict on one primary polynomial f modulo p², a part, and its factors by items 4 to 9.
// `split_part` takes the steps in the order of the text, each under its line; the values are made, and proved, in `part_values`.
// What is public is so for the crates above, and no entry point of the library.
#![tactic(auto)]

ghost use Rattle.std.specs.Prelude.{◌≡◌, ◌<◌, ◌≤◌, ◌*◌};
ghost use Rattle.specification.specs.Limits.{◌²};
ghost use Rattle.specification.specs.Answers.{verdict_number};
ghost use Rattle.specification.specs.Algorithm45.{is_split};
ghost use Rattle.algebra.specs.Divisibility.{pow};
ghost use Rattle.algebra.specs.CoefficientLists.{poly, 𝓩[x]/};
ghost use Rattle.arrays.specs.Represents.{Represents};
ghost use Rattle.part_values.specs.Given.{Given};
ghost use Rattle.part_verdict.specs.AsPart.{as_verdict, one_factor, two_factors};
ghost use Rattle.part_verdict.specs.PartFound.{PartFound};

use arrays::{Coefs, MonicPoly, size};
use part_values::{
    Multiplicity, digit_lift, divided_by_exponent, h_bar, highest, last_factor, lifted,
};
use residues::reduce;

// The text's "f is basic irreducible", "f is irreducible", one pair and two pairs. "a split verdict carries m1 with it".
#[derive(Clone, Copy)]
pub enum Verdict {
    Basic,
    Solid,
    Power,
    Split(usize),
}

// "verdict 1 to 4".
impl From<Verdict> for u8 {
    ghost from_gives = { λ verdict number. number ≡ verdict_number (as_verdict verdict) };

    fn from(verdict: Verdict) -> u8 {
        match verdict {
            Verdict::Basic => 1,
            Verdict::Solid => 2,
            Verdict::Power => 3,
            Verdict::Split(_) => 4,
        }
    }
}

// A monic polynomial modulo p² and how many times it is a factor.
#[derive(Clone, Copy)]
pub struct Factor {
    pub coefs: Coefs,
    pub degree: usize,
    pub times: usize,
}

// "The verdict is held inside the part's record". `base` is G, `degree` its degree and `exponent` m. A second factor is there where the verdict is split.
#[derive(Clone, Copy)]
pub struct Part {
    pub base: Coefs,
    pub degree: usize,
    pub exponent: usize,
    pub verdict: Verdict,
    pub first: Factor,
    pub second: Option<Factor>,
}

// A part over G^m with one factor: its coefficients, its degree, its times.
fn one_factor(
    base: MonicPoly,
    m: usize,
    verdict: Verdict,
    coefs: Coefs,
    degree: usize,
    times: usize,
) -> Part
    ensures { result ≡ one_factor base.coefs base.degree m verdict coefs degree times }
{
    let base_coefs = base.coefs;
    Part {
        base: base_coefs,
        degree: base.degree,
        exponent: m,
        verdict,
        first: Factor {
            coefs,
            degree,
            times,
        },
        second: None,
    }
}

// A part over G^m with the pairs (g, m1) and (last, 1); `degree` is that of `last`.
fn two_factors(base: MonicPoly, g: Coefs, m: usize, m1: usize, last: Coefs, degree: usize) -> Part
    ensures { result ≡ two_factors base.coefs g base.degree m m1 last degree }
{
    let base_coefs = base.coefs;
    Part {
        base: base_coefs,
        degree: base.degree,
        exponent: m,
        verdict: Verdict::Split(m1),
        first: Factor {
            coefs: g,
            degree: base.degree,
            times: m1,
        },
        second: Some(Factor {
            coefs: last,
            degree,
            times: 1,
        }),
    }
}

// "(p|m) or (m1 ≤ m − 2)".
fn splits(m: usize, m1: usize, p: u16) -> bool
    requires { (0 < p) × (2 ≤ m) }
    ensures { result ≡ is_split p m m1 }
{
    let a = reduce(p, m as u64);
    if a == 0 { true } else { m1 <= m - 2 }
}

// Algorithm 4.5 for r = 1, line by line, where f is primary, of degree m·d. `base` is G modulo p, of degree d, `whole` is g^m, and `h` is h̄, which is zero
// where its size is 0; w and u are reduced modulo p, so they are w̄ and ū.
pub fn split_part(f: Coefs, base: MonicPoly, m: usize, whole: Coefs) -> Part
    requires { Given base.n base.coefs base.degree m f × Represents (base.n ²) whole (pow (𝓩[x]/ (base.n ²)) (poly (base.n ²) base.coefs) m) }
    ensures { PartFound base.n f (m * base.degree) result }
{
    let (d, p) = (base.degree, base.n);
    // "Determine G ∈ GF(p^r)[x] and m ≥ 1 so that f̄ = G^m and G is irreducible.": factoring modulo p has determined them, and they are handed in.
    // "if m = 1 then return("f is basic irreducible")"
    if m == 1 {
        return one_factor(base, m, Verdict::Basic, f, m * d, 1);
    }
    // "Choose g ∈ GR(p^2, r)[x] monic so that ḡ = G and determine h so that ph = f − g^m."
    let lift = digit_lift(base.coefs);
    let g = MonicPoly {
        coefs: lift,
        degree: d,
        n: p * p,
    };
    let h = h_bar(whole, f, p);
    // "if h̄ = 0 then return(((g, m)))"
    if size(h) == 0 {
        return one_factor(base, m, Verdict::Power, g.coefs, d, m);
    }
    // "Determine the maximum m1 so that G^m1 | h̄ and determine w so that h̄ = G^m1·w̄."
    let Multiplicity { m1, w } = highest(h, base, m);
    // "if m1 = 0 then return("f is irreducible")"
    if m1 == 0 {
        return one_factor(base, m, Verdict::Solid, f, m * d, 1);
    }
    // "if (p|m) or (m1 ≤ m − 2) then return(((g, m1), (g^(m−m1) + pw, 1)))"
    if splits(m, m1, p) {
        let last = last_factor(g, m - m1, w, p);
        return two_factors(base, g.coefs, m, m1, last, (m - m1) * d);
    }
    // "Choose u such that ū = (m̄)^−1·w̄."
    let u = divided_by_exponent(w, d, m, p);
    // "return(((g + pu, m)))"
    let root = lifted(g.coefs, u, d, p);
    one_factor(base, m, Verdict::Power, root, d, m)
}
