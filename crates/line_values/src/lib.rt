// The values of the pieces of a typed line, modulo p²: a number, x, sum, difference, product and power, each a value or the refusal 16 or 17.
// What is public is so for the crate above, and no entry point of the library.
#![tactic(auto)]

ghost use Rattle.std.specs.Prelude.{◌≡◌, suc, ◌≤◌, ◌*◌, Err};
ghost use Rattle.specification.specs.Limits.{◌²};
ghost use Rattle.algebra.specs.CoefficientLists.{poly, 𝓩[x]/, Reduced};
ghost use Rattle.algebra.specs.Divisibility.{pow};
ghost use Rattle.algebra.specs.Degree.{Below};
ghost use Rattle.lists.specs.Decides.{Decides};
ghost use Rattle.arrays.specs.Represents.{Represents};
ghost use Rattle.line_values.specs.Worth.{Sound, Both, OfNumber, OfX, SignedSum, OfSum, OfProduct, OfPower};

use arrays::Coefs;
use modular::{difference, product, sum};
use polynomial::square;
use primes::TakenPrime;
use refusals::Refusal;

/// The value of a piece, or 16 or 17: the number that turns the line back, but only once it is read whole.
pub type Value = Result<Coefs, Refusal>;

// Whether the refusal is 16, which comes before all others of a piece.
pub fn is_too_large(a: Value) -> bool
    ensures { Decides result (a ≡ Err Refusal.LineTooLarge) }
{
    matches!(a, Err(Refusal::LineTooLarge))
}

// Both values, or the refusal that comes first: 16 before 17.
#[tactic(auto, using(crate::proofs::Judging::both_second, crate::proofs::Judging::both_first_refused, crate::proofs::Judging::both_second_refused))]
fn both(a: Value, b: Value) -> Result<(Coefs, Coefs), Refusal>
    ensures { Both a b result }
{
    if matches!(b, Err(Refusal::LineTooLarge)) {
        return Err(Refusal::LineTooLarge);
    }
    Ok((a?, b?))
}

// A number as a term, "taken modulo p²"; 16 if it is "over 65,535".
#[tactic(auto, using(crate::proofs::Pieces::number_large, crate::proofs::Pieces::number_small, algebra::specs::TakenPrimes::square_above_one))]
pub fn of_number(v: u32, p: TakenPrime) -> Value
    ensures { OfNumber p.value v result }
{
    if 65535 < v {
        return Err(Refusal::LineTooLarge);
    }
    let mut coefs = [0u16; 33];
    coefs[0] = (v % u32::from(square(p.value))) as u16;
    Ok(coefs)
}

// x.
#[tactic(auto, using(crate::proofs::Pieces::variable_with))]
pub fn of_x() -> Value
    ensures { OfX result }
{
    Ok(arrays::monomial(1))
}

/// What stands between two parts of a sum.
#[derive(Clone, Copy)]
pub enum Sign {
    Plus,
    Minus,
}

// a + b or, after a minus, a - b.
#[tactic(auto, using(crate::proofs::Sums::sum_with, crate::proofs::Sums::difference_with, algebra::specs::TakenPrimes::square_above_one))]
pub fn signed_sum(sign: Sign, a: Value, b: Value, p: TakenPrime) -> Value
    requires { Sound p.value a × Sound p.value b }
    ensures { SignedSum p.value sign a b result }
{
    let (f, g) = both(a, b)?;
    match sign {
        Sign::Plus => Ok(sum(f, g, square(p.value))),
        Sign::Minus => Ok(difference(f, g, square(p.value))),
    }
}

// The same by the byte of the sign: any but `-` adds.
pub fn of_sum(sign: u8, a: Value, b: Value, p: TakenPrime) -> Value
    requires { Sound p.value a × Sound p.value b }
    ensures { OfSum p.value sign a b result }
{
    if sign == b'-' {
        signed_sum(Sign::Minus, a, b, p)
    } else {
        signed_sum(Sign::Plus, a, b, p)
    }
}

// a·b; 17 where neither is zero and their degrees add to more than 32.
#[tactic(auto, using(crate::proofs::Products::product_high, crate::proofs::Products::product_with))]
pub fn of_product(a: Value, b: Value, p: TakenPrime) -> Value
    requires { Sound p.value a × Sound p.value b }
    ensures { OfProduct p.value a b result }
{
    let (f, g) = both(a, b)?;
    let s = arrays::size(f);
    let t = arrays::size(g);
    if 34 < s + t {
        return Err(Refusal::NoPattern);
    }
    Ok(product(f, s, g, t, square(p.value)))
}

// f to the power e, where f has degree d at most.
fn power(f: Coefs, d: usize, e: usize, p: TakenPrime) -> Coefs
    requires { Reduced (p.value ²) 33 f × (d ≤ 32) × Below (suc d) (poly (p.value ²) f) × (e * d ≤ 32) }
    ensures { Represents (p.value ²) result (pow (𝓩[x]/ (p.value ²)) (poly (p.value ²) f) e) }
{
    let n = square(p.value);
    let mut r = arrays::monomial(0);
    for i in 0..e {
        let next = product(f, d + 1, r, i * d + 1, n);
        r = next;
    }
    r
}

// a to the power e; 16 if e is "over 32", 17 where the degree of a, e times, is more than 32.
#[tactic(auto, using(crate::proofs::Powers::power_large, crate::proofs::Powers::power_high, crate::proofs::Powers::power_with))]
pub fn of_power(a: Value, e: u32, p: TakenPrime) -> Value
    requires { Sound p.value a }
    ensures { OfPower p.value a e result }
{
    if 32 < e {
        return Err(Refusal::LineTooLarge);
    }
    let f = a?;
    let d = arrays::size(f).saturating_sub(1);
    let e = e as usize;
    if 32 < e * d {
        Err(Refusal::NoPattern)
    } else {
        Ok(power(f, d, e, p))
    }
}
