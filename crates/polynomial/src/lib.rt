// Polynomials modulo the square of a prime: the record, zero, one, x and the limit of 32, and the public arithmetic of document 01.
// Each entry point gives back, field by field, what the specification gives for the same records; none has a `requires`. `square`, `proper` and
// `leading` are public for the crates above, and no entry points.
#![tactic(auto)]

ghost use Rattle.std.specs.Prelude.{◌≡◌};
ghost use Rattle.specification.specs.Limits.{◌²};
ghost use Rattle.specification.specs.Records as records;
ghost use Rattle.specification.specs.Polynomials as spec;
ghost use Rattle.refusals.specs.Numbers.{number_of};
ghost use Rattle.polynomial.specs.AsRecord.{as_record, as_result, as_division, accepted, refused_record, refused, divided, refused_division};
ghost use Rattle.polynomial.specs.Checked.{checked};

use arrays::{Coefs, MonicPoly, monomial, size};
use refusals::Refusal;

// A polynomial record: a prime and 33 coefficients, constant first.
#[derive(Clone, Copy)]
pub struct Poly {
    pub prime: u8,
    pub coefs: Coefs,
}

// What zero, one, x, sum, difference and product give back.
#[derive(Clone, Copy)]
pub struct Answer {
    pub number: u8,
    pub place: usize,
    pub poly: Poly,
}

// What division gives back.
#[derive(Clone, Copy)]
pub struct Division {
    pub number: u8,
    pub place: usize,
    pub quotient: Poly,
    pub remainder: Poly,
}

// p², the modulus of a record.
pub fn square(prime: u8) -> u16
    ensures { result ≡ prime ² }
{
    prime as u16 * prime as u16
}

impl Poly {
    pub const LIMIT: usize = 32;

    pub fn zero(prime: u8) -> Answer
        ensures { as_result result ≡ records.zero_of prime }
    {
        fixed(prime, [0u16; 33])
    }

    #[tactic(auto, using(crate::proofs::RecordLaws::one_is))]
    pub fn one(prime: u8) -> Answer
        ensures { as_result result ≡ records.one_of prime }
    {
        fixed(prime, monomial(0))
    }

    #[tactic(auto, using(crate::proofs::RecordLaws::x_is))]
    pub fn x(prime: u8) -> Answer
        ensures { as_result result ≡ records.x_of prime }
    {
        fixed(prime, monomial(1))
    }
}

// Number 0 with a record.
fn accept(prime: u8, coefs: Coefs) -> Answer
    ensures { as_result result ≡ accepted prime coefs }
{
    Answer {
        number: 0,
        place: 0,
        poly: Poly { prime, coefs },
    }
}

// The zero polynomial of prime 2, which refused calls give back.
fn refused_poly() -> Poly
    ensures { as_record result ≡ refused_record }
{
    Poly {
        prime: 2,
        coefs: [0u16; 33],
    }
}

// A refusal's number with that polynomial.
fn refuse(why: Refusal) -> Answer
    ensures { as_result result ≡ refused (number_of why) }
{
    Answer {
        number: why.into(),
        place: 0,
        poly: refused_poly(),
    }
}

// The same coefficients for every taken prime.
fn fixed(prime: u8, coefs: Coefs) -> Answer
    ensures { as_result result ≡ records.result (records.prime_number prime) (record { prime = prime; coefficients = coefs }) }
{
    if primes::taken(prime) {
        accept(prime, coefs)
    } else {
        refuse(Refusal::NotProper)
    }
}

// The prime is taken and every coefficient is below its square.
pub fn proper(a: Poly) -> bool
    ensures { result ≡ records.proper (as_record a) }
{
    primes::taken(a.prime) && arrays::all_below(a.coefs, square(a.prime))
}

// Both records are proper, and of one prime.
fn check_pair(a: Poly, b: Poly) -> Result<(), Refusal>
    ensures { checked result ≡ records.pair_number (as_record a) (as_record b) }
{
    if !proper(a) || !proper(b) {
        return Err(Refusal::NotProper);
    }
    if a.prime != b.prime {
        return Err(Refusal::PrimesDiffer);
    }
    Ok(())
}

// a + b.
pub fn add(a: Poly, b: Poly) -> Answer
    ensures { as_result result ≡ records.sum (as_record a) (as_record b) }
{
    match check_pair(a, b) {
        Ok(()) => accept(a.prime, modular::sum(a.coefs, b.coefs, square(a.prime))),
        Err(why) => refuse(why),
    }
}

// a - b.
pub fn sub(a: Poly, b: Poly) -> Answer
    ensures { as_result result ≡ records.difference (as_record a) (as_record b) }
{
    match check_pair(a, b) {
        Ok(()) => accept(
            a.prime,
            modular::difference(a.coefs, b.coefs, square(a.prime)),
        ),
        Err(why) => refuse(why),
    }
}

// The records are a pair, and one is zero or their degrees add to 32 or less.
#[tactic(auto, using(crate::proofs::Checks::product_refused))]
fn check_product(a: Poly, b: Poly) -> Result<(), Refusal>
    ensures { checked result ≡ records.product_number (as_record a) (as_record b) }
{
    check_pair(a, b)?;
    // A size is one more than the degree, and 0 for zero, so that a product with zero passes.
    if Poly::LIMIT + 2 < size(a.coefs) + size(b.coefs) {
        return Err(Refusal::ProductTooHigh);
    }
    Ok(())
}

// a times b.
pub fn mul(a: Poly, b: Poly) -> Answer
    ensures { as_result result ≡ records.product_of (as_record a) (as_record b) }
{
    match check_product(a, b) {
        Ok(()) => {
            let s = size(a.coefs);
            let t = size(b.coefs);
            accept(
                a.prime,
                modular::product(a.coefs, s, b.coefs, t, square(a.prime)),
            )
        }
        Err(why) => refuse(why),
    }
}

// The coefficient at the degree; 0 for the zero polynomial.
pub fn leading(f: Coefs) -> u16
    ensures { result ≡ spec.leading (records.trim f) }
{
    let s = size(f);
    if s == 0 { 0 } else { f[s - 1] }
}

// The records are a pair, and the divisor is monic.
#[tactic(auto, using(crate::proofs::Checks::division_refused, crate::proofs::Checks::not_monic, crate::proofs::Checks::is_division))]
fn check_division(a: Poly, b: Poly) -> Result<(), Refusal>
    ensures { checked result ≡ records.division_number (as_record a) (as_record b) }
{
    check_pair(a, b)?;
    if leading(b.coefs) != 1 {
        return Err(Refusal::DivisorNotMonic);
    }
    Ok(())
}

// Number 0 with a quotient and a remainder.
fn accept_division(prime: u8, quotient: Coefs, remainder: Coefs) -> Division
    ensures { as_division result ≡ divided prime quotient remainder }
{
    Division {
        number: 0,
        place: 0,
        quotient: Poly {
            prime,
            coefs: quotient,
        },
        remainder: Poly {
            prime,
            coefs: remainder,
        },
    }
}

// A refusal's number with the zero polynomial of prime 2 twice.
fn refuse_division(why: Refusal) -> Division
    ensures { as_division result ≡ refused_division (number_of why) }
{
    Division {
        number: why.into(),
        place: 0,
        quotient: refused_poly(),
        remainder: refused_poly(),
    }
}

// a divided by b, which is monic.
pub fn divide(a: Poly, b: Poly) -> Division
    ensures { as_division result ≡ records.division (as_record a) (as_record b) }
{
    match check_division(a, b) {
        Ok(()) => {
            let s = size(a.coefs);
            let t = size(b.coefs);
            let coefs = b.coefs;
            let divisor = MonicPoly {
                coefs,
                degree: t - 1,
                n: square(a.prime),
            };
            let d = division::divide(a.coefs, s, divisor);
            accept_division(a.prime, d.quotient, d.remainder)
        }
        Err(why) => refuse_division(why),
    }
}
