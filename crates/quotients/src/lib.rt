// Arithmetic modulo a monic polynomial q of degree d over ℤ/n, on arrays of 33 coefficients: remainders, multiples by powers of x, products
// and powers. Each answer is the one remainder of its polynomial by q. What is public is so for the crates above, and no entry point of the library.
#![tactic(auto)]

ghost use Rattle.std.specs.Prelude.{◌<◌, ◌≤◌, length};
ghost use Rattle.algebra.specs.Divisibility.{pow};
ghost use Rattle.algebra.specs.PolynomialRing.{◌·◌, x};
ghost use Rattle.algebra.specs.Degree.{Below};
ghost use Rattle.algebra.specs.CoefficientLists.{poly, Reduced, 𝓩[x]/};
ghost use Rattle.algebra.specs.Monomials.{x^};
ghost use Rattle.arrays.specs.Represents.{ZeroFrom};
ghost use Rattle.quotients.specs.Remainder.{Remainder};
ghost use Rattle.quotients.specs.Shift.{MovedUp};

use arrays::{Coefs, MonicPoly};

// a modulo q, where a has s terms.
pub fn remainder(a: Coefs, s: usize, q: MonicPoly) -> Coefs
    requires { Reduced q.n 33 a × (s ≤ 33) × Below s (poly q.n a) }
    ensures { Remainder q.n q.coefs q.degree result (poly q.n a) }
{
    division::divide(a, s, q).remainder
}

// x·r in place, where r has d terms: each coefficient goes up one place.
fn move_up(r: &mut [u16], d: usize)
    requires { (d < length r.old) × ZeroFrom d r.old }
    ensures { MovedUp r.old r.new }
{
    r.copy_within(..d, 1);
    r[0] = 0;
}

// x·r modulo q in place, where r is reduced: one turn of a division. All 32 places move: a fixed number of them takes a machine a few steps.
pub fn shift(r: &mut [u16], q: &MonicPoly)
    requires { Reduced q.now.n 33 r.old × Below q.now.degree (poly q.now.n r.old) }
    ensures { Remainder q.now.n q.now.coefs q.now.degree r.new (x · poly q.now.n r.old) }
{
    move_up(r, 32);
    let c = q.n - r[q.degree];
    modular::add_in_place(r, c, &q.coefs, q.degree + 1, q.n)
}

// x^k·a modulo q, where a is reduced.
pub fn times_power_of_x(k: usize, a: Coefs, q: MonicPoly) -> Coefs
    requires { Reduced q.n 33 a × Below q.degree (poly q.n a) }
    ensures { Remainder q.n q.coefs q.degree result (x^ k · poly q.n a) }
{
    let mut r = a;
    for _ in 0..k {
        shift(&mut r, &q);
    }
    r
}

// a·b modulo q, where b is reduced, by Horner's rule from the top of a: as many turns as a has terms.
pub fn product_modulo(a: Coefs, b: Coefs, q: MonicPoly) -> Coefs
    requires { Reduced q.n 33 a × Reduced q.n 33 b × Below q.degree (poly q.n b) }
    ensures { Remainder q.n q.coefs q.degree result (poly q.n a · poly q.n b) }
{
    let mut r = [0u16; 33];
    for i in (0..arrays::size(a)).rev() {
        shift(&mut r, &q);
        modular::add_in_place(&mut r, a[i], &b, q.degree, q.n);
    }
    r
}

// a^k modulo q, where a is reduced: the square of the power to k / 2, and once more a where k is odd. The products with a take as many turns as a has terms.
pub fn power(a: Coefs, k: u16, q: MonicPoly) -> Coefs
    requires { (0 < k) × Reduced q.n 33 a × Below q.degree (poly q.n a) }
    ensures { Remainder q.n q.coefs q.degree result (pow (𝓩[x]/ q.n) (poly q.n a) k) }
{
    if k == 1 {
        return a;
    }
    let h = power(a, k / 2, q);
    let s = product_modulo(h, h, q);
    if k % 2 == 0 {
        return s;
    }
    product_modulo(a, s, q)
}
