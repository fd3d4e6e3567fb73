// Arithmetic modulo n on arrays of 33 coefficients, constant first: n is a prime or its square. Multiple, sum, difference and product
// are built of one loop in place, r + c·b. The contracts speak of polynomials over ℤ/n. What is public is so for the crates above, and no entry point of
// the library.
#![tactic(auto)]

ghost use Rattle.std.specs.Prelude.{◌≡◌, map, ◌<◌, ◌≤◌, ◌/◌, ◌+◌, length};
ghost use Rattle.algebra.specs.Residues.{residue};
ghost use Rattle.algebra.specs.PolynomialRing.{◌+ᴿ◌, ◌·◌, -ᴿ◌, constant};
ghost use Rattle.algebra.specs.Degree.{Below};
ghost use Rattle.algebra.specs.CoefficientLists.{poly, Reduced};
ghost use Rattle.algebra.specs.Monomials.{x^};
ghost use Rattle.arrays.specs.Represents.{Represents, Within, ZeroFrom};
ghost use Rattle.modular.specs.InPlace.{Added};

use arrays::Coefs;
use residues::Modulus;

// m, or the next multiple of 8, but `most` at most. Below 8 there are no whole steps of eight.
fn padded(m: usize, most: usize) -> usize
    requires { m ≤ most }
    ensures { (m ≤ result) × (result ≤ most) }
{
    let past = m % 8;
    if m < 8 {
        return m;
    }
    if past == 0 {
        return m;
    }
    if 8 - past <= most - m {
        m + (8 - past)
    } else {
        most
    }
}

// r + c·b in place, where b has m terms. Past its terms b is 0, so that the loop may run on over them.
pub fn add_by(r: &mut [u16], c: u16, b: &[u16], m: usize, modulus: Modulus)
    requires { (c ≤ modulus.n) × (m ≤ length r.old) × (length r.old ≤ length b.now) × Within modulus.n r.old × Within modulus.n b.now
        × ZeroFrom m b.now }
    ensures { Added modulus.n r.old c b.now r.new }
{
    let end = padded(m, r.len());
    for j in 0..end {
        r[j] = modulus.add_product(r[j], c, b[j]);
    }
}

// r + c·b in place, where b has m terms; nothing where c is 0 or n.
pub fn add_in_place(r: &mut [u16], c: u16, b: &[u16], m: usize, n: u16)
    requires { (c ≤ n) × (m ≤ length r.old) × (length r.old ≤ length b.now) × Within n r.old × Within n b.now × ZeroFrom m b.now }
    ensures { Added n r.old c b.now r.new }
{
    if c == 0 {
        return;
    }
    if c == n {
        return;
    }
    add_by(r, c, b, m, Modulus::new(n));
}

// a + c·x^k·b, where b has m terms.
pub fn add_multiple(a: Coefs, c: u16, b: Coefs, k: usize, m: usize, n: u16) -> Coefs
    requires { (c ≤ n) × Reduced n 33 a × Reduced n 33 b × Below m (poly n b) × (k + m ≤ 33) }
    ensures { Represents n result (poly n a +ᴿ constant (residue n c) · (x^ k · poly n b)) }
{
    let mut r = a;
    add_in_place(&mut r[k..], c, &b, m, n);
    r
}

// c·a, where a has s terms; a itself where c is 1, as every inverse modulo 2 is.
pub fn multiple(c: u16, a: Coefs, s: usize, n: u16) -> Coefs
    requires { (c ≤ n) × (s ≤ 33) × Reduced n 33 a × Below s (poly n a) }
    ensures { Represents n result (constant (residue n c) · poly n a) }
{
    if c == 1 {
        return a;
    }
    let zero = [0u16; 33];
    add_multiple(zero, c, a, 0, s, n)
}

// a + b.
pub fn sum(a: Coefs, b: Coefs, n: u16) -> Coefs
    requires { Reduced n 33 a × Reduced n 33 b }
    ensures { Represents n result (poly n a +ᴿ poly n b) }
{
    add_multiple(a, 1, b, 0, 33, n)
}

// a - b: n - 1 stands for minus one.
pub fn difference(a: Coefs, b: Coefs, n: u16) -> Coefs
    requires { Reduced n 33 a × Reduced n 33 b }
    ensures { Represents n result (poly n a +ᴿ -ᴿ poly n b) }
{
    add_multiple(a, n - 1, b, 0, 33, n)
}

// a·b, where a has s terms and b has t. Terms that are 0 are passed over, and the reciprocal is made once.
pub fn product(a: Coefs, s: usize, b: Coefs, t: usize, n: u16) -> Coefs
    requires { Reduced n 33 a × Reduced n 33 b × (s ≤ 33) × (s + t ≤ 34) × Below s (poly n a) × Below t (poly n b) }
    ensures { Represents n result (poly n a · poly n b) }
{
    let modulus = Modulus::new(n);
    let mut r = [0u16; 33];
    for i in 0..s {
        let c = a[i];
        if c != 0 {
            add_by(&mut r[i..], c, &b, t, modulus);
        }
    }
    r
}

// Every entry modulo n.
pub fn modulo(a: Coefs, n: u16) -> Coefs
    requires { 0 < n }
    ensures { Represents n result (poly n a) }
{
    let modulus = Modulus::new(n);
    let mut r = a;
    for i in 0..33 {
        r[i] = modulus.reduce_narrow(a[i]);
    }
    r
}

// Every entry divided by p.
pub fn over(a: Coefs, p: u16) -> Coefs
    requires { 0 < p }
    ensures { result ≡ map (λ v. v / p) a }
{
    let modulus = Modulus::new(p);
    let mut q = a;
    for i in 0..33 {
        q[i] = modulus.quotient_narrow(a[i]);
    }
    q
}
