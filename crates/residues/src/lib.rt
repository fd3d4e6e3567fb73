// Numbers modulo n: remainders and quotients, by a division or by a product with the reciprocal that a `Modulus` has, and inverses modulo a prime.
// All is public for the crates above, and no entry point of the library.
#![tactic(auto)]

ghost use Rattle.std.specs.Prelude.{◌≡◌, ◌<◌, ◌≤◌, ◌/◌, ◌%◌, ◌+◌, ◌*◌};
ghost use Rattle.algebra.specs.Fields.{Prime};

// s modulo n, by a division.
pub fn reduce(n: u16, s: u64) -> u16
    requires { 0 < n }
    ensures { (result ≡ s % n) × (result < n) }
{
    (s % (n as u64)) as u16
}

// c·z modulo n, where c is below n: with no division where z is 1, as the unit of a monic divisor is.
pub fn times(c: u16, z: u16, n: u16) -> u16
    requires { c < n }
    ensures { (result ≡ c * z % n) × (result < n) }
{
    if z == 1 {
        return c;
    }
    reduce(n, c as u64 * z as u64)
}

// A modulus n with the reciprocal (2^32 - 1) / n, by which sums are reduced: a product in place of a division gives the quotient, or one less.
#[derive(Clone, Copy)]
pub struct Modulus {
    pub n: u16,
    pub reciprocal: u32,
    pub ghost positive: { 0 < n },
    pub ghost is_reciprocal: { reciprocal ≡ 4294967295 / n },
}

impl Modulus {
    // The modulus n.
    pub fn new(n: u16) -> Modulus
        requires { 0 < n }
        ensures { result.n ≡ n }
    {
        Modulus {
            n,
            reciprocal: 4294967295 / (n as u32),
        }
    }

    // s modulo n.
    pub fn reduce(self, s: u32) -> u16
        ensures { result ≡ s % self.n }
    {
        let n = self.n as u32;
        let q = (s as u64 * self.reciprocal as u64 / 4294967296) as u32;
        let t = s - q * n;
        if t < n { t as u16 } else { (t - n) as u16 }
    }

    // s / n in 16 bits, or one less, by the upper half of the reciprocal, (2^16 - 1) / n.
    fn estimate(self, s: u16) -> u16
        ensures { (result * self.n ≤ s) × (s < result * self.n + self.n + self.n) }
    {
        let w = (self.reciprocal / 65536) as u16;
        (s as u32 * w as u32 / 65536) as u16
    }

    // s modulo n in 16 bits.
    pub fn reduce_narrow(self, s: u16) -> u16
        ensures { result ≡ s % self.n }
    {
        let t = s - self.estimate(s) * self.n;
        if t < self.n { t } else { t - self.n }
    }

    // s / n in 16 bits.
    pub fn quotient_narrow(self, s: u16) -> u16
        ensures { result ≡ s / self.n }
    {
        let q = self.estimate(s);
        let t = s - q * self.n;
        if t < self.n { q } else { q + 1 }
    }

    // y + c·z modulo n. Below 256 the sum has 16 bits, of which a machine takes eight at a time.
    pub fn add_product(self, y: u16, c: u16, z: u16) -> u16
        requires { (y < self.n) × (c ≤ self.n) × (z < self.n) }
        ensures { result ≡ (y + c * z) % self.n }
    {
        if self.n < 256 {
            self.reduce_narrow(y + c * z)
        } else {
            self.reduce(y as u32 + c as u32 * z as u32)
        }
    }
}

// The inverse of c modulo p, by descent, as in `algebra/Fields`: c·r stays e modulo p, and (p / e)·e is -(p % e).
pub fn inverse(c: u16, p: u16) -> u16
    requires { Prime p × (0 < c) × (c < p) }
    ensures { (result < p) × (c * result % p ≡ 1) }
{
    let mut r: u16 = 1;
    let mut e = c;
    while e != 1 {
        r = times(r, p - p / e, p);
        e = p % e;
    }
    r
}
