// The taken primes, which no other place of the code lists. What is public is so for the crates above, and no entry point of the library.
#![tactic(auto)]

ghost use Rattle.std.specs.Prelude.{◌≡◌, true, false, MatchOption};
ghost use Rattle.specification.specs.Limits as limits;
ghost use Rattle.primes.specs.PrimePlaces.{Place};

const PRIMES: [u8; 54] = [
    2, 3, 5, 7, 11, 13, 17, 19, 23, 29, 31, 37, 41, 43, 47, 53, 59, 61, 67, 71, 73, 79, 83, 89, 97,
    101, 103, 107, 109, 113, 127, 131, 137, 139, 149, 151, 157, 163, 167, 173, 179, 181, 191, 193,
    197, 199, 211, 223, 227, 229, 233, 239, 241, 251,
];

// The place of a number in the list; none for a number that is not taken.
pub fn place(prime: u8) -> Option<usize>
    ensures { Place prime result }
{
    PRIMES.iter().position(|&p| p == prime)
}

// The number is a taken prime.
pub fn taken(prime: u8) -> bool
    ensures { result ≡ limits.taken prime }
{
    place(prime).is_some()
}

// A prime that is taken, below 256.
#[derive(Clone, Copy)]
pub struct TakenPrime {
    pub value: u8,
    pub ghost taken: { limits.taken value ≡ true },
}

impl TakenPrime {
    pub const TWO: TakenPrime = TakenPrime { value: 2 };

    // The number as a prime; none for a number that is not taken.
    pub fn new(value: u8) -> Option<TakenPrime>
        ensures { MatchOption result (limits.taken value ≡ false) (λ p. p.value ≡ value) }
    {
        if taken(value) {
            Some(TakenPrime { value })
        } else {
            None
        }
    }
}
