// The 6,027 inverses modulo the taken primes, in one flat table with offsets by prime.
#![tactic(auto)]

ghost use Rattle.std.specs.Prelude.{◌≡◌, ◌<◌, get_or};
ghost use Rattle.specification.specs.Limits.{primes};
ghost use Rattle.inverses.specs.Rule.{Rule};
ghost use Rattle.inverses.specs.InverseTable as of;
ghost use Rattle.inverses.specs.InverseTable.{Inverses};
ghost use Rattle.inverses.specs.Answer.{Answer};

mod entries; // entries.rt: the table's bytes

// Where the entries of each prime begin: after the q − 1 entries of each prime q before it.
const OFFSETS: [usize; 54] = [
    0, 1, 3, 7, 13, 23, 35, 51, 69, 91, 119, 149, 185, 225, 267, 313, 365, 423, 483, 549, 619, 691,
    769, 851, 939, 1035, 1135, 1237, 1343, 1451, 1563, 1689, 1819, 1955, 2093, 2241, 2391, 2547,
    2709, 2875, 3047, 3225, 3405, 3595, 3787, 3983, 4181, 4391, 4613, 4839, 5067, 5299, 5537, 5777,
];

// The whole table, with its rule.
fn table() -> [u8; 6027]
    ensures { Inverses result }
{
    entries::INVERSES
}

// Where the entries of the prime at the place `row` of the list begin.
fn offset(row: usize) -> usize
    requires { row < 54 }
    ensures { result ≡ of.offset row }
{
    OFFSETS[row]
}

// The table's entry for the unit a modulo the prime at that place.
fn entry_at(row: usize, a: u8) -> u8
    requires { (row < 54) × (0 < a) × (a < get_or primes row 0) }
    ensures { Rule (get_or primes row 0) a result }
{
    let t = table();
    let first = offset(row);
    t[first + (a as usize - 1)]
}

// The inverse of a modulo the prime, for a taken prime and 0 < a < prime; 0 in every other case.
pub fn inverse(prime: u8, a: u8) -> u8
    ensures { Answer prime a result }
{
    let Some(row) = primes::place(prime) else {
        return 0;
    };
    if (1..prime).contains(&a) {
        entry_at(row, a)
    } else {
        0
    }
}
