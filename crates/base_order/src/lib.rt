// Item 3's order of two polynomials in arrays: which comes first.
// What is public is so for the crates above, and no entry point of the library.
#![tactic(auto)]

ghost use Rattle.std.specs.Prelude.{◌≡◌};
ghost use Rattle.specification.specs.Items1to3.{Before};
ghost use Rattle.lists.specs.Decides.{Decides};
ghost use Rattle.arrays.specs.Listed.{listed};

use arrays::Coefs;

// The coefficients of a up to the degree d: all of them, if it is no place of the array.
fn terms(a: &[u16], d: usize) -> &[u16]
    ensures { result.now ≡ listed d a.now }
{
    a.get(..=d).unwrap_or(a)
}

// Item 3: the polynomial of degree d in a comes before that of degree e in b.
pub fn before(a: Coefs, d: usize, b: Coefs, e: usize) -> bool
    ensures { Decides result (Before (listed d a) (listed e b)) }
{
    let f = terms(&a, d);
    let g = terms(&b, e);
    let by_degree = f.len().cmp(&g.len());
    let by_coefs = f.iter().rev().cmp(g.iter().rev());
    by_degree.then(by_coefs).is_lt()
}
