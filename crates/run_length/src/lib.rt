// The run length of a monic f modulo p²: the least k from 1 to 65,535 for which f divides x^k − 1.
// Small steps and great ones: x^0 to x^1023 by shifts, of which only marks are kept, then x^1024, x^2048 and so on to x^65536. Where a great step is a small
// one, x^(1024·j) = x^i, the run is 1024·j − i, since x is a unit modulo f. `run_length` is public for the crates above, and no entry point of the library.
#![tactic(auto)]

ghost use Rattle.std.specs.Prelude.{◌≡◌, ◌<◌, ◌≤◌, ◌+◌, ◌-◌, ◌*◌, T, length, get_or};
ghost use Rattle.specification.specs.RunLength as lengths;
ghost use Rattle.lists.specs.Decides.{Decides};
ghost use Rattle.lists.specs.Entries.{Replaced};
ghost use Rattle.algebra.specs.Degree.{Below};
ghost use Rattle.algebra.specs.CoefficientLists.{poly, Reduced};
ghost use Rattle.algebra.specs.Monomials.{x^};
ghost use Rattle.arrays.specs.Listed.{listed};
ghost use Rattle.arrays.specs.Held.{MonicModSquare};
ghost use Rattle.quotients.specs.Remainder.{Remainder};
ghost use Rattle.run_length.specs.Marks.{small_steps, marked, Marks};
ghost use Rattle.run_length.specs.Meetings.{IsPower, Meeting};
ghost use Rattle.run_length.specs.Rows.{Rows, SmallRows, GreatStep};

use arrays::{Coefs, MonicPoly, equal, monomial};
use modular::add_by;
use quotients::{shift, times_power_of_x};
use residues::Modulus;

// How many small steps there are.
const SMALL: usize = 1024;

// How many great steps there are: the last is x^65536.
const GREAT: usize = 64;

// Room for 32 rows of 33 entries.
const ROWS: usize = 32 * 33;

// Any numbers do: they only keep marks apart.
const WEIGHTS: [u16; 33] = [
    40503, 52711, 61681, 34961, 58367, 45677, 37199, 64891, 49999, 55441, 33937, 62929, 42853,
    57737, 36229, 47911, 60493, 38917, 53891, 65003, 44101, 50849, 35597, 59369, 41177, 63841,
    46811, 54647, 39343, 56269, 48533, 61027, 43481,
];

// A number that equal arrays share.
fn mark(a: &[u16; 33], w: &[u16; 33]) -> u32
    ensures { result ≡ marked w.now a.now }
{
    let mut s: u64 = 0;
    for i in 0..33 {
        s += a[i] as u64 * w[i] as u64;
    }
    (s % 4294967296) as u32
}

// The marks of x^0 to x^1023 modulo f; gives x^1024.
fn small_steps(marks: &mut [u32], f: &MonicPoly, w: &[u16; 33]) -> Coefs
    requires { (1 < f.now.n) × (0 < f.now.degree) × (length marks.old ≡ small_steps) }
    ensures { Marks f.now.n f.now.coefs f.now.degree w.now marks.new small_steps
        × Remainder f.now.n f.now.coefs f.now.degree result (x^ small_steps) }
{
    let mut r = monomial(0);
    for i in 0..SMALL {
        marks[i] = mark(&r, w);
        shift(&mut r, f);
    }
    r
}

// g is x^i modulo f.
fn is_power(i: usize, g: Coefs, f: &MonicPoly) -> bool
    requires { (1 < f.now.n) × (0 < f.now.degree) × Reduced f.now.n 33 g × Below f.now.degree (poly f.now.n g) }
    ensures { Decides result (IsPower f.now.n f.now.coefs g i) }
{
    let r = times_power_of_x(i, monomial(0), *f);
    equal(r, g)
}

// The highest small step that is g, if there is one. Few great steps share a mark with a small one, and `contains` looks at several marks at a time. Marks that
// agree by chance cost only time.
fn meeting(marks: &[u32], g: Coefs, f: &MonicPoly, w: &[u16; 33]) -> Option<usize>
    requires { (1 < f.now.n) × (0 < f.now.degree) × Marks f.now.n f.now.coefs f.now.degree w.now marks.now small_steps × Reduced f.now.n 33 g
        × Below f.now.degree (poly f.now.n g) }
    ensures { Meeting f.now.n f.now.coefs g result }
{
    let m = mark(&g, w);
    if !marks.contains(&m) {
        return None;
    }
    for i in (0..SMALL).rev() {
        let met = marks[i] == m && is_power(i, g, f);
        if met {
            return Some(i);
        }
    }
    None
}

// t becomes the 33 entries from k on.
fn store_row(rows: &mut [u16], k: usize, t: &[u16; 33])
    requires { k + 33 ≤ length rows.old }
    ensures { Replaced 0 (λ j. get_or t.now (j - k) 0) rows.old k rows.new (k + 33) }
{
    rows[k..k + 33].copy_from_slice(t);
}

// x^i·y modulo f for i below d, in rows of 33 entries: the map that takes g to g·y.
fn rows_of(rows: &mut [u16], y: Coefs, f: &MonicPoly)
    requires { (f.now.degree * 33 ≤ length rows.old) × Reduced f.now.n 33 y × Below f.now.degree (poly f.now.n y) }
    ensures { Rows f.now.n f.now.coefs f.now.degree y f.now.degree rows.new }
{
    let mut t = y;
    for i in 0..f.degree {
        store_row(rows, i * 33, &t);
        shift(&mut t, f);
    }
}

// g·y modulo f, from the rows of y: d additions, and no shift.
fn great_step(rows: &[u16], g: Coefs, f: &MonicPoly) -> Coefs
    requires { SmallRows f.now.n f.now.degree rows.now × Reduced f.now.n 33 g × Below f.now.degree (poly f.now.n g) }
    ensures { GreatStep f.now.n f.now.degree rows.now g result }
{
    let modulus = Modulus::new(f.n);
    let mut r = [0u16; 33];
    for i in 0..f.degree {
        let k = i * 33;
        add_by(&mut r, g[i], &rows[k..k + 33], f.degree, modulus);
    }
    r
}

// The run length of f, of degree d, where p does not divide its constant coefficient.
pub fn run_length(f: Coefs, d: usize, p: u16) -> u16
    requires { MonicModSquare p f d × T (lengths.has_run p (listed d f)) }
    ensures { result ≡ lengths.run_length p (listed d f) }
{
    let q = MonicPoly {
        coefs: f,
        degree: d,
        n: p * p,
    };
    let w = WEIGHTS;
    let mut marks = [0u32; SMALL];
    let y = small_steps(&mut marks, &q, &w);
    let mut rows = [0u16; ROWS];
    rows_of(&mut rows, y, &q);
    let mut g = y;
    for j in 1..=GREAT {
        if let Some(i) = meeting(&marks, g, &q, &w) {
            let k = j * SMALL - i;
            if k <= 65535 {
                return k as u16;
            }
            return 0;
        }
        let v = great_step(&rows, g, &q);
        g = v;
    }
    0
}
