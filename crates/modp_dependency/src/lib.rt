// The least dependency of a linear map modulo a prime p, given by the images of the x^i: the monic polynomial of least degree that goes to 0.
// The images are brought into echelon form, each beside a polynomial that goes to it. What is public is so for the crates
// above, and no entry point of the library.
#![tactic(auto)]

ghost use Rattle.std.specs.Prelude.{IfSome, ◌≡◌, ◌<◌, ◌≤◌, ◌-◌, ◌+◌, length};
ghost use Rattle.algebra.specs.Fields.{Prime};
ghost use Rattle.algebra.specs.Degree.{Below, Monic};
ghost use Rattle.algebra.specs.CoefficientLists.{poly, Reduced};
ghost use Rattle.arrays.specs.Sizes.{Size};
ghost use Rattle.modp_dependency.specs.Reduction.{TakenOff, Reducible, ReducedBy};
ghost use Rattle.modp_dependency.specs.StoredRows.{row_images, row_preimages, FreeSlot};
ghost use Rattle.modp_dependency.specs.Storing.{Stored};
ghost use Rattle.modp_dependency.specs.Dependency.{Images, DependencyFound};

use arrays::{Coefs, MonicPoly, monomial, size_below};
use modular::add_in_place;
use residues::inverse;

// An image, and a polynomial that goes to it.
#[derive(Clone, Copy)]
struct Row {
    image: Coefs,
    preimage: Coefs,
}

// The image in hand, of the size given, and a polynomial that goes to it.
#[derive(Clone, Copy)]
struct Held {
    image: Coefs,
    size: usize,
    preimage: Coefs,
    ghost sized: { Size image size },
}

impl Held {
    // The leading term of the image is taken off by the row in its slot, whose preimage has i terms, and as much off the preimage.
    fn take_off(&mut self, row: &Row, i: usize, p: u16)
        requires { (0 < self.old.size) × (i ≤ 33) × Reduced p 33 self.old.image × Reduced p 33 self.old.preimage × Reduced p 33 row.now.image
            × Monic (self.old.size - 1) (poly p row.now.image) × Reduced p 33 row.now.preimage × Below i (poly p row.now.preimage) }
        ensures { TakenOff p self.old.size self.old.image self.old.preimage row.now.image row.now.preimage
            self.new.image self.new.preimage self.new.size }
    {
        let top = self.size - 1;
        let c = p - self.image[top];
        add_in_place(&mut self.image, c, &row.image, self.size, p);
        add_in_place(&mut self.preimage, c, &row.preimage, i, p);
        self.size = size_below(&self.image, top);
    }

    // The same, until the slot is free or nothing is left.
    fn reduce(&mut self, rows: &[Row], i: usize, p: u16)
        requires { Reducible p i rows.now self.old.size self.old.image self.old.preimage }
        ensures { ReducedBy p i rows.now self.old.size self.old.image self.old.preimage self.new.size self.new.image self.new.preimage }
    {
        while 0 < self.size && rows[self.size - 1].image[self.size - 1] != 0 {
            self.take_off(&rows[self.size - 1], i, p);
        }
    }

    // Image and preimage, of degree i, go into the slot of the image's degree, which is free, both times the constant that makes the image monic: the slot
    // holds 0, and the multiples are added to it in place.
    fn store(&self, rows: &mut [Row], i: usize, p: u16)
        requires { Prime p × (0 < self.now.size) × (self.now.size ≤ length rows.old) × (i < 33) × FreeSlot p rows.old (self.now.size - 1)
            × Reduced p 33 self.now.image × Reduced p 33 self.now.preimage × Below (i + 1) (poly p self.now.preimage) }
        ensures { Stored p (row_images rows.old) (row_preimages rows.old) self.now.image self.now.preimage (self.now.size - 1)
            (row_images rows.new) (row_preimages rows.new) }
    {
        let k = self.size - 1;
        let c = inverse(self.image[k], p);
        add_in_place(&mut rows[k].image, c, &self.image, self.size, p);
        add_in_place(&mut rows[k].preimage, c, &self.preimage, i + 1, p);
    }
}

// The least dependency among the polynomials with terms of degree first to count - 1, whose images have d terms, if there is one: the image of each x^i is
// reduced by the rows, and is a row of its own where it does not go to 0. Rows are lent, so that none is copied.
pub fn least_dependency(
    images: &[Coefs],
    first: usize,
    count: usize,
    d: usize,
    p: u16,
) -> Option<MonicPoly>
    requires { Prime p × (first ≤ count) × (count ≤ 33) × (d ≤ 33) × Images p count d images.now }
    ensures { DependencyFound p images.now first count result × IfSome result (λ v. v.n ≡ p) }
{
    let none = Row {
        image: [0u16; 33],
        preimage: [0u16; 33],
    };
    let mut rows = [none; 33];
    for i in first..count {
        let image = images[i];
        let preimage = monomial(i);
        let size = size_below(&image, d);
        let mut held = Held {
            image,
            size,
            preimage,
        };
        held.reduce(&rows, i, p);
        if held.size == 0 {
            let coefs = held.preimage;
            let found = MonicPoly {
                coefs,
                degree: i,
                n: p,
            };
            return Some(found);
        }
        held.store(&mut rows[..d], i, p);
    }
    None
}
