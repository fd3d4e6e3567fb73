// Bytes written into a lent area: each writer is lent a cursor, and leaves it past its bytes.
// All is public for the crates above, and no entry point of the library.
#![tactic(auto)]

ghost use Rattle.std.specs.Prelude.{[], ◌∷◌, ◌+◌, ◌≤◌, ◌<◌, length};
ghost use Rattle.area.specs.Cursors.{Puts};

// A lent area, and the place in it where writing goes on.
#[derive(Drop)]
pub struct Cursor<'a> {
    pub area: &'a mut [u8],
    pub at: usize,
}

impl<'a> Cursor<'a> {
    // One byte.
    pub fn put(&mut self, b: u8)
        requires { self.old.at < length self.old.area.now }
        ensures { Puts self.old self.new (b ∷ []) }
    {
        self.area[self.at] = b;
        self.at += 1;
    }

    // Several bytes, such as a command with its operands, or a word.
    pub fn put_all(&mut self, bytes: &[u8])
        requires { self.old.at + length bytes.now ≤ length self.old.area.now }
        ensures { Puts self.old self.new bytes.now }
    {
        let after = self.at + bytes.len();
        self.area[self.at..after].copy_from_slice(bytes);
        self.at = after;
    }
}
