// What has a place and a key.
ghost use Rattle.std.specs.Prelude.{◌≡◌, ℕ};

use model::{Declared, Listed, Reference, Use};

// An entry of a list. Keys are told apart by their order.
pub(crate) trait Entry {
    type Key: Ord + Drop;

    ghost place_of: { Self → ℕ };

    ghost key_of: { Self → Self.Key };

    fn place(&self) -> usize
        ensures { result ≡ place_of self.now };

    fn key(&self) -> Self::Key
        ensures { result ≡ key_of self.now };
}

// Siblings are those that one file's module holds.
impl<'a> Entry for Listed<'a> {
    type Key = (Option<usize>, &'a [u8]);

    ghost place_of = { λ m. m.file.place };

    ghost key_of = { λ m. (m.file.holder, m.name) };

    fn place(&self) -> usize {
        self.file.place
    }

    fn key(&self) -> (Option<usize>, &'a [u8]) {
        (self.file.holder, self.name)
    }
}

impl<'a> Entry for Use<'a> {
    type Key = Reference<'a>;

    ghost place_of = { λ u. u.place };

    ghost key_of = { λ u. u.reference };

    fn place(&self) -> usize {
        self.place
    }

    fn key(&self) -> Reference<'a> {
        self.reference
    }
}

impl<'a> Entry for Declared<'a> {
    type Key = &'a [u8];

    ghost place_of = { λ d. d.place };

    ghost key_of = { λ d. d.name };

    fn place(&self) -> usize {
        self.place
    }

    fn key(&self) -> &'a [u8] {
        self.name
    }
}
