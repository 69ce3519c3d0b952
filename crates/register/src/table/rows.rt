// Making a table, reading its rows and adding one.
ghost use Rattle.std.specs.Prelude.{◌≡◌, ◌+◌, ◌<◌, ◌≤◌, [], ◌∷◌, ◌++◌, length, take, slice_set};
ghost use Rattle.register.specs.Shape.{rows, SameArray};

use super::Table;

impl<'a, T, const MOST: usize> Table<'a, T, MOST> {
    /// A table without rows in an array that has room for them.
    pub(crate) fn new(places: &'a mut [T]) -> Table<'a, T, MOST>
        requires { MOST ≤ length places.old }
        ensures used { result.used ≡ 0 }
        ensures places { result.places.now ≡ places.old }
        ensures lender { result.places.ghost_name ≡ places.entry.ghost_name }
    {
        Table { places, used: 0 }
    }
}

impl<'a, T: Copy, const MOST: usize> Table<'a, T, MOST> {
    /// The rows.
    pub(crate) fn rows(&self) -> &[T]
        ensures { result.now ≡ rows self.now }
    {
        &self.places[..self.used]
    }

    /// One row more.
    #[tactic(auto, using(crate::proofs::Sweeps::pushed))]
    pub(crate) fn push(&mut self, row: T)
        requires { self.old.used < MOST }
        ensures rows { rows self.new ≡ rows self.old ++ (row ∷ []) }
        ensures array { SameArray self.old self.new }
    {
        self.places[self.used] = row;
        self.used += 1;
    }
}
