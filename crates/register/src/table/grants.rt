// Adding and counting grants.
ghost use Rattle.std.specs.Prelude.{◌≡◌, ◌+◌, ◌<◌, ◌≤◌, [], ◌∷◌, ◌++◌, length};
ghost use Rattle.delegation.specs.Found.{Counted};
ghost use Rattle.register.specs.Shape.{rows, SameArray};

use super::Table;
use book::Lot;
use delegation::{Grant, count_on};
use strength::Strength;

impl<'a, S: Strength, const MOST: usize> Table<'a, Grant<S>, MOST> {
    /// How many grants are on the lot.
    pub(crate) fn count_on(&self, lot: Lot) -> usize
        ensures { Counted (λ g. g.lot ≡ lot) (rows self.now) result }
    {
        count_on(self.rows(), lot)
    }

    /// Adds a grant, and answers how many are on its lot now.
    pub(crate) fn add(&mut self, grant: Grant<S>) -> usize
        requires { self.old.used < MOST }
        ensures rows { rows self.new ≡ rows self.old ++ (grant ∷ []) }
        ensures count { Counted (λ g. g.lot ≡ grant.lot) (rows self.new) result }
        ensures array { SameArray self.old self.new }
    {
        self.push(grant);
        self.count_on(grant.lot)
    }
}
