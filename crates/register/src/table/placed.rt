// Rows that lie on lots.
ghost use Rattle.std.specs.Prelude.{◌≡◌, ◌≤◌, ◌++◌, length, take, drop, Decides, ◌≢◌};
ghost use Rattle.book.specs.declared.rows.Lot.{Lot as TheLot};
ghost use Rattle.delegation.specs.Found.{Filtered};
ghost use Rattle.register.specs.Shape.{rows, SameArray};

use super::Table;
use crate::records::Record;
use book::Lot;
use delegation::Grant;
use strength::Strength;

/// A row that lies on a lot.
pub(crate) trait Placed: Copy {
    ghost whose: { Self → TheLot };

    fn lot(self) -> Lot
        ensures { result ≡ whose self };
}

impl<S: Strength> Placed for Grant<S> {
    ghost whose = { λ g. g.lot };

    fn lot(self) -> Lot {
        self.lot
    }
}

impl Placed for Record {
    ghost whose = { λ d. d.lot };

    fn lot(self) -> Lot {
        self.lot
    }
}

/// Whether a row lies on the lot.
fn lies_on<T: Placed>(row: T, lot: Lot) -> bool
    ensures { Decides result (T.whose row ≡ lot) }
{
    row.lot() == lot
}

/// Moves those of the first `used` rows that do not lie on the lot to the front, in their order,
/// and answers how many they are.
fn sweep_lot<T: Placed>(places: &mut [T], used: usize, lot: Lot) -> usize
    requires { used ≤ length places.old }
    ensures few { result ≤ used }
    ensures rows { Filtered (λ x. T.whose x ≢ lot) (take used places.old) (take result places.new) }
    ensures places { places.new ≡ take result places.new ++ drop result places.old }
{
    let mut left = 0;
    // By index: the loop reads and writes one slice, and swaps would change the places behind the rows.
    for i in 0..used {
        let row = places[i];
        if !lies_on(row, lot) {
            places[left] = row;
            left += 1;
        }
    }
    left
}

impl<'a, T: Placed, const MOST: usize> Table<'a, T, MOST> {
    /// Drops the rows that lie on the lot.
    pub(crate) fn drop_lot(&mut self, lot: Lot)
        ensures rows { Filtered (λ x. T.whose x ≢ lot) (rows self.old) (rows self.new) }
        ensures array { SameArray self.old self.new }
    {
        self.used = sweep_lot(self.places, self.used, lot);
    }
}
