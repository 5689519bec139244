//! Two orders of entries, in which entries that are alike come to stand side by side.
ghost use Rattle.std.specs.Prelude.{◌≡◌, ◌≢◌, true, length, AllPairs, IsTrue};
ghost use Rattle.std.specs.List.{AllAdjacentBelow};
ghost use Rattle.std.specs.List.Sorted.{IsPermutation};
ghost use Rattle.std.specs.declared.cmp.Ordering.TheVariants.{Less, Equal};
ghost use Rattle.std.specs.Ordering.{is_lt};
ghost use Rattle.octo_keeper.specs.Order.{compared};

use print_queue::QueueEntry;
use std::cmp::Ordering;

// What entries are compared by.
#[derive(Clone, Copy)]
pub(crate) enum Order {
    // Their arrival.
    Arrival,
    // Their user, and then their name.
    Key,
}

impl Order {
    // How two entries compare.
    fn compare(self, a: &QueueEntry, b: &QueueEntry) -> Ordering
        ensures { result ≡ compared self a.now b.now }
    {
        match self {
            Order::Arrival => a.arrival.cmp(&b.arrival),
            Order::Key => a
                .user
                .as_bytes()
                .cmp(b.user.as_bytes())
                .then(a.name.as_bytes().cmp(b.name.as_bytes())),
        }
    }

    // Whether one entry comes before another.
    fn is_less(self, a: &QueueEntry, b: &QueueEntry) -> bool
        ensures { result ≡ is_lt (compared self a.now b.now) }
    {
        self.compare(a, b).is_lt()
    }

    // Whether each entry comes before the next one.
    fn rises(self, rows: &[QueueEntry]) -> bool
        ensures { IsTrue result → AllAdjacentBelow
            (λ a b. is_lt (compared self a b) ≡ true) rows.now (length rows.now) }
    {
        for place in 1..rows.len() {
            if !self.is_less(&rows[place - 1], &rows[place]) {
                return false;
            }
        }
        true
    }

    // Sorts entries.
    fn sort(self, rows: &mut [QueueEntry])
        ensures { IsPermutation rows.old rows.new }
    {
        rows.sort_unstable_by(|a, b| self.compare(a, b));
    }

    // Sorts entries, and says whether no two of them are equal in this order, so that each is less than all later ones.
    #[tactic(auto, using(crate::proofs::Orders::less_from_rising, crate::proofs::Orders::apart_from_rising))]
    pub(crate) fn tells_apart(self, rows: &mut [QueueEntry]) -> bool
        ensures same { IsPermutation rows.old rows.new }
        ensures rises { IsTrue result → AllPairs (λ a b. compared self a b ≡ Less) rows.new }
        ensures apart { IsTrue result → AllPairs (λ a b. compared self a b ≢ Equal) rows.new }
    {
        self.sort(rows);
        self.rises(rows)
    }
}
