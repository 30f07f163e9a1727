ghost use Rattle.std.specs.Prelude.{◌≡◌, Some, refl};
ghost use Rattle.std.specs.Ordering.{is_eq};
ghost use Rattle.std.specs.List.Sorted.{IsPermutation};
ghost use Rattle.std.specs.Cmp.{eq_by_cmp_equiv, partial_equiv_from_equiv, partial_order_from_agreeing_total};
ghost use Rattle.routes.specs.Ranking.{route_compare, InOrder};
ghost use Rattle.routes.specs.Orders.{total_order};

use measure::Measure;
use std::cmp::Ordering;

// A route by its number in the list of routes, with its length.
#[derive(Clone, Copy)]
pub struct Route<M> {
    pub number: usize,
    pub length: M,
}

// By length, and among equal lengths by number. By hand: lengths compare by `compare`, which no derive calls.
impl<M: Measure> Ord for Route<M> {
    ghost cmp = { λ a b. route_compare M.Measure.algebra a b };

    ghost total = { total_order M.Measure.lawful };

    ghost matches_partial_cmp = { λ _ _. refl };

    ghost matches_eq = { λ _ _. refl };

    fn cmp(&self, other: &Route<M>) -> Ordering {
        self.length
            .compare(&other.length)
            .then_with(|| self.number.cmp(&other.number))
    }
}

impl<M: Measure> PartialOrd for Route<M> {
    ghost partial_cmp = { λ a b. Some (route_compare M.Measure.algebra a b) };

    ghost laws = { partial_order_from_agreeing_total (route_compare M.Measure.algebra) (total_order M.Measure.lawful) (λ _ _. refl) (λ _ _. refl) };

    fn partial_cmp(&self, other: &Route<M>) -> Option<Ordering> {
        Some(self.cmp(other))
    }
}

impl<M: Measure> PartialEq for Route<M> {
    ghost eq = { λ a b. is_eq (route_compare M.Measure.algebra a b) };

    ghost laws = { partial_equiv_from_equiv (eq_by_cmp_equiv (total_order M.Measure.lawful)) };

    fn eq(&self, other: &Route<M>) -> bool {
        self.cmp(other).is_eq()
    }
}

impl<M: Measure> Eq for Route<M> {
    ghost laws = { eq_by_cmp_equiv (total_order M.Measure.lawful) };
}

// Puts the routes into order, the first before the next by length, and among equal lengths by number.
pub fn rank<M: Measure>(routes: &mut Vec<Route<M>>)
    ensures same { IsPermutation routes.old.items routes.new.items }
    ensures order { InOrder M.Measure.algebra routes.new.items }
{
    routes.sort_unstable();
}

// Whether two routes are equally long.
pub fn equally_long<M: Measure>(a: &Route<M>, b: &Route<M>) -> bool
    ensures { result ≡ is_eq (M.Measure.algebra.compare a.now.length b.now.length) }
{
    a.length.compare(&b.length).is_eq()
}
