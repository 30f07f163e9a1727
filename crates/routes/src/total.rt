ghost use Rattle.std.specs.Prelude.{◌≡◌};
ghost use Rattle.routes.specs.Total.{total};

use measure::Measure;

// Null joined with the legs' lengths from the first to the last; none where a join on the way is absent.
pub fn route_length<M: Measure>(legs: &[M]) -> Option<M>
    ensures { result ≡ total M.Measure.algebra legs.now }
{
    legs.iter()
        .try_fold(M::null(), |length, leg| length.join(leg))
}
