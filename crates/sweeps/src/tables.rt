// Writing whole tables.
ghost use Rattle.std.specs.Prelude.{length};
ghost use Rattle.sweeps.specs.Tables.{Cleared};

use measure::Measure;

// Writes null into each value and 0 into each count.
pub fn clear<M: Measure>(values: &mut [M], counts: &mut [usize])
    ensures { Cleared M.Measure.algebra (length values.old) (length counts.old) values.new counts.new }
{
    // no `fill`: it asks that a clone cannot fail, which the bound does not say
    for value in values {
        *value = M::null();
    }
    counts.fill(0);
}
