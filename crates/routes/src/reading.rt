ghost use Rattle.std.specs.Prelude.{◌≡◌, List, ℤ, IfOk, MatchOption};
ghost use Rattle.routes.specs.Reading.{Reads};

use columns::Columns;
use std::alloc::{AllocError, Global};

// The whole numbers that a text writes with strokes between, as `2/7`; none where a part is no number of 64 bits.
fn numbers(heap: Global, text: &str) -> Result<Option<Vec<i64>>, AllocError>
    ensures { IfOk result (λ o. MatchOption o ((cs : List ℤ) → Reads text.now cs → ⊥) (λ v. Reads text.now v.items)) }
{
    let mut numbers = Vec::new(heap);
    for part in text.split('/') {
        let Ok(number) = part.parse::<i64>() else {
            return Ok(None);
        };
        numbers.push(number)?;
    }
    Ok(Some(numbers))
}

// The length whose columns a text writes, as `2/7`; none where the text writes no length of this measure.
pub fn read_leg<M: Columns>(heap: Global, text: &str) -> Result<Option<M>, AllocError>
    ensures { IfOk result (λ o. MatchOption o ((a : M) → Reads text.now (M.Columns.columnar.tell a) → ⊥) (λ a. Reads text.now (M.Columns.columnar.tell a))) }
{
    Ok(numbers(heap, text)?.and_then(|columns| M::build(&columns)))
}
