ghost use Rattle.std.specs.Prelude.{◌≡◌, ◌^◌, ◌<◌, IfOk, string_bytes};
ghost use Rattle.columns.specs.Text.{row_text};

use super::Columns;
use std::alloc::{AllocError, Global};

// The columns of a value with a stroke between, as `2/7`. No `Display`: what is printed holds for fewer than 2^64 columns, which its
// contract cannot ask.
pub fn column_text<M: Columns>(heap: Global, value: &M) -> Result<String, AllocError>
    ensures { M.Columns.columnar.width < 2 ^ 64 → IfOk result (λ t. string_bytes t ≡ row_text (M.Columns.columnar.tell value.now)) }
{
    let mut text = String::new(heap);
    // by number, as a value tells its columns
    for i in 0..M::width() {
        if i > 0 {
            text.push('/')?;
        }
        if let Some(number) = value.column(i) {
            write!(text, "{number}")?;
        }
    }
    Ok(text)
}
