// Measures whose values are rows of whole numbers: what a file and a report see of a length.
#![tactic(auto)]

ghost use Rattle.std.specs.Prelude.{◌≡◌};
ghost use Rattle.std.specs.List.{slice_get};
ghost use Rattle.columns.specs.Columnar.{Columnar, Inverse, told};
ghost use Rattle.columns.specs.Tables.{sum_columns, reversed_columns, then_columns};
ghost use Rattle.columns.specs.Inverses.{sum_inverse, reversed_inverse, then_inverse};

use measure::{LARGEST, Measure, Reversed, Sum, Then};

mod kind;
#[cfg(test)]
mod tests;
mod text;

pub use kind::{Kind, UnknownKind};
pub use text::column_text;

// A measure that also tells a value's whole numbers and builds the value from them.
pub trait Columns: Measure {
    ghost columnar: { Columnar Self };

    // How many columns a value has, or the largest number of this type if there are more.
    fn width() -> usize
        ensures { result ≡ told columnar.width };

    // The number in column i, counted from 0.
    fn column(&self, i: usize) -> Option<i64>
        ensures { result ≡ slice_get (columnar.tell self.now) i };

    // The value of these columns; none where their number is not the width, or one is outside -2^62 to 2^62.
    fn build(columns: &[i64]) -> Option<Self>
        ensures { result ≡ columnar.build columns.now };

    ghost inverse: { Inverse columnar };
}

impl Columns for Sum {
    ghost columnar = { sum_columns };

    ghost inverse = { sum_inverse };

    fn width() -> usize {
        1
    }

    fn column(&self, i: usize) -> Option<i64> {
        if i == 0 { Some(self.value) } else { None }
    }

    fn build(columns: &[i64]) -> Option<Sum> {
        match columns {
            [number] if number.unsigned_abs() <= LARGEST => Some(Sum::new(*number)),
            _ => None,
        }
    }
}

impl<M: Columns> Columns for Reversed<M> {
    ghost columnar = { reversed_columns M.Columns.columnar };

    ghost inverse = { reversed_inverse _ M.Columns.inverse };

    fn width() -> usize {
        M::width()
    }

    fn column(&self, i: usize) -> Option<i64> {
        self.value.column(i)
    }

    fn build(columns: &[i64]) -> Option<Reversed<M>> {
        let value = M::build(columns)?;
        Some(Reversed { value })
    }
}

impl<F: Columns, S: Columns> Columns for Then<F, S> {
    ghost columnar = { then_columns F.Columns.columnar S.Columns.columnar };

    ghost inverse = { then_inverse _ _ F.Columns.inverse S.Columns.inverse };

    fn width() -> usize {
        F::width().saturating_add(S::width())
    }

    fn column(&self, i: usize) -> Option<i64> {
        self.first
            .column(i)
            .or_else(|| self.second.column(i - F::width()))
    }

    fn build(columns: &[i64]) -> Option<Then<F, S>> {
        let front = F::width();
        if columns.len() < front {
            return None;
        }
        let (left, right) = columns.split_at(front);
        let first = F::build(left)?;
        let second = S::build(right)?;
        Some(Then { first, second })
    }
}
