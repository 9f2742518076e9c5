//! Whether a statement has a meaning over a semiring that may have no minus.
ghost use Rattle.std.specs.Prelude.{IsTrue};
ghost use Rattle.expr_terms.specs.Minus.{HasMeaning};
ghost use Rattle.index_notation.specs.declared.syntax.NestedSum.{NestedSum};
ghost use Rattle.lists.specs.Each.{Each};
ghost use Rattle.nested_sums.specs.Pieces.{HasMeaningWithSums};

use expr_terms::has_meaning;
use index_notation::{NestedSum, Statement};
use numbers::Semiring;

/// Whether what stands inside each of these sums has one.
fn have_meaning<S: Semiring>(sums: &[NestedSum]) -> bool
    ensures told { IsTrue result → Each (λ (sum : NestedSum). HasMeaning S.has_minus sum.inside) sums.now }
    ensures found { Each (λ (sum : NestedSum). HasMeaning S.has_minus sum.inside) sums.now → IsTrue result }
{
    let Some((first, others)) = sums.split_first() else {
        return true;
    };
    has_meaning::<S>(&first.inside) && have_meaning::<S>(others)
}

/// Whether a statement has a meaning over a semiring: there is a minus, or none stands in the statement, inside of its sums too.
pub fn has_meaning_with_sums<S: Semiring>(statement: &Statement) -> bool
    ensures told { IsTrue result → HasMeaningWithSums S.has_minus statement.now }
    ensures found { HasMeaningWithSums S.has_minus statement.now → IsTrue result }
{
    has_meaning::<S>(&statement.expr) && have_meaning::<S>(statement.sums.as_slice())
}
