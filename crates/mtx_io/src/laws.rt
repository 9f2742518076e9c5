//! Claims about written texts, as calls whose contract is the claim. They do nothing.
ghost use Rattle.std.specs.Prelude.{◌≡◌, ℕ, ◌^◌, ◌<◌, ◌≤◌, Bool, false, List, All, length};
ghost use Rattle.mtx_io.specs.Matrix.{matrix_of_text};
ghost use Rattle.limits.specs.Limits.{greatest_matrix_size, greatest_file_coordinate, greatest_matrix_entries};
ghost use Rattle.numbers.specs.Arithmetic.{Arithmetic, Laws};
ghost use Rattle.mtx_io.specs.Progress.{IsMatrixOrder};
ghost use Rattle.mtx_io.specs.Text.{IsMatrixText};
ghost use Rattle.mtx_io.specs.WrittenLaws.{StandsFor};

/// Claim: a tensor has one text at most.
pub fn tensors_have_one_text()
    ensures { (a : Arithmetic) (signed : Bool) → Laws a → (ranges : List ℕ) (value : List ℕ → ℕ) (first second : List ℕ)
        → IsMatrixText a signed ranges value first → IsMatrixText a signed ranges value second → first ≡ second }
{}

/// Claim: a written text, read for its order, stands for the tensor that was written: where the ranges are such as a file may
/// have, and the values that aren't zero are no more than a file may announce, and have 63 bits, if values have no sign.
pub fn written_texts_stand_for_their_tensor()
    ensures { (a : Arithmetic) (has_minus signed : Bool) (ranges : List ℕ) (value : List ℕ → ℕ) (text : List ℕ)
        (is : IsMatrixText a signed ranges value text) → IsMatrixOrder (length ranges)
        → All (λ range. range ≤ greatest_matrix_size) ranges → All (λ range. range ≤ greatest_file_coordinate) ranges
        → length is.entries ≤ greatest_matrix_entries → (signed ≡ false → All (λ entry. entry.value < 2 ^ 63) is.entries)
        → StandsFor a ranges value (matrix_of_text a has_minus signed (length ranges) text) }
{}
