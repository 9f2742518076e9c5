//! Claims about written texts, as calls whose contract is the claim. They do nothing.
ghost use Rattle.std.specs.Prelude.{◌≡◌, ◌≢◌, ℕ, ◌^◌, ◌<◌, ◌≤◌, Bool, false, List, All};
ghost use Rattle.std.specs.Prelude.{length};
ghost use Rattle.limits.specs.Limits.{greatest_order, greatest_file_coordinate};
ghost use Rattle.numbers.specs.Arithmetic.{Arithmetic, Laws};
ghost use Rattle.tns_io.specs.Positions.{IsBelow};
ghost use Rattle.tns_io.specs.Reading.{entries_of_text};
ghost use Rattle.tns_io.specs.Text.{IsTnsText};
ghost use Rattle.tns_io.specs.WrittenLaws.{StandsFor};

/// Claim: a tensor has one text at most.
pub fn tensors_have_one_text()
    ensures { (a : Arithmetic) (signed : Bool) (ranges : List ℕ) (value : List ℕ → ℕ) (first second : List ℕ)
        → IsTnsText a signed ranges value first → IsTnsText a signed ranges value second → first ≡ second }
{}

/// Claim: a written text, read for its order, stands for the tensor that was written: where the ranges are such as a file
/// may have, the values are words, and those that are written have 63 bits, if values have no sign.
#[tactic(auto, using(crate::proofs::WrittenLaws::written_stands))]
pub fn written_texts_stand_for_their_tensor()
    ensures { (a : Arithmetic) (signed : Bool) → Laws a → (ranges : List ℕ) (value : List ℕ → ℕ) (text : List ℕ)
        → IsTnsText a signed ranges value text → length ranges ≤ greatest_order → All (λ range. range ≤ greatest_file_coordinate) ranges
        → ((coords : List ℕ) → IsBelow ranges coords → value coords < 2 ^ 64)
        → (signed ≡ false → (coords : List ℕ) → IsBelow ranges coords → value coords ≢ a.zero → value coords < 2 ^ 63)
        → StandsFor a ranges value (entries_of_text signed (length ranges) text) }
{}
