//! A claim about operands, as a call whose contract is the claim. It does nothing.
ghost use Rattle.std.specs.Prelude.{◌≡◌, ℕ, List};
ghost use Rattle.numbers.specs.Arithmetic.{Arithmetic};
ghost use Rattle.tensor_map.specs.Entries.{Entry};
ghost use Rattle.format_spec.specs.declared.format.FormatLevel.{FormatLevel};
ghost use Rattle.tensor_storage.specs.Counts.{AreFew};
ghost use Rattle.operand_packing.specs.Packed.{FitsLevels, HavePositions};

/// Claim: however the entries of an operand are summed up and arranged for its format, its levels have one number of positions each. So
/// what is asked of operands that fit, of all such numbers, and what is told of one that is too large, of some, is of the same ones: an
/// operand fits as soon as the numbers of one arrangement are few.
pub fn operands_have_one_count()
    ensures count { (a : Arithmetic) (format : List FormatLevel) (sizes : List ℕ) (entries : List Entry) (first second : List ℕ)
        → HavePositions a format sizes entries first → HavePositions a format sizes entries second → first ≡ second }
    ensures fits { (a : Arithmetic) (format : List FormatLevel) (sizes : List ℕ) (entries : List Entry) (counts : List ℕ)
        → HavePositions a format sizes entries counts → AreFew counts → FitsLevels a format sizes entries }
{}
