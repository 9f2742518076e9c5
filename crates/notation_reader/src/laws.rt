//! The claim that a text has one answer, as a call whose contract is the claim. It does nothing.
ghost use Rattle.std.specs.Prelude.{◌≡◌, ℕ, List};
ghost use Rattle.index_notation.specs.declared.syntax.Statement.{Statement};
ghost use Rattle.notation_grammar.specs.declared.fault.NotationFault.{NotationFault};
ghost use Rattle.notation_grammar.specs.Notation.{IsNotationOf, IsFaultOf};

/// Claim: a text has one answer: one statement at most, one fault at most, and never both.
pub fn one_answer_a_text()
    ensures statement { (text : List ℕ) (s t : Statement) → IsNotationOf text s → IsNotationOf text t → s ≡ t }
    ensures fault { (text : List ℕ) (f g : NotationFault) → IsFaultOf text f → IsFaultOf text g → f ≡ g }
    ensures never_both { (text : List ℕ) (s : Statement) (f : NotationFault) → IsNotationOf text s → IsFaultOf text f → ⊥ }
{}
