//! Claims about merge lattices and loops, as calls whose contract is the claim. They do nothing.
ghost use Rattle.std.specs.Prelude.{◌≡◌, ◌↔◌, ℕ, Bool, not, ◌&&◌, true, false, List};
ghost use Rattle.std.specs.List.{list_any};
ghost use Rattle.expr_terms.specs.Terms.{contains};
ghost use Rattle.index_notation.specs.declared.syntax.Expr.{Expr};
ghost use Rattle.lists.specs.Each.{Each};
ghost use Rattle.loop_code.specs.Parts.{is_full, is_live, remains};
ghost use Rattle.merge_lattice.specs.declared.lattices.Point.{Point};
ghost use Rattle.merge_lattice.specs.Lattices.{Has, IsLattice, Within};

/// Claim: where each access that a loop doesn't go through is present, a part of the expression remains exactly where some point of its
/// lattice has all its accesses among those that are present. So it is of the body of a loop at a coordinate, and of the loop's end: it
/// goes on exactly where each access of some point may still come.
#[tactic(auto, using(crate::proofs::PartLaws::remains_by_points))]
pub fn parts_remain_by_points()
    ensures { (iterates : ℕ → Bool) (e : Expr) (points : List Point) → IsLattice iterates e points → (present : ℕ → Bool)
        → ((k : ℕ) → iterates k ≡ false → present k ≡ true) → ((remains present e ≡ true) ↔ Has points (λ p. Within p present)) }
{}

/// Claim: a loop goes over its whole range exactly where some point has accesses alone over which no cursor goes, such as those in hashed
/// levels; where each access that the loop doesn't go through is present.
#[tactic(auto, using(crate::proofs::PartLaws::full_by_points))]
pub fn whole_ranges_are_points()
    ensures { (iterates : ℕ → Bool) (e : Expr) (points : List Point) → IsLattice iterates e points → (other present : ℕ → Bool)
        → ((k : ℕ) → iterates k ≡ false → (other k && present k) ≡ true)
        → ((is_full other present e ≡ true) ↔ Has points (λ p. Within p (λ k. other k && present k))) }
{}

/// Claim: an access that a loop goes through stands in no part that remains where of these accesses only those without order are present,
/// exactly where each point that has it has one in order too. So whether it has to be gathered, or is found at the coordinates of others,
/// is told before a kernel runs.
#[tactic(auto, using(crate::proofs::PointLaws::found_by_points))]
pub fn sought_ones_have_others()
    ensures { (iterates : ℕ → Bool) (e : Expr) (points : List Point) → IsLattice iterates e points → (ordered : ℕ → Bool)
        → (k : ℕ) → iterates k ≡ true
        → ((is_live (λ j. not (iterates j && ordered j)) e k ≡ false)
        ↔ Each (λ p. contains p.iterators k ≡ true → list_any ordered p.iterators ≡ true) points) }
{}

/// Claim: a loop whose cursors go over the accesses in order, and over those without order that stand in a part which remains where only
/// such are present, goes over its whole range only where a part that remains is full. Each other access without order is found at once.
#[tactic(auto, using(crate::proofs::PointLaws::only_full))]
pub fn whole_ranges_are_full()
    ensures { (iterates ordered cursor present : ℕ → Bool) (e : Expr)
        → ((k : ℕ) → iterates k ≡ true → ordered k ≡ true → cursor k ≡ true)
        → ((k : ℕ) → iterates k ≡ true → is_live (λ j. not (iterates j && ordered j)) e k ≡ true → cursor k ≡ true)
        → is_full (λ k. not (iterates k && cursor k)) present e ≡ true → is_full (λ k. not (iterates k)) present e ≡ true }
{}
