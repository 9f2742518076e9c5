//! Claims about plans, as calls whose contract is the claim. They do nothing.
ghost use Rattle.std.specs.Prelude.{◌≡◌, ℕ, List, Option, length};
ghost use Rattle.format_spec.specs.Formats.{IsFormat};
ghost use Rattle.format_spec.specs.declared.format.FormatLevel.{FormatLevel};
ghost use Rattle.index_notation.specs.Statement.{IsDistinct, IsNumberedWithSums};
ghost use Rattle.iteration_graph.specs.Graphs.{NamesCycle};
ghost use Rattle.lists.specs.Each.{Each};
ghost use Rattle.mode_planner.specs.Plans.{LeadsForward, planned_edges};
ghost use Rattle.numbers.specs.Arithmetic.{Arithmetic};
ghost use Rattle.index_notation.specs.declared.syntax.Statement.{Statement};
ghost use Rattle.expr_terms.specs.declared.bound.Bound.{Bound};
ghost use Rattle.expr_terms.specs.Ranges.{ranges_of};
ghost use Rattle.expr_terms.specs.Nested.{nested_value};
ghost use Rattle.mode_planner.specs.Planned.{IsPlanned, StoreOrigins, origin_of};
ghost use Rattle.mode_planner.specs.declared.planned.Planned.{Planned};

/// Claim: where an access is stored as its plan tells, in the standing order of its variables, and as before where it isn't named,
/// each of its edges leads from an earlier variable of the standing order to a later one; and where each edge of a graph does, no
/// cycle is named. So a statement whose accesses are all stored so has a loop order.
pub fn planned_loops_have_an_order()
    ensures forward { (count : ℕ) (levels : List FormatLevel) (vars : List ℕ) → IsFormat levels → length levels ≡ length vars
        → IsDistinct vars → Each LeadsForward (planned_edges count levels vars) }
    ensures no_cycle { (n : ℕ) (edges : List (ℕ × ℕ)) (cycle : List ℕ) → Each LeadsForward edges
        → NamesCycle n edges cycle → ⊥ }
{}

/// Claim: where each tensor of a planned statement has the values of the tensor whose entries it stores, the value of the statement at each
/// point is that of the given one.
pub fn planned_statements_keep_values()
    ensures { (a : Arithmetic) (s : Statement) (formats : List (List FormatLevel)) (plan : Planned)
        (values stored : ℕ → List ℕ → ℕ) (ranges : ℕ → ℕ) (coords : List ℕ) → IsNumberedWithSums s
        → IsPlanned s formats plan → StoreOrigins plan values stored
        → nested_value a plan.statement stored ranges coords ≡ nested_value a s values ranges coords }
{}

/// Claim: where each mode of a tensor of a planned statement tells what the tensor whose entries it stores tells there, and the given
/// statement's ranges agree, they are the planned one's.
pub fn planned_statements_keep_ranges()
    ensures { (s : Statement) (formats : List (List FormatLevel)) (plan : Planned) (given : ℕ → Option ℕ) (bounds : ℕ → ℕ → Bound)
        (ranges : List ℕ) → IsPlanned s formats plan → ranges_of s given bounds ≡ Ok ranges
        → ranges_of plan.statement given (λ tensor. bounds (origin_of plan.origins tensor)) ≡ Ok ranges }
{}
