//! Claims about loop orders and cycles, as calls whose contract is the claim. They do nothing.
ghost use Rattle.std.specs.Prelude.{◌≡◌, ◌≢◌, ◌<◌, ◌+◌, ◌-◌, ℕ, true, List, length, take, slice_index_or};
ghost use Rattle.iteration_graph.specs.Graphs.{IsLoopOrder, NamesCycle, has_edge, is_among};

/// Claim: a loop order has each variable once, and one that an edge leads from before the one that it leads to. There is one.
pub fn edges_lead_forward()
    ensures below { (n : ℕ) (edges : List (ℕ × ℕ)) (loops : List ℕ) (k d : ℕ) → IsLoopOrder n edges loops → k < n →
        slice_index_or loops k d < n }
    ensures once { (n : ℕ) (edges : List (ℕ × ℕ)) (loops : List ℕ) (j k d : ℕ) → IsLoopOrder n edges loops → j < k → k < n →
        slice_index_or loops j d ≢ slice_index_or loops k d }
    ensures forward { (n : ℕ) (edges : List (ℕ × ℕ)) (loops : List ℕ) (u k d : ℕ) → IsLoopOrder n edges loops → k < n → u < n →
        has_edge edges u (slice_index_or loops k d) ≡ true → is_among (take k loops) u ≡ true }
    ensures one { (n : ℕ) (edges : List (ℕ × ℕ)) (loops other : List ℕ) → IsLoopOrder n edges loops → IsLoopOrder n edges other →
        loops ≡ other }
{}

/// Claim: in the cycle that is named an edge leads from each variable to the next, and from the last to the first. There is one,
/// and a graph that has it has no loop order.
pub fn edges_lead_round_a_cycle()
    ensures next { (n : ℕ) (edges : List (ℕ × ℕ)) (cycle : List ℕ) (i d : ℕ) → NamesCycle n edges cycle → i + 1 < length cycle →
        has_edge edges (slice_index_or cycle i d) (slice_index_or cycle (i + 1) d) ≡ true }
    ensures closes { (n : ℕ) (edges : List (ℕ × ℕ)) (cycle : List ℕ) (d : ℕ) → NamesCycle n edges cycle →
        has_edge edges (slice_index_or cycle (length cycle - 1) d) (slice_index_or cycle 0 d) ≡ true }
    ensures one { (n : ℕ) (edges : List (ℕ × ℕ)) (cycle other : List ℕ) → NamesCycle n edges cycle → NamesCycle n edges other →
        cycle ≡ other }
    ensures no_order { (n : ℕ) (edges : List (ℕ × ℕ)) (cycle loops : List ℕ) → NamesCycle n edges cycle → IsLoopOrder n edges loops → ⊥ }
{}
