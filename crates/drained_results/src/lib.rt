//! What is needed so that workspaces can be drained into a result that rows are appended to: laws alone, in `specs/` and `proofs/`.
#![tactic(auto)]
