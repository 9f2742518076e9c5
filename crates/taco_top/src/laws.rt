//! Claims about what the program does, as calls whose contract is the claim: what follows from what words ask for, and from the
//! contract of `taco`. They do nothing.
ghost use Rattle.std.specs.Prelude.{◌≡◌, ℕ, ◌⊎◌, List, Option, None, Some, String, map, string_bytes};
ghost use Rattle.std.specs.declared.alloc.Global.{Global};
ghost use Rattle.outside.specs.Count.{Rose};
ghost use Rattle.outside.specs.Folder.{FolderState};
ghost use Rattle.outside.specs.Sink.{SinkState};
ghost use Rattle.command_line.specs.CommandLine.{Workload, command_line_of};
ghost use Rattle.format_spec.specs.declared.format.FormatLevel.{FormatLevel};
ghost use Rattle.index_notation.specs.declared.syntax.Statement.{Statement};
ghost use Rattle.command_line.specs.declared.Over.{Over};
ghost use Rattle.command_line.specs.declared.Task.{Task};
ghost use Rattle.mode_planner.specs.Planned.{HaveOrder};
ghost use Rattle.refusals.specs.declared.fault.Fault.{Fault};
ghost use Rattle.refusals.specs.declared.fault.Fault.TheVariants.{Named};
ghost use Rattle.refusals.specs.declared.fault.NamedFault.TheVariants.{Cycle};
ghost use Rattle.command_line.specs.declared.Task.TheVariants as task;
ghost use Rattle.taco_top.specs.Asked.{Asks, IsRefusedByWords, IsWant};
ghost use Rattle.taco_top.specs.Written.{HasResult, IsAccepted, IsWritten};
ghost use Rattle.taco_top.specs.Told.{IsComputed};
ghost use Rattle.taco_top.specs.Ends.{Ends, Refused};
ghost use Rattle.taco_top.specs.Run.{AsksFor, Request};
ghost use Rattle.taco_top.specs.Values.{values_in};
ghost use Rattle.taco_top.specs.Whole.{IsWhole};
ghost use Rattle.taco_top.specs.WholeExec.{IsWholeExec};

/// Claim: a command line asks for one task of one statement over one semiring, with one list of formats, of files and of ranges; or it
/// asks for a workload,
/// and then for no statement. One that asks for something is refused for want of memory alone.
pub fn one_request_a_command_line()
    ensures task { (words : List (List ℕ)) (task other : Task) (over under : Over) (s t : Statement) (formats layouts : List
        (List FormatLevel))
        (files others : List (ℕ × List ℕ)) (ranges given : List (Option ℕ))
        → Asks words task over s formats files ranges → Asks words other under t layouts others given → task ≡ other }
    ensures over { (words : List (List ℕ)) (task other : Task) (over under : Over) (s t : Statement) (formats layouts : List
        (List FormatLevel))
        (files others : List (ℕ × List ℕ)) (ranges given : List (Option ℕ))
        → Asks words task over s formats files ranges → Asks words other under t layouts others given → over ≡ under }
    ensures statement { (words : List (List ℕ)) (task other : Task) (over under : Over) (s t : Statement) (formats layouts : List
        (List FormatLevel))
        (files others : List (ℕ × List ℕ)) (ranges given : List (Option ℕ))
        → Asks words task over s formats files ranges → Asks words other under t layouts others given → s ≡ t }
    ensures formats { (words : List (List ℕ)) (task other : Task) (over under : Over) (s t : Statement) (formats layouts : List
        (List FormatLevel))
        (files others : List (ℕ × List ℕ)) (ranges given : List (Option ℕ))
        → Asks words task over s formats files ranges → Asks words other under t layouts others given → formats ≡ layouts }
    ensures files { (words : List (List ℕ)) (task other : Task) (over under : Over) (s t : Statement) (formats layouts : List
        (List FormatLevel))
        (files others : List (ℕ × List ℕ)) (ranges given : List (Option ℕ))
        → Asks words task over s formats files ranges → Asks words other under t layouts others given → files ≡ others }
    ensures ranges { (words : List (List ℕ)) (task other : Task) (over under : Over) (s t : Statement) (formats layouts : List
        (List FormatLevel))
        (files others : List (ℕ × List ℕ)) (ranges given : List (Option ℕ))
        → Asks words task over s formats files ranges → Asks words other under t layouts others given → ranges ≡ given }
    ensures never_both { (words : List (List ℕ)) (task : Task) (over : Over) (s : Statement) (formats : List (List FormatLevel))
        (files : List (ℕ × List ℕ)) (ranges : List (Option ℕ)) (fault : Fault)
        → Asks words task over s formats files ranges → IsRefusedByWords words fault → IsWant fault }
    ensures workload_alone { (words : List (List ℕ)) (size : ℕ) (task : Task) (over : Over) (s : Statement) (formats : List
        (List FormatLevel))
        (files : List (ℕ × List ℕ)) (ranges : List (Option ℕ))
        → command_line_of words ≡ Some (Workload size) → Asks words task over s formats files ranges → ⊥ }
    ensures workload_taken { (words : List (List ℕ)) (size : ℕ) (fault : Fault)
        → command_line_of words ≡ Some (Workload size) → IsRefusedByWords words fault → IsWant fault }
{}

/// Claim: where all input of `run`, `auto` or `report` is whole and no count of faults rose, a call ends with status 0, and so with its
/// file
/// or its text, or with want of memory. So it does where all input of `exec` is whole, a kernel that has a result among it. A result's
/// file is one, whatever else the folder and the streams have seen.
pub fn whole_input_is_computed()
    ensures ends { (words : List (String Global)) (files files' : FolderState) (out out' err err' : SinkState) (status : ℕ)
        → IsWhole (values_in (map string_bytes words)) (map string_bytes words) files.holds
        → (Rose files.read_faults files'.read_faults → ⊥)
        → (Rose files.write_faults files'.write_faults → ⊥) → (Rose out.faults out'.faults → ⊥)
        → Ends words files files' out out' err err' status → (status ≡ 0) ⊎ (status ≡ 5) }
    ensures executed { (words : List (String Global)) (files files' : FolderState) (out out' err err' : SinkState) (status : ℕ)
        → IsWholeExec (map string_bytes words) files.holds → (Rose files.read_faults files'.read_faults → ⊥)
        → (Rose files.write_faults files'.write_faults → ⊥) → (Rose out.faults out'.faults → ⊥)
        → Ends words files files' out out' err err' status → (status ≡ 0) ⊎ (status ≡ 5) }
    ensures texts { (words : List (List ℕ)) (files files' others others' : FolderState) (out out' away away' : SinkState)
        → IsWhole (values_in words) words files.holds → others.holds ≡ files.holds
        → (first : IsWritten (values_in words) words files files' out out')
        → (second : IsWritten (values_in words) words others others' away away')
        → first.writes.text ≡ second.writes.text }
{}

/// Claim: where the words ask for a kernel and pass, where they ask for a plan, and where they ask for a generated workload, a call ends
/// with status 0, and so with its text, unless the output failed, or with want of memory. So no cycle refuses a plan.
pub fn texts_are_printed()
    ensures kernels { (words : List (String Global)) (request : Request) (files files' : FolderState) (out out' err err' : SinkState)
        (status : ℕ) → IsAccepted (map string_bytes words) request → request.task ≡ task.Kernel
        → (Rose out.faults out'.faults → ⊥) → Ends words files files' out out' err err' status → (status ≡ 0) ⊎ (status ≡ 5) }
    ensures plans { (words : List (String Global)) (request : Request) (files files' : FolderState) (out out' err err' : SinkState)
        (status : ℕ) → AsksFor (map string_bytes words) request → request.task ≡ task.Plan → (Rose out.faults out'.faults → ⊥)
        → Ends words files files' out out' err err' status → (status ≡ 0) ⊎ (status ≡ 5) }
    ensures workloads { (words : List (String Global)) (size : ℕ) (files files' : FolderState) (out out' err err' : SinkState)
        (status : ℕ) → command_line_of (map string_bytes words) ≡ Some (Workload size) → (Rose out.faults out'.faults → ⊥)
        → Ends words files files' out out' err err' status → (status ≡ 0) ⊎ (status ≡ 5) }
{}

/// Claim: where the words ask for `auto`, no call ends with a cycle of storage orders. And where the loops of a statement have an order,
/// what is run of it is the statement itself, in the formats of its tensors: nothing is planned.
pub fn cycles_are_mended()
    ensures no_cycle { (words : List (String Global)) (request : Request) (files files' : FolderState) (out out' err err' : SinkState)
        (status : ℕ) (s : Statement) (cycle : List ℕ) → AsksFor (map string_bytes words) request → request.task ≡ task.Auto
        → (ends : Ends words files files' out out' err err' status) → ends.ended ≡ Refused (Named s (Cycle cycle)) → ⊥ }
    ensures as_asked { (words : List (List ℕ)) (files between : FolderState) (values : HasResult (values_in words) words files between)
        → HaveOrder values.request.statement values.request.formats → (computed : IsComputed (values_in words) words files between values)
        → computed.plan ≡ None }
{}

/// Claim: status 2 is that of words that are no command line, and they have no other but that of want of memory.
pub fn usage_is_of_words_alone()
    ensures told { (words : List (String Global)) (files files' : FolderState) (out out' err err' : SinkState)
        → Ends words files files' out out' err err' 2 → command_line_of (map string_bytes words) ≡ None }
    ensures found { (words : List (String Global)) (files files' : FolderState) (out out' err err' : SinkState) (status : ℕ)
        → command_line_of (map string_bytes words) ≡ None → Ends words files files' out out' err err' status
        → (status ≡ 2) ⊎ (status ≡ 5) }
{}
