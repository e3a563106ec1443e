//! That wrong linkings are told by runs.
ghost use Rattle.linked_runs.specs.Wrong.Laws.{RunsOtherwise};
ghost use Rattle.linked_runs.specs.Wrong.Parts.{commons_parts, constructors_parts, inside_parts, structs_parts, winner_parts, first_kept, name_kept, order_turned, struct_shared, unaligned};

/// Each of these modules is what a linker with one mistake makes of parts, and runs otherwise than these: a local variable is renamed
/// where it is defined and not inside the initialiser of another; the first of a weak and a strong function counts; constructors are
/// appended in the other order; a common that wins keeps its own alignment alone; a struct is shared with one of its name that is not
/// equal (LangRef, "Linkage Types", "The 'llvm.global_ctors' Global Variable").
pub fn wrong_linkings_run_otherwise()
    ensures inside { RunsOtherwise inside_parts name_kept }
    ensures winner { RunsOtherwise winner_parts first_kept }
    ensures constructors { RunsOtherwise constructors_parts order_turned }
    ensures alignment { RunsOtherwise commons_parts unaligned }
    ensures shared { RunsOtherwise structs_parts struct_shared }
{}
