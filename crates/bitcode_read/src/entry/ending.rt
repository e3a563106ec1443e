//! What the record of an entry is asked as a whole.
ghost use Rattle.std.specs.Prelude.{◌≡◌, ◌↔◌, ◌<◌, ℕ, List, Some, true, OnOk};
ghost use Rattle.module_arena.specs.Lists.{global_name};
ghost use Rattle.record_table.specs.Records as records;
ghost use Rattle.record_table.specs.Faults.{also};
ghost use Rattle.record_table.specs.Walk.{told};
ghost use Rattle.record_read.specs.Reader.{FinishesBy};
ghost use Rattle.type_read.specs.Fields.{IsNameOf};
ghost use Rattle.bitcode_read.specs.Entry.Entries.{AsksName, AsksNew, EndsRecord, IsToldNew, IsRefusedAt};

use ir_base::Name;
use module_arena::{Arena, GlobalId, is_same_global};
use record_read::BitcodeFault;
use record_table::MODULE_BLOCK;
use type_read::arena::ModuleReader;

/// Whether no entry but that one has the name.
fn is_new(arena: &Arena, name: &Name, own: GlobalId) -> bool
    ensures { (result ≡ true) ↔ ((g : GlobalId) → global_name arena.now g ≡ Some name.now → g ≡ own) }
{
    let found = arena.lookup(name);
    match found {
        Some(id) => is_same_global(id, own),
        None => true,
    }
}

/// Asks that no entry but that one has the name: rule 4.
fn ask_name(m: &mut ModuleReader<'_>, name: &Name, own: GlobalId)
    ensures { AsksName m.old name.now own m.new }
{
    let is = is_new(m.growing.arena(), name, own);
    m.reader.also(4, is);
}

/// The same of a name that may be none, of which nothing is asked.
fn ask_new(m: &mut ModuleReader<'_>, name: &Option<Name>, own: GlobalId)
    ensures { AsksNew m.old name.now own m.new }
{
    match name {
        Some(name) => ask_name(m, name, own),
        None => {}
    }
}

/// Ends the record of an entry of that name. It is refused by the least rule that it breaks: its name is new, it is one of not
/// too many, it stands in order, and it has no operands left.
pub(crate) fn end_record(
    m: &mut ModuleReader<'_>,
    name: &Option<Name>,
    own: GlobalId,
    are_few: bool,
    in_order: bool,
) -> Result<(), BitcodeFault>
    requires { 0 < m.old.reader.at }
    ensures ends { EndsRecord m.old m.new }
    ensures few { OnOk result (are_few ≡ true) }
    ensures told { (s : records.Sofar) (value : List ℕ) → IsToldNew m.old.growing.arena own s value → IsNameOf name.now value
        → FinishesBy (IsRefusedAt m.old.reader.at) (also 5 in_order (also 7 are_few (also 4 (records.is_new s value) (told m.old.reader.walk)))) result }
{
    ask_new(m, name, own);
    m.reader.also(7, are_few);
    m.reader.also(5, in_order);
    m.reader.finish(MODULE_BLOCK)
}
