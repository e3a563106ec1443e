//! What the parameters of a body are called.
ghost use Rattle.std.specs.Prelude.{◌≡◌, ℕ, List, None, IfOk, OnOk};
ghost use Rattle.module_arena.specs.View.{local_view};
ghost use Rattle.record_table.specs.Bodies.{parameters};
ghost use Rattle.record_table.specs.Fields.{after};
ghost use Rattle.record_table.specs.Layout.{judged};
ghost use Rattle.record_table.specs.Walk.{going};
ghost use Rattle.record_read.specs.Fields.{texts_of};
ghost use Rattle.body_read.specs.Ahead.Ahead.{AreNamesOf};

use ir_base::ItemList;
use module_arena::{LocalName, LocalNameList};
use record_read::{RecordReader, Texts, one_more, read_label};
use std::alloc::{AllocError, Global};

/// The number that the next has behind this one.
fn own_after(own: u32, name: &LocalName) -> Result<u32, AllocError>
    ensures { IfOk result (λ next. next ≡ after own (local_view name.now)) }
{
    match name {
        LocalName::Named(_) => Ok(own),
        LocalName::Numbered(_) => one_more(own),
    }
}

/// The names of so many parameters, or none where their record breaks a rule.
pub(crate) fn read_parameters(
    reader: &mut RecordReader<'_>,
    alloc: Global,
    texts: &Texts,
    count: u64,
) -> Result<Option<LocalNameList>, AllocError>
    ensures spent { OnOk result (reader.new.spent ≡ reader.old.spent) }
    ensures left { OnOk result (reader.new.left ≡ reader.old.left) }
    ensures names { (operands : List ℕ) → reader.old.walk ≡ going operands None → IfOk result (λ names. AreNamesOf names (judged (parameters (texts_of texts.now) count) operands)) }
{
    let mut names = Vec::new(alloc);
    let mut own = 0;
    let mut place = 0;
    'names: while reader.has_more(place, count) {
        let label = read_label(reader, alloc, texts, own)?;
        match label {
            Some(name) => {
                own = own_after(own, &name)?;
                names.push(name)?;
            }
            None => return Ok(None),
        }
        place += 1;
    }
    if reader.told().is_some() {
        return Ok(None);
    }
    Ok(Some(ItemList::from_vec(names)))
}
