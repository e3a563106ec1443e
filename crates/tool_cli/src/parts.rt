//! The inputs of tools that work on modules: which are accepted, and how the others are refused.
ghost use Rattle.std.specs.Prelude.{◌≡◌, ◌⊎◌, ◌≤◌, List, true, length, IfOk, IfErr, OnOk};
ghost use Rattle.linkage_rules.specs.Ids.{modules};
ghost use Rattle.module_arena.specs.EntityView.{entity_view};
ghost use Rattle.module_arena.specs.Module.{Module};
ghost use Rattle.module_arena.specs.Names.{are_bytes};
ghost use Rattle.module_arena.specs.View.{module_of};
ghost use Rattle.ir_syntax.specs.Answers.{HasItems};
ghost use Rattle.ir_syntax.specs.Counts.{counted, most_counted};
ghost use Rattle.ir_syntax.specs.Forms.{AreItemsFormed};
ghost use Rattle.ir_syntax.specs.Refusal.{IsRefused};
ghost use Rattle.ir_syntax.specs.Tree.{ItemTree};
ghost use Rattle.ir_syntax.specs.View.{items_view};
ghost use Rattle.name_rules.specs.Reads.{Reads};
ghost use Rattle.name_rules.specs.Spelled.{spelled_global};
ghost use Rattle.tool_cli.specs.Judged.{entity_words, is_bitcode, refusal_told, break_told, verdict_told, IsShort, AreShort, IsTextRefused, IsTextOf, AreAccepted, IsPartRefused, IsFirstRefusal};
ghost use Rattle.tool_cli.specs.Made.{AreParts, IsPart};
ghost use Rattle.tool_cli.specs.Told.{IsOfTexts};

use crate::bitcode::accepted_bitcode;
use crate::entity::entity_words;
use entry_verify::types::VerifyFault;
use ir_base::{Name, Text, TextList};
use ir_resolve::resolve;
use ir_syntax::{Items, SyntaxFault, read_items};
use module_arena::{Checked, Entity};
use name_rules::{ResolveFault, spell_global};
use path_verify::verify;
use record_read::each_is_byte;
use std::alloc::{AllocError, Global};
use std::mem::forget;
use tool_output::ends::Ended;

/// The bytes that bitcode begins with (LLVM Bitcode File Format, "LLVM IR Magic Number").
const BITCODE_MAGIC: [u8; 4] = [0x42, 0x43, 0xC0, 0xDE];

// Whether the bytes begin as bitcode does.
fn is_bitcode(bytes: &[u8]) -> bool
    ensures { result ≡ is_bitcode bytes.now }
{
    bytes.starts_with(&BITCODE_MAGIC)
}

// The refusal of a text, told with the name of its input.
fn refusal_told(alloc: Global, name: &Text, fault: SyntaxFault) -> Ended
    ensures told { (result ≡ refusal_told name.now fault) ⊎ (result ≡ Ended.Memory) }
    ensures of_texts { IsOfTexts result }
{
    let Ok(input) = Text::from_slice(alloc, name.bytes()) else {
        return Ended::Memory;
    };
    match fault {
        SyntaxFault::BadByte(place) => Ended::BadByte { input, place },
        SyntaxFault::NoItemHere(place) => Ended::NoItemHere { input, place },
        SyntaxFault::LeftOutWord { place, word } => Ended::LeftOutWord { input, place, word },
        SyntaxFault::TooDeep(place) => Ended::TooDeep { input, place },
        SyntaxFault::Memory => Ended::Memory,
    }
}

// The break of the items of a text, told with the name of its input.
fn break_told(alloc: Global, name: &Text, fault: ResolveFault) -> Ended
    ensures told { (result ≡ break_told name.now fault) ⊎ (result ≡ Ended.Memory) }
    ensures of_texts { IsOfTexts result }
{
    let Ok(input) = Text::from_slice(alloc, name.bytes()) else {
        return Ended::Memory;
    };
    match fault {
        ResolveFault::TooMany { kind, count } => Ended::TooMany {
            input: Some(input),
            kind,
            count,
        },
        ResolveFault::Duplicate { place, first } => Ended::Duplicate {
            input,
            place,
            first,
        },
        ResolveFault::UnknownName { place, spelled } => Ended::UnknownName {
            input,
            place,
            spelled,
        },
        ResolveFault::WrongNumber { place, next, found } => Ended::WrongNumber {
            input,
            place,
            next,
            found,
        },
        ResolveFault::ConstantRange(place) => Ended::ConstantRange { input, place },
        ResolveFault::TooDeep(place) => Ended::TooDeep { input, place },
        ResolveFault::SelfContaining(place) => Ended::SelfContaining { input, place },
        ResolveFault::TooLarge(place) => Ended::TooLarge { input, place },
        ResolveFault::Memory => Ended::Memory,
    }
}

// The function that is too large, told with the name of its input.
fn size_told(alloc: Global, input: Text, function: &Name, size: u64) -> Result<Ended, AllocError>
    ensures { IfOk result (λ ended. ended ≡ Ended.FunctionTooLarge input (spelled_global function.now) size) }
{
    let function = spell_global(alloc, function.text().bytes())?;
    Ok(Ended::FunctionTooLarge {
        input,
        function,
        size,
    })
}

// The rule that does not hold, told with the name of its input.
fn rule_told(alloc: Global, input: Text, rule: u8, entity: &Entity) -> Result<Ended, AllocError>
    ensures { IfOk result (λ ended. ended ≡ Ended.Invalid input rule (entity_words (entity_view entity.now))) }
{
    let entity = entity_words(alloc, entity)?;
    Ok(Ended::Invalid {
        input,
        rule,
        entity,
    })
}

/// The refusal of a module, told with the name of its input.
pub(crate) fn verdict_told(alloc: Global, name: &Text, fault: VerifyFault) -> Ended
    ensures told { (result ≡ verdict_told name.now fault) ⊎ (result ≡ Ended.Memory) }
    ensures of_texts { IsOfTexts result }
{
    let Ok(input) = Text::from_slice(alloc, name.bytes()) else {
        return Ended::Memory;
    };
    let told = match &fault {
        VerifyFault::FunctionTooLarge { function, size } => {
            size_told(alloc, input, function, *size)
        }
        VerifyFault::Invalid { rule, entity } => rule_told(alloc, input, *rule, entity),
        VerifyFault::Memory => return Ended::Memory,
    };
    match told {
        Ok(ended) => ended,
        Err(_) => Ended::Memory,
    }
}

/// A text that is accepted: its items, and their module.
#[derive(Drop)]
pub(crate) struct Accepted {
    pub(crate) items: Items,
    pub(crate) checked: Checked,
}

/// When the memory of the items of a text is given back.
#[derive(Clone, Copy)]
pub(crate) enum GivenBack {
    /// As soon as the module is there, so that they never stand beside what is made of it.
    AtOnce,
    /// With all other memory, where the program ends, which goes over none of it.
    AtTheEnd,
}

// The module of a text that is accepted, whose items are given back then.
fn module_alone(accepted: Accepted, items_back: GivenBack) -> Checked
    ensures { module_of result ≡ module_of accepted.checked }
{
    let Accepted { items, checked } = accepted;
    match items_back {
        GivenBack::AtOnce => drop(items),
        GivenBack::AtTheEnd => forget(items),
    }
    checked
}

// The items of a text, which is let go as soon as they are there.
fn items_of(alloc: Global, text: Text) -> Result<Items, SyntaxFault>
    requires { IsShort text }
    ensures bytes { are_bytes text ≡ true }
    ensures items { IfOk result (λ items. HasItems text (items_view items)) }
    ensures one { IfOk result (λ items. (others : List ItemTree) → HasItems text others → others ≡ items_view items) }
    ensures count { IfOk result (λ items. counted (items_view items) ≤ most_counted) }
    ensures shape { IfOk result (λ items. AreItemsFormed (items_view items)) }
    ensures refused { IfErr result (λ fault. IsRefused text fault ⊎ (fault ≡ SyntaxFault.Memory)) }
{
    let read = text.bytes();
    each_is_byte(read);
    read_items(alloc, read)
}

/// The items and the module of the text of the input of this name, where it has a module that is valid. The text is let go
/// before its module is made.
pub(crate) fn accepted_text(alloc: Global, name: &Text, text: Text) -> Result<Accepted, Ended>
    requires { IsShort text }
    ensures module { IfOk result (λ accepted. IsTextOf text (items_view accepted.items) (module_of accepted.checked)) }
    // A text has no other module.
    ensures one { IfOk result (λ accepted. (m : Module) → Reads text m → m ≡ module_of accepted.checked) }
    ensures refused { IfErr result (λ ended. IsTextRefused name.now text ended ⊎ (ended ≡ Ended.Memory)) }
    ensures of_texts { IfErr result IsOfTexts }
{
    let items = match items_of(alloc, text) {
        Ok(items) => items,
        Err(fault) => return Err(refusal_told(alloc, name, fault)),
    };
    let arena = match resolve(alloc, &items) {
        Ok(arena) => arena,
        Err(fault) => return Err(break_told(alloc, name, fault)),
    };
    match verify(alloc, arena) {
        Ok(checked) => Ok(Accepted { items, checked }),
        Err(fault) => Err(verdict_told(alloc, name, fault)),
    }
}

/// The module that the input of this name stands for, where it is one that is valid: as bitcode where the input begins as that
/// does, and else as a text. A text is let go as soon as it was read, bitcode as soon as its module was judged, and the items of
/// a text when `items_back` says.
pub(crate) fn accepted_part(
    alloc: Global,
    name: &Text,
    input: Text,
    items_back: GivenBack,
) -> Result<Checked, Ended>
    requires { IsShort input }
    ensures part { IfOk result (λ checked. IsPart input (module_of checked)) }
    ensures refused { IfErr result (λ ended. IsPartRefused name.now input ended ⊎ (ended ≡ Ended.Memory)) }
    ensures of_texts { IfErr result IsOfTexts }
{
    let read = input.bytes();
    if is_bitcode(read) {
        return accepted_bitcode(alloc, name, read);
    }
    match accepted_text(alloc, name, input) {
        Ok(accepted) => Ok(module_alone(accepted, items_back)),
        Err(ended) => Err(ended),
    }
}

/// The modules that the inputs of these names stand for, in their order, where each stands for one that is valid. Each
/// input is let go by then.
pub(crate) fn accepted_parts(
    alloc: Global,
    names: &[Text],
    texts: TextList,
) -> Result<Vec<Checked>, Ended>
    requires same { length names.now ≡ length texts }
    requires short { AreShort texts }
    ensures accepted { OnOk result (AreAccepted texts) }
    ensures parts { IfOk result (λ parts. AreParts texts (modules parts.items)) }
    ensures refused { IfErr result (λ ended. IsFirstRefusal names.now texts ended ⊎ (ended ≡ Ended.Memory)) }
    ensures of_texts { IfErr result IsOfTexts }
{
    let mut parts = Vec::new(alloc);
    let mut rest = texts.into_vec().into_iter();
    'inputs: for name in names {
        let text = match rest.next() {
            Some(text) => text,
            None => unreachable!(),
        };
        let checked = accepted_part(alloc, name, text, GivenBack::AtOnce)?;
        let Ok(()) = parts.push(checked) else {
            return Err(Ended::Memory);
        };
    }
    Ok(parts)
}
