//! Judges the structs of a text.
#![tactic(auto, using(type_judge::proofs::Parts::judged_front, type_judge::proofs::Parts::judged_rest, type_judge::proofs::Parts::judged_stop, type_judge::proofs::Parts::judged_next))]

ghost use Rattle.std.specs.Prelude.{◌≡◌, IfOk, OnOk, List, [], ◌∷◌, ◌++◌, map, is_none};
ghost use Rattle.ir_phrases.specs.Constants.Tree.{types};
ghost use Rattle.ir_phrases.specs.Constants.View.{type_view};
ghost use Rattle.ir_syntax.specs.View.{body_view};
ghost use Rattle.ir_terminals.specs.declared.values.PlacedName.{PlacedName};
ghost use Rattle.name_rules.specs.TypeDemands as demands;
ghost use Rattle.name_rules.specs.TypeDemands.{struct_measured, ends, body_types, struct_type_demands, struct_demands};
ghost use Rattle.type_judge.specs.Gathered.{IsKnown, known_of};
ghost use Rattle.type_judge.specs.Judging.{IsJudged};
ghost use Rattle.type_judge.specs.Ends.Mentioning.{AreMentions, structs_of};
ghost use Rattle.name_judge.specs.Seen.{AreFirst};

use crate::seen::check_new;
use ir_base::Place;
use ir_phrases::constants::Type;
use ir_syntax::WrittenBody;
use ir_terminals::{CompactName, PlacedName};
use name_rules::ResolveFault;
use std::alloc::{AllocError, Global};
use type_judge::ends::StructMentions;
use type_judge::{Known, ask, check_nesting, check_size, check_types, is_large};
use type_table::Measure;
use type_table::names::NameTable;

/// The measure of the struct with that name.
fn struct_measure(
    alloc: Global,
    known: &Known,
    name: &PlacedName,
) -> Result<Option<Measure>, AllocError>
    requires known { IsKnown known.now }
    ensures { IfOk result (λ measure. measure ≡ struct_measured (known_of known.now) name.now.name) }
{
    let copy = PlacedName {
        name: CompactName::from_slice(alloc, name.name.bytes())?,
        place: name.place,
    };
    let ty = Type::Named(copy);
    Ok(known.measure_of(&ty))
}

/// The struct with that measure does not contain itself.
fn check_ends(
    alloc: Global,
    mentions: &StructMentions,
    name: &PlacedName,
    measure: Option<Measure>,
) -> Result<(), ResolveFault>
    requires mentions { AreMentions mentions.now }
    ensures { (known : demands.Known) → structs_of mentions.now ≡ known.structs → measure ≡ struct_measured known name.now.name → IsJudged (ends known name.now ∷ []) result }
{
    if measure.is_some() {
        return Ok(());
    }
    let holds = mentions.contains_itself(alloc, name.name.bytes())?;
    ask(!holds, ResolveFault::SelfContaining(name.place))
}

/// The types in the braces of a struct.
fn fields_of(body: &WrittenBody) -> &[Type]
    ensures { (known : demands.Known) → types (map type_view result.now) ≡ body_types known (body_view body.now) }
{
    match body {
        WrittenBody::Opaque => &[],
        WrittenBody::Plain(fields) | WrittenBody::Packed(fields) => fields,
    }
}

/// What the body of a struct asks for.
fn check_body(
    alloc: Global,
    known: &Known,
    mentions: &StructMentions,
    name: &PlacedName,
    body: &WrittenBody,
) -> Result<(), ResolveFault>
    requires known { IsKnown known.now }
    requires mentions { AreMentions mentions.now }
    requires structs { structs_of mentions.now ≡ (known_of known.now).structs }
    ensures { IsJudged (struct_type_demands (known_of known.now) name.now (body_view body.now)) result }
{
    let measure = struct_measure(alloc, known, name)?;
    let fields = fields_of(body);
    check_nesting(name.place, measure)?;
    check_ends(alloc, mentions, name, measure)?;
    check_size(known, name.place, is_large(measure), fields)?;
    check_types(alloc, known, fields)
}

/// A struct, behind others of these names.
pub(crate) fn check_struct<'a>(
    alloc: Global,
    known: &Known,
    mentions: &StructMentions,
    structs: &mut NameTable<'a, Place>,
    name: &'a PlacedName,
    body: &WrittenBody,
) -> Result<(), ResolveFault>
    requires known { IsKnown known.now }
    requires mentions { AreMentions mentions.now }
    requires structs { structs_of mentions.now ≡ (known_of known.now).structs }
    ensures judged { (before : List PlacedName) → AreFirst structs.old before → IsJudged (struct_demands (known_of known.now) before name.now (body_view body.now)) result }
    ensures seen { (before : List PlacedName) → AreFirst structs.old before → OnOk result (AreFirst structs.new (before ++ name.now ∷ [])) }
{
    check_new(structs, name)?;
    check_body(alloc, known, mentions, name, body)
}
