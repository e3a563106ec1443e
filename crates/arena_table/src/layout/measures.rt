//! Measures of types that are in no table.
use crate::answer::{Answer, Refusal};
use std::alloc::{AllocError, Global};
use type_table::Measure;

// The measures with these numbers.
fn parts(alloc: Global, measures: &[Measure], numbers: &[u64]) -> Result<Vec<Measure>, Refusal> {
    let mut parts = Vec::new(alloc);
    for number in numbers {
        if *number >= measures.len() as u64 {
            return Err(Refusal::NoCall);
        }
        parts.push(measures[*number as usize])?;
    }
    Ok(parts)
}

// The measure of a type by those of its parts.
fn measure_of(
    alloc: Global,
    measures: &[Measure],
    kind: &str,
    numbers: &[u64],
) -> Result<Measure, Refusal> {
    match (kind, numbers) {
        ("int", [width]) if *width <= 128 => Ok(Measure::int(*width as u8)),
        ("ptr", []) => Ok(Measure::ptr()),
        ("void", []) => Ok(Measure::void()),
        ("opaque", []) => Ok(Measure::opaque()),
        ("array", [length, element]) if *element < measures.len() as u64 => {
            Ok(Measure::array(*length, measures[*element as usize]))
        }
        ("plain" | "packed", _) => {
            let parts = parts(alloc, measures, numbers)?;
            Ok(Measure::of_struct(kind == "packed", parts.as_slice()))
        }
        _ => Err(Refusal::NoCall),
    }
}

/// Measures a type, or gives what is wrong with it.
pub fn measure(
    alloc: Global,
    measures: &mut Vec<Measure>,
    kind: &str,
    numbers: &[u64],
) -> Result<Answer, Refusal> {
    let measure = measure_of(alloc, measures.as_slice(), kind, numbers)?;
    measure.check()?;
    measures.push(measure)?;
    Ok(Answer::Shown(shown(alloc, &measure)?))
}

fn shown(alloc: Global, measure: &Measure) -> Result<String, AllocError> {
    let (nesting, parts) = (measure.nesting, measure.parts);
    match measure.layout {
        Some(layout) => format!(in alloc;
            "nesting {nesting}, parts {parts}, size {}, leaves {}",
            layout.size, layout.leaves
        ),
        None => format!(in alloc; "nesting {nesting}, parts {parts}, no layout"),
    }
}
