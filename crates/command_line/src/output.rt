//! Where the result goes.
ghost use Rattle.std.specs.Prelude.{◌≡◌, IfOk};
ghost use Rattle.command_line.specs.Outputs.{output_name, output_from, stem, default_file, default_name};

use crate::OutputName;
use crate::options::is_dash;
use ir_base::Text;
use std::alloc::{AllocError, Global};

/// The output that the value of `-o` names.
pub(crate) fn output_name(alloc: Global, name: &[u8]) -> Result<OutputName, AllocError>
    ensures { IfOk result (λ output. output ≡ output_name name.now) }
{
    if is_dash(name) {
        Ok(OutputName::Standard)
    } else {
        Ok(OutputName::File(Text::from_slice(alloc, name)?))
    }
}

/// The output that was named, or standard output.
pub(crate) fn output_or_standard(output: Option<OutputName>) -> OutputName
    ensures { result ≡ output_from OutputName.Standard output }
{
    match output {
        Some(output) => output,
        None => OutputName::Standard,
    }
}

// The name without this ending, where it has it.
fn stem<'n>(name: &'n [u8], ending: &[u8]) -> &'n [u8]
    ensures { result.now ≡ stem name.now ending.now }
{
    if name.ends_with(ending) {
        &name[..name.len() - ending.len()]
    } else {
        name
    }
}

// The name with its ending replaced by the other, or with the other added.
fn default_file(alloc: Global, name: &[u8], ending: &str, other: &str) -> Result<Text, AllocError>
    ensures { IfOk result (λ text. text ≡ default_file name.now ending.now other.now) }
{
    let mut bytes = Vec::from_slice(alloc, stem(name, ending.as_bytes()))?;
    bytes.extend_from_slice(other.as_bytes())?;
    Ok(Text::from_vec(bytes))
}

/// The output that was named, or the file that goes with the input, which is standard output for
/// standard input.
pub(crate) fn output_or_default(
    alloc: Global,
    output: Option<OutputName>,
    input: &Text,
    ending: &str,
    other: &str,
) -> Result<OutputName, AllocError>
    ensures { IfOk result (λ name. name
        ≡ output_from (default_name input.now ending.now other.now) output) }
{
    match output {
        Some(output) => Ok(output),
        None if is_dash(input.bytes()) => Ok(OutputName::Standard),
        None => Ok(OutputName::File(default_file(alloc, input.bytes(), ending, other)?)),
    }
}
