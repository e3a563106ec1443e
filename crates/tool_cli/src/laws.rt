//! Laws of inputs and ends.
ghost use Rattle.tool_cli.specs.Laws.{AcceptedIsNotRefused, InputsAreReadable, OneEnd};

/// No end tells that an input is refused which stands for a valid module without a function that is too large: a text, bitcode, or either.
pub fn accepted_is_not_refused()
    ensures { AcceptedIsNotRefused }
{}

/// At most one end is reported for the same words, files and standard input. It is never want of memory, and it is `Ok`
/// where the command has a result.
pub fn one_end()
    ensures { OneEnd }
{}

/// What was written, text or bitcode, can be read where it has at most 16 MiB, so that what was linked runs as its parts do.
pub fn inputs_are_readable()
    ensures { InputsAreReadable }
{}
