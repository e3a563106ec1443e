//! What holds of the functions of a checked module.
ghost use Rattle.run_decode.specs.Suits.Laws.{FunctionsHaveValues, FunctionsSuit};

/// The parameters and results of each function of a well-formed, valid module are values: their types lie in memory and have few leaves,
/// or are `void`, and indices lead to a part.
pub fn functions_of_a_checked_module_have_values()
    ensures { FunctionsHaveValues }
{}

/// Each function of a well-formed, valid module is what decoding asks for: the ids in its blocks are of the function and its module, and
/// what they name can stand where it stands; each phi is a result of the function, and its entries are values and blocks of it.
pub fn functions_of_a_checked_module_suit()
    ensures { FunctionsSuit }
{}
