//! Results.
use ir_eval::Scalar;

/// What an intrinsic gives: one leaf, or two where it also tells of overflow, as an integer of width 1.
///
/// ```
/// Outcome { first: Scalar::Int(1), second: Some(Scalar::Int(1)) } // of 250 and 7 by `llvm.uadd.with.overflow.i8`
/// ```
#[derive(Clone, Copy)]
pub struct Outcome {
    pub first: Scalar,
    pub second: Option<Scalar>,
}
