//! The one fault of a source and of a sink.
use thiserror::Error;

/// A call of the outside did not do its work, and the object's count of faults rose.
#[derive(Clone, Copy, Debug, PartialEq, Eq, Error)]
#[error("a call of the outside failed")]
pub struct Failed;
