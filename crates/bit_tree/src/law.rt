//! Laws of the definitions, each the contract of a function that does nothing.
ghost use Rattle.std.specs.Prelude.{◌≡◌, ◌⊎◌, ℕ, List, Some, None};
ghost use Rattle.bit_stream.specs.declared.bits.fault.BitFault.{BitFault};
ghost use Rattle.bit_tree.specs.Stream.{StreamTree, Stream, stream_fault};
ghost use Rattle.bit_tree.specs.Written.{WrittenIsRead};

/// A stream has at most one tree.
pub fn a_stream_has_one_tree()
    ensures { (bytes : List ℕ) (one other : StreamTree) → Stream bytes one → Stream bytes other → one ≡ other }
{}

/// Each list of bytes is the stream of a tree, or has a first field that is refused.
pub fn a_stream_is_a_tree_or_refused()
    ensures { (bytes : List ℕ) → ((tree : StreamTree) × Stream bytes tree) ⊎ ((fault : BitFault) × (stream_fault bytes ≡ Some fault)) }
{}

/// No field of a stream that is a tree is refused.
pub fn a_tree_is_not_refused()
    ensures { (bytes : List ℕ) (tree : StreamTree) → Stream bytes tree → stream_fault bytes ≡ None }
{}

/// What a writer was told to write is read as that, whatever abbreviations were used, where each call may be made.
pub fn what_was_written_is_read()
    ensures { WrittenIsRead }
{}
