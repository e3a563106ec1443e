//! Where poison is asked for.
ghost use Rattle.std.specs.Prelude.{◌≡◌, ◌&&◌, ◌==◌};

/// Whether the operand that may ask for poison is 1, where that counts.
pub fn is_asked_for(counts: bool, asked: u128) -> bool
    ensures { result ≡ (counts && (asked == 1)) }
{
    counts && asked == 1
}
