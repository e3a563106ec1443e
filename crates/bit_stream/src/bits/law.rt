//! Laws of the definitions, each the contract of a function that does nothing.
ghost use Rattle.std.specs.Prelude.{◌≡◌, ℕ, ◌^◌, ◌<◌, ◌≤◌, ◌++◌, List, Bool, Ok, length, take};
ghost use Rattle.bit_stream.specs.Bits.Bits.{bits_of};
ghost use Rattle.bit_stream.specs.Bits.Writing.{vbr_bits};
ghost use Rattle.bit_stream.specs.Bits.Chunked.{IsVbr};
ghost use Rattle.bit_stream.specs.Bits.Reading.{fixed_at, vbr_at};

/// A field that was written is read back, whatever follows it.
pub fn field_is_read_back()
    ensures { (w n : ℕ) (rest : List Bool) → n < 2 ^ w → fixed_at w (bits_of w n ++ rest) ≡ Ok (n, length (bits_of w n)) }
{}

/// A number that was written in chunks is read back, whatever follows it.
pub fn chunks_are_read_back()
    ensures { (w n : ℕ) (rest : List Bool) → 2 ≤ w → n < 2 ^ 64 → vbr_at w (vbr_bits 64 w n ++ rest) ≡ Ok (n, length (vbr_bits 64 w n)) }
{}

/// The chunks in front of which a number is read are that number in chunks, by the list of their data.
pub fn what_is_read_is_in_chunks()
    ensures { (w n taken : ℕ) (bits : List Bool) → 2 ≤ w → vbr_at w bits ≡ Ok (n, taken) → IsVbr w (take taken bits) n }
{}
