//! That bytes are bytes: calls that do nothing, behind which a proof has their clause.
ghost use Rattle.std.specs.Prelude.{◌≡◌, true};
ghost use Rattle.record_read.specs.Fields.{are_bytes};

use ir_base::Name;

/// What holds of all bytes: each is one.
pub fn each_is_byte(bytes: &[u8])
    ensures { are_bytes bytes.now ≡ true }
{
    let _count = bytes.len();
}

/// What holds of every name: it is made of bytes.
pub fn is_of_bytes(name: &Name)
    ensures { are_bytes name.now ≡ true }
{
    each_is_byte(name.text().bytes());
}
