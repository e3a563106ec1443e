//! Numbers as they stand in records.
ghost use Rattle.std.specs.Prelude.{◌≡◌, ◌<◌, nat_lt};
ghost use Rattle.record_table.specs.Layout.{asking, number};
ghost use Rattle.record_table.specs.Fields.{below, index, truth};
ghost use Rattle.record_read.specs.Reader.{Reads, ReadsAs};
ghost use Rattle.record_read.specs.Fields.{IsBelow};

use crate::RecordReader;
use module_arena::INDEX_LIMIT;

/// A number below a limit. Another breaks rule 3.
pub fn read_below(reader: &mut RecordReader<'_>, limit: u64) -> u64
    ensures { Reads (below limit) reader.old reader.new result }
{
    let number = reader.number();
    reader.ask(3, number < limit);
    number
}

/// A boolean: 0 or 1.
pub fn read_flag(reader: &mut RecordReader<'_>) -> bool
    ensures { Reads truth reader.old reader.new result }
{
    read_below(reader, 2) != 0
}

/// The place of one of so many, counted from 0. Another breaks rule 2.
pub fn read_place(reader: &mut RecordReader<'_>, count: u64) -> Option<u64>
    ensures { ReadsAs (IsBelow count) (asking 2 (λ n. nat_lt n count) number) reader.old reader.new result }
{
    let number = reader.number();
    reader.stops_where_broken();
    if reader.is_stopped() {
        return None;
    }
    if number < count {
        return Some(number);
    }
    reader.refuse(2);
    None
}

/// An index of `extractvalue` or `insertvalue`, of 32 bits.
pub fn read_index(reader: &mut RecordReader<'_>) -> u32
    ensures value { (index.read reader.old.walk).0 < INDEX_LIMIT → result ≡ (index.read reader.old.walk).0 }
    ensures reader { reader.new ≡ record reader.old { walk = (index.read reader.old.walk).1 } }
{
    u32::try_from(read_below(reader, INDEX_LIMIT)).unwrap_or(0)
}
