ghost use Rattle.std.specs.Prelude.{◌≡◌, ◌++◌, IfOk, OnOk, string_bytes};
ghost use Rattle.guard_times.specs.Csv.{csv_line, csv_text};

use crate::Row;
use crate::mode_name::mode_name;
use std::alloc::{AllocError, Global};

/// The rows as values parted by commas: a heading, and a line for each row.
pub(crate) fn csv_text(heap: Global, rows: &[Row]) -> Result<String, AllocError>
    ensures { IfOk result (λ s. string_bytes s ≡ csv_text rows.now) }
{
    let mut text = String::from_str(heap, "limit,mode,bits,octets,milliseconds\n")?;
    for row in rows {
        push_line(row, &mut text)?;
    }
    Ok(text)
}

fn push_line(row: &Row, text: &mut String) -> Result<(), AllocError>
    ensures { OnOk result (string_bytes text.new ≡ string_bytes text.old ++ csv_line row.now) }
{
    let limit = row.guard.limit.count();
    let mode = mode_name(row.guard.mode);
    let (bits, octets) = (row.bits, row.octets);
    match row.milliseconds {
        Some(milliseconds) => writeln!(text, "{limit},{mode},{bits},{octets},{milliseconds}")?,
        None => writeln!(text, "{limit},{mode},{bits},{octets},")?,
    }
    Ok(())
}
