ghost use Rattle.std.specs.Prelude.{◌≡◌, ◌++◌, IfOk, OnOk, string_bytes};
ghost use Rattle.guard_times.specs.Table.{heading, columns, milliseconds_column, table_line, what_it_is, what_milliseconds_are, note, table_text};

use crate::mode_name::mode_name;
use crate::{BitRate, Row};
use std::alloc::{AllocError, Global};

const WHAT_IT_IS: &str = "
Guard time between two commands: the idle that has to lie between them, undamaged and with the carrier up
throughout, so that a receiver of that mode and limit is back in SEARCH before the second begins, whatever
became of the first and whichever bit the idle begins with. The limit is the greatest count of codeblocks
that the receiver takes in a CLTU. Octets are rounded up.
";

/// The rows as a table with a heading, and below it what they tell.
pub(crate) fn table_text(
    heap: Global,
    rows: &[Row],
    rate: Option<BitRate>,
) -> Result<String, AllocError>
    ensures { IfOk result (λ s. string_bytes s ≡ table_text rate rows.now) }
{
    let mut text = String::from_str(heap, heading(rate))?;
    for row in rows {
        push_line(row, &mut text)?;
    }
    push_note(rate, &mut text)?;
    Ok(text)
}

fn heading(rate: Option<BitRate>) -> &'static str
    ensures { result.now ≡ heading rate }
{
    match rate {
        None => "limit  mode        bits  octets\n",
        Some(_) => "limit  mode        bits  octets  milliseconds\n",
    }
}

fn push_line(row: &Row, text: &mut String) -> Result<(), AllocError>
    ensures { OnOk result (string_bytes text.new ≡ string_bytes text.old ++ table_line row.now) }
{
    push_columns(row, text)?;
    push_milliseconds(row.milliseconds, text)?;
    text.push('\n')?;
    Ok(())
}

// The columns of every table.
fn push_columns(row: &Row, text: &mut String) -> Result<(), AllocError>
    ensures { OnOk result (string_bytes text.new ≡ string_bytes text.old ++ columns row.now) }
{
    let limit = row.guard.limit.count();
    let mode = mode_name(row.guard.mode);
    let (bits, octets) = (row.bits, row.octets);
    write!(text, "{limit:>5}  {mode:<10}  {bits:>4}  {octets:>6}")?;
    Ok(())
}

fn push_milliseconds(milliseconds: Option<usize>, text: &mut String) -> Result<(), AllocError>
    ensures { OnOk result (string_bytes text.new ≡ string_bytes text.old ++ milliseconds_column milliseconds) }
{
    if let Some(milliseconds) = milliseconds {
        write!(text, "  {milliseconds:>12}")?;
    }
    Ok(())
}

// What the rows tell.
fn push_note(rate: Option<BitRate>, text: &mut String) -> Result<(), AllocError>
    ensures { OnOk result (string_bytes text.new ≡ string_bytes text.old ++ note rate) }
{
    text.push_str(WHAT_IT_IS)?;
    push_what_milliseconds_are(rate, text)?;
    text.push_str("After carrier up none is needed: the first command may begin at once.\n")?;
    Ok(())
}

fn push_what_milliseconds_are(rate: Option<BitRate>, text: &mut String) -> Result<(), AllocError>
    ensures { OnOk result (string_bytes text.new ≡ string_bytes text.old ++ what_milliseconds_are rate) }
{
    if let Some(rate) = rate {
        let bits = rate.bits_a_second();
        writeln!(
            text,
            "Milliseconds are what the bits take at {bits} bits a second, rounded up."
        )?;
    }
    Ok(())
}
