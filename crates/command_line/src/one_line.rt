//! Text that prints as one line.

use std::alloc::{AllocError, Global};

/// The text with its control characters written out.
pub(crate) fn without_controls(heap: Global, text: &str) -> Result<String, AllocError> {
    let mut line = String::new(heap);
    for c in text.chars() {
        if c.is_control() {
            let shown = c.escape_default();
            write!(line, "{shown}")?;
        } else {
            line.push(c)?;
        }
    }
    Ok(line)
}
