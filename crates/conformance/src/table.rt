//! The rows of a table.

/// The arrow between the sides of a row.
const ARROW: &[u8] = b" ==> ";

/// A row's input and output, before escapes are read.
#[derive(Clone, Copy)]
pub struct Row<'a> {
    pub left: &'a [u8],
    pub right: &'a [u8],
}

/// Whether a line of a table is a row, and not a comment.
pub fn is_row(line: &[u8]) -> bool {
    !line.is_empty() && !line.starts_with(b"# ")
}

/// The sides of a row, which its last arrow parts.
pub fn read_row(line: &[u8]) -> Option<Row<'_>> {
    let at = line.windows(ARROW.len()).rposition(|text| text == ARROW)?;
    Some(Row {
        left: line[..at].trim_ascii_end(),
        right: line[at + ARROW.len()..].trim_ascii_start(),
    })
}
