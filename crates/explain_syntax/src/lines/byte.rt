//! How single bytes are shown.

ghost use Rattle.std.specs.Prelude.{◌≡◌};
ghost use Rattle.explain_syntax.specs.Rows.{blank_for, shown_byte};

/// The byte that is shown in place of another one: a printable byte and a tab as they are, a CR as a blank, all others
/// as a question mark. So each byte of a line takes one column, and none does anything to a terminal.
pub fn shown_byte(byte: u8) -> u8
    ensures { result ≡ shown_byte byte }
{
    match byte {
        b'\t' | b' '..=b'~' => byte,
        b'\r' => b' ',
        _ => b'?',
    }
}

/// The byte to write under a byte, so that the next one is under the next: a tab under a tab, else a blank.
pub fn blank_for(byte: u8) -> u8
    ensures { result ≡ blank_for byte }
{
    if byte == b'\t' { b'\t' } else { b' ' }
}
