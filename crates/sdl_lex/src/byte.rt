//! Classes of bytes.

ghost use Rattle.std.specs.Prelude.{◌≡◌};
ghost use Rattle.sdl_lex.specs.Byte.{is_blank, is_mark_byte, is_word_byte};

/// Blank, tab, CR and LF.
pub fn is_blank(b: u8) -> bool
    ensures { result ≡ is_blank b }
{
    b == b' ' || b == b'\t' || b == b'\r' || b == b'\n'
}

/// Whether a word may have this byte behind its first letter: letters, digits and `_`.
pub fn is_word_byte(b: u8) -> bool
    ensures { result ≡ is_word_byte b }
{
    b.is_ascii_alphanumeric() || b == b'_'
}

/// The marks of one byte.
pub fn is_mark_byte(b: u8) -> bool
    ensures { result ≡ is_mark_byte b }
{
    matches!(
        b,
        b'(' | b')' | b',' | b';' | b':' | b'=' | b'<' | b'>' | b'+' | b'-' | b'*' | b'/'
    )
}
