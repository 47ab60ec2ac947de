//! How many bytes are marked together.

ghost use Rattle.std.specs.Prelude.{◌≡◌, ◌≤◌};
ghost use Rattle.std.specs.List.{prefix_len};
ghost use Rattle.sdl_lex.specs.Byte.{is_word_byte};
ghost use Rattle.explain_syntax.specs.Excerpt.{IsWidth};

use sdl_lex::is_word_byte;

/// How many of these bytes, from the first on, are marked together: of a word or a number all, of a mark or the begin
/// of a comment two or one. Any other byte counts alone, and so does the end of a line.
pub fn width_of(bytes: &[u8]) -> usize
    ensures { IsWidth bytes.now result }
{
    let len = word_len(bytes);
    if len == 0 { mark_width(bytes) } else { len }
}

/// How many bytes of a word come first.
fn word_len(bytes: &[u8]) -> usize
    ensures { result ≡ prefix_len is_word_byte bytes.now }
{
    bytes.iter().take_while(|byte| is_word_byte(**byte)).count()
}

/// How many bytes belong together that are no word.
fn mark_width(bytes: &[u8]) -> usize
    ensures least { 1 ≤ result }
    ensures most { result ≤ 2 }
{
    match bytes {
        [b':' | b'/' | b'<' | b'>', b'=', ..] | [b'=', b'>', ..] | [b'/', b'*', ..] => 2,
        _ => 1,
    }
}
