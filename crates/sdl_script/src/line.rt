//! The lines of a script.

ghost use Rattle.std.specs.Prelude.{◌≡◌, ◌<◌, ◌≤◌, length};
ghost use Rattle.std.specs.List.{prefix_len};
ghost use Rattle.sdl_script.specs.ScriptText.{BeginsWith, DropsReturn, is_line_byte};

/// The first line without its end, and the text behind it.
pub fn split_line(text: &[u8]) -> (&[u8], &[u8])
    requires { 0 < length text.now }
    ensures line { BeginsWith result.0.now text.now result.1.now }
    ensures shorter { length result.1.now < length text.now }
{
    let (line, behind) = text.split_at(line_len(text));
    match behind.split_first() {
        None => (line, behind),
        Some((_, rest)) => (without_return(line), rest),
    }
}

/// How many bytes stand before the first LF.
fn line_len(text: &[u8]) -> usize
    ensures value { result ≡ prefix_len is_line_byte text.now }
    ensures within { result ≤ length text.now }
{
    text.iter().take_while(|byte| **byte != b'\n').count()
}

fn without_return(line: &[u8]) -> &[u8]
    ensures { DropsReturn line.now result.now }
{
    match line.split_last() {
        Some((last, front)) if *last == b'\r' => front,
        _ => line,
    }
}
