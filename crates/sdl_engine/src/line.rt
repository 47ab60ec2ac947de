//! The lines of a text, and the one that parts the script from the specification.

ghost use Rattle.std.specs.Prelude.{◌≡◌, ◌≢◌, ◌++◌, ◌↔◌, All, IsTrue, MatchOption, codes};
ghost use Rattle.sdl_engine.specs.Parts.{IsLine, IsScriptLine};

/// The first line with its end, and what follows it.
pub fn first_line(text: &[u8]) -> Option<(&[u8], &[u8])>
    ensures { MatchOption result (All (λ b. b ≢ 10) text.now)
        (λ split. IsLine split.0.now × (text.now ≡ split.0.now ++ split.1.now)) }
{
    for (at, byte) in text.iter().enumerate() {
        if *byte == b'\n' {
            return Some(text.split_at(at + 1));
        }
    }
    None
}

/// Whether a line with its end is the one that parts the script from the specification.
pub fn is_script_line(line: &[u8]) -> bool
    ensures { IsTrue result ↔ IsScriptLine line.now }
{
    matches!(line, b"%script\n" | b"%script\r\n")
}

/// Whether a last line without its end is that line.
pub fn is_bare_script_line(line: &[u8]) -> bool
    ensures { IsTrue result ↔ (line.now ≡ codes "%script") }
{
    line == b"%script".as_slice()
}
