//! The name of a file in a tracefile.

ghost use Rattle.std.specs.Prelude.{◌≡◌, ◌++◌, OnOk};
ghost use Rattle.std.specs.String.{string_bytes};
ghost use Rattle.view_coverage.specs.Source.{is_control, shown, source_text};

use std::alloc::AllocError;

/// Adds the name of a file. Each control character of it is a `?`, so that the name stays in its line.
pub fn push_source(text: &mut String, source: &str) -> Result<(), AllocError>
    ensures { OnOk result (string_bytes text.new ≡ string_bytes text.old ++ source_text source.now) }
{
    for letter in source.chars() {
        push_letter(text, letter)?;
    }
    Ok(())
}

fn push_letter(text: &mut String, letter: char) -> Result<(), AllocError>
    ensures { OnOk result (string_bytes text.new ≡ string_bytes text.old ++ shown letter) }
{
    if is_control(letter) {
        text.push('?')
    } else {
        text.push(letter)
    }
}

fn is_control(letter: char) -> bool
    ensures { result ≡ is_control letter }
{
    let number = letter as u32;
    number < 32 || number == 127
}
