//! The lines of a text by the instances that send what they tell.

ghost use Rattle.std.specs.Prelude.{◌≡◌, IfOk};
ghost use Rattle.sdl_command_line.specs.Lines.{texts_of};
ghost use Rattle.sdl_command_line.specs.Sender.{AreBySender, ending_number, number_after};

use std::alloc::AllocError;

/// Some lines by the numbers with which they end, as `3 val(1) from #1` does: those of each number by themselves and in
/// their order, by ascending numbers. A line that doesn't end with a number is before those that do.
pub fn by_sender<'t>(mut lines: Vec<&'t [u8]>) -> Result<Vec<&'t [u8]>, AllocError>
    ensures { IfOk result (λ arranged. AreBySender (texts_of lines.entry.items) (texts_of arranged.items)) }
{
    lines.sort_by_key(|line| ending_number(line))?;
    Ok(lines)
}

/// The number with which a line ends, 0 if it ends with none.
fn ending_number(line: &[u8]) -> u32
    ensures { result ≡ ending_number line.now }
{
    line.iter()
        .fold(0, |number, byte| number_after(number, *byte))
}

/// The number with which a line ends one byte later. A line end changes nothing.
fn number_after(number: u32, byte: u8) -> u32
    ensures { result ≡ number_after number byte }
{
    match byte {
        b'0'..=b'9' => number
            .saturating_mul(10)
            .saturating_add(u32::from(byte - b'0')),
        b'\n' => number,
        _ => 0,
    }
}
