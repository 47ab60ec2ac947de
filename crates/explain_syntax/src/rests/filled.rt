//! Bytes that take the place of others.

ghost use Rattle.std.specs.Prelude.{◌≡◌, ◌<◌, ◌+◌, ◌^◌};
ghost use Rattle.explain_syntax.specs.Line.{IsWithoutLine, byte_in_line, ended_after};
ghost use Rattle.explain_syntax.specs.Rest as spec;
ghost use Rattle.explain_syntax.specs.Rest.{IsFilled, IsRestOf};

/// Leaves bytes out, except line ends: `stop` and blanks take their place, or only blanks.
pub fn fill(text: &mut Vec<u8>, from: usize, to: usize, stops: bool)
    ensures rest { IsRestOf text.old.items text.new.items }
    ensures filled { IsFilled from to stops text.old.items text.new.items }
{
    for at in 0..text.len() {
        text[at] = byte_at(from, to, stops, at, text[at]);
    }
}

/// The byte of this number, which was that one.
fn byte_at(from: usize, to: usize, stops: bool, number: usize, old: u8) -> u8
    ensures { result ≡ spec.byte_at from to stops number old }
{
    if from <= number && number < to && old != b'\n' {
        filler(stops, number - from)
    } else {
        old
    }
}

/// What takes the place of the byte of this number among those that are left out.
fn filler(stops: bool, number: usize) -> u8
    ensures { result ≡ spec.filler stops number }
{
    if stops && number == 0 {
        b's'
    } else if stops && number == 1 {
        b't'
    } else if stops && number == 2 {
        b'o'
    } else if stops && number == 3 {
        b'p'
    } else {
        b' '
    }
}

/// Makes a line blank, except its end.
pub fn leave_out_line(text: &mut Vec<u8>, number: usize)
    ensures rest { IsRestOf text.old.items text.new.items }
    ensures without { IsWithoutLine number text.old.items text.new.items }
{
    let mut ended: usize = 0;
    for at in 0..text.len() {
        let old = text[at];
        text[at] = byte_in_line(number, ended + 1, old);
        ended = ended_after(ended, old);
    }
}

/// How many lines end before or with this byte, by how many end before it.
fn ended_after(ended: usize, old: u8) -> usize
    requires { ended + 1 < 2 ^ 64 }
    ensures { result ≡ ended_after ended old }
{
    if old == b'\n' { ended + 1 } else { ended }
}

/// A byte in this line, which was that one.
fn byte_in_line(number: usize, line: usize, old: u8) -> u8
    ensures { result ≡ byte_in_line number line old }
{
    if line == number && old != b'\n' {
        b' '
    } else {
        old
    }
}
