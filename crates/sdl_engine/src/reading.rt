//! An input that is read.

ghost use Rattle.std.specs.Prelude.{◌≡◌, ◌⊎◌, IfOk, IfErr, None, option_map};
ghost use Rattle.sdl_engine.specs.Input.{IsRead};

use crate::fault::ReadFault;
use crate::input::Input;
use crate::options::TextFault;
use crate::source::Source;
use std::alloc::Global;
use std::io::Read;

/// Reads all that a reader has.
pub fn read_input<R: Read>(alloc: Global, reader: &mut R) -> Result<Input, TextFault>
    ensures ok { IfOk result (IsRead (R.remaining reader.old) None) }
    ensures err { IfErr result (λ fault. (fault ≡ TextFault.Read) ⊎ (fault ≡ TextFault.Memory)) }
{
    match crate::input::read_input(alloc, reader) {
        Ok(input) => Ok(input),
        Err(ReadFault::Read) => Err(TextFault::Read),
        Err(ReadFault::Memory) => Err(TextFault::Memory),
    }
}

/// Reads all that a source has.
pub fn read_source<R: Read, S: Read>(
    alloc: Global,
    source: &mut Source<R, S>,
) -> Result<Input, TextFault>
    ensures ok { IfOk result (IsRead (R.remaining source.old.text) (option_map S.remaining source.old.script)) }
    ensures err { IfErr result (λ fault. (fault ≡ TextFault.Read) ⊎ (fault ≡ TextFault.Memory)) }
{
    match crate::input::read_source(alloc, source) {
        Ok(input) => Ok(input),
        Err(ReadFault::Read) => Err(TextFault::Read),
        Err(ReadFault::Memory) => Err(TextFault::Memory),
    }
}
