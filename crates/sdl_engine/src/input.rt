//! What is held of a source.

ghost use Rattle.std.specs.Prelude.{◌≡◌, ◌<◌, ◌⊎◌, IfOk, IfErr, MatchOption, None, option_map, vec_len};
ghost use Rattle.sdl_engine.specs.Input.{IsAll, IsRead, IsScriptRead, IsTooLong};

use crate::fault::ReadFault;
use crate::source::Source;
use crate::texts::Texts;
use std::alloc::Global;
use std::io::{ErrorKind, Read};

/// The most bytes that are read of a text, and of a script of its own: 2 MiB.
const MOST_BYTES: usize = 2_097_152;

/// The most calls of a reader, so that one that gives nothing but single bytes or interruptions for ever comes to an
/// end.
const MOST_READS: u32 = 4_194_304;

/// How many bytes are asked for at a time.
const PIECE: usize = 65_536;

/// All that a source has, or that one of its readers has more than 2,097,152 bytes.
#[derive(Drop)]
pub enum Input {
    Held(Texts),
    TooLong,
}

/// Reads all that a reader has, in at most 4,194,304 reads. There is no script of its own.
pub fn read_input<R: Read>(alloc: Global, reader: &mut R) -> Result<Input, ReadFault>
    ensures ok { IfOk result (IsRead (R.remaining reader.old) None) }
    ensures err { IfErr result (λ fault. (fault ≡ ReadFault.Read) ⊎ (fault ≡ ReadFault.Memory)) }
{
    match read_all(alloc, reader)? {
        Some(text) => Ok(Input::Held(Texts { text, script: None })),
        None => Ok(Input::TooLong),
    }
}

/// Reads all that a source has, in at most 4,194,304 reads of each reader: first the text, then the script of its own.
pub fn read_source<R: Read, S: Read>(
    alloc: Global,
    source: &mut Source<R, S>,
) -> Result<Input, ReadFault>
    ensures ok { IfOk result (IsRead (R.remaining source.old.text) (option_map S.remaining source.old.script)) }
    ensures err { IfErr result (λ fault. (fault ≡ ReadFault.Read) ⊎ (fault ≡ ReadFault.Memory)) }
{
    let Some(text) = read_all(alloc, &mut source.text)? else {
        return Ok(Input::TooLong);
    };
    match read_own(alloc, &mut source.script)? {
        Own::Held(script) => Ok(Input::Held(Texts { text, script })),
        Own::TooLong => Ok(Input::TooLong),
    }
}

/// What is held of a script of its own, where there may be none.
#[derive(Drop)]
enum Own {
    Held(Option<Vec<u8>>),
    TooLong,
}

/// Reads the script of its own, if there is one.
fn read_own<S: Read>(alloc: Global, script: &mut Option<S>) -> Result<Own, ReadFault>
    ensures ok { IfOk result (IsScriptRead (option_map S.remaining script.old)) }
    ensures err { IfErr result (λ fault. (fault ≡ ReadFault.Read) ⊎ (fault ≡ ReadFault.Memory)) }
{
    match script {
        None => Ok(Own::Held(None)),
        Some(reader) => match read_all(alloc, reader)? {
            Some(bytes) => Ok(Own::Held(Some(bytes))),
            None => Ok(Own::TooLong),
        },
    }
}

/// Reads all that a reader has. None if that is too long.
fn read_all<R: Read>(alloc: Global, reader: &mut R) -> Result<Option<Vec<u8>>, ReadFault>
    ensures ok { IfOk result (λ read. MatchOption read (IsTooLong (R.remaining reader.old))
        (λ bytes. IsAll (R.remaining reader.old) bytes.items)) }
    ensures err { IfErr result (λ fault. (fault ≡ ReadFault.Read) ⊎ (fault ≡ ReadFault.Memory)) }
{
    let mut bytes = Vec::new(alloc);
    let mut piece = new_piece(alloc)?;
    for _turn in 0..MOST_READS {
        let count = match reader.read(piece.as_mut_slice()) {
            Ok(count) => count,
            Err(error) if error.kind() == ErrorKind::Interrupted => continue,
            Err(_) => return Err(ReadFault::Read),
        };
        if count == 0 {
            return Ok(Some(bytes));
        }
        if bytes.extend_from_slice(&piece[..count]).is_err() {
            return Err(ReadFault::Memory);
        }
        if bytes.len() > MOST_BYTES {
            return Ok(None);
        }
    }
    Err(ReadFault::Read)
}

/// Room for the bytes of one read.
fn new_piece(alloc: Global) -> Result<Vec<u8>, ReadFault>
    ensures ok { IfOk result (λ piece. 0 < vec_len piece) }
    ensures err { IfErr result (λ fault. fault ≡ ReadFault.Memory) }
{
    vec![in alloc; 0u8; PIECE].map_err(|_| ReadFault::Memory)
}
