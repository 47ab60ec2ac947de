//! Writing a text to its end.

ghost use Rattle.std.specs.Prelude.{◌≡◌, ◌↔◌, IfErr, IsTrue, OnErr, OnOk};
ghost use Rattle.std.specs.Io.KnownBytes.{Appends};
ghost use Rattle.std.specs.IoError.{error_kind};
ghost use Rattle.sdl_report.specs.Gathered.{BreaksOff};

use std::alloc::AllocError;
use std::io::{Error, ErrorKind, Write};
use thiserror::Error;

/// Why a text was not written to its end. A prefix of it may have gone out.
#[derive(Clone, Copy, Debug, PartialEq, Eq, Error)]
pub enum WriteFault {
    /// The writer answered an error.
    #[error("write failed")]
    Write,
    /// A line could not be made.
    #[error("out of memory")]
    Memory,
}

impl From<AllocError> for WriteFault {
    ghost use Rattle.std.specs.Prelude.{◌≡◌};
    ghost use Rattle.sdl_report.specs.declared.write_whole.WriteFault.TheVariants.{Memory};

    ghost from_gives = { λ _ fault. fault ≡ Memory };

    fn from(_error: AllocError) -> WriteFault {
        WriteFault::Memory
    }
}

/// Writes all of a text, in as many pieces as the writer takes it. A call that was interrupted is made again, and a
/// writer that takes no byte is at fault. The fault is Write, and then the text is not written to its end.
pub fn write_text<W: Write>(writer: &mut W, text: &[u8]) -> Result<(), WriteFault>
    ensures ok { OnOk result (Appends (W.contents writer.old) (W.contents writer.new) text.now) }
    ensures err { OnErr result (BreaksOff (W.contents writer.old) (W.contents writer.new) text.now) }
    ensures fault { IfErr result (λ fault. fault ≡ WriteFault.Write) }
{
    let mut rest = text;
    for _call in 0..u64::MAX {
        if rest.is_empty() {
            return Ok(());
        }
        match writer.write(rest) {
            Ok(0) => return Err(WriteFault::Write),
            Ok(count) => {
                let (_, after) = rest.split_at(count);
                rest = after;
            }
            Err(error) => {
                if !is_interrupted(&error) {
                    return Err(WriteFault::Write);
                }
            }
        }
    }
    if rest.is_empty() {
        Ok(())
    } else {
        Err(WriteFault::Write)
    }
}

fn is_interrupted(error: &Error) -> bool
    ensures { IsTrue result ↔ (error_kind error.now ≡ ErrorKind.Interrupted) }
{
    error.kind() == ErrorKind::Interrupted
}
