//! The calls of a port that can be refused for lack of memory.

ghost use Rattle.std.specs.Prelude.{◌≡◌, ◌↔◌, None, Some, IfErr, IsOk, OnErr, OnOk};

use crate::fault::Fault;
use std::fmt;

/// A call of a port that can be refused for lack of memory.
#[derive(Clone, Copy)]
pub enum Call {
    /// The making of a port.
    Port,
    Put,
    Take,
    Gather,
    Finish,
}

impl Call {
    /// Notes that this call was refused and is made again. A row bears one refusal: a second one is a fault.
    pub fn retry(self, retried: &mut Option<Call>) -> Result<(), Fault>
        ensures first { IsOk result ↔ (retried.old ≡ None) }
        ensures noted { OnOk result (retried.new ≡ Some self) }
        ensures second { IfErr result (λ fault. fault ≡ Fault.Refused self) }
        ensures same { OnErr result (retried.new ≡ retried.old) }
    {
        match *retried {
            Some(_) => Err(Fault::Refused(self)),
            None => {
                *retried = Some(self);
                Ok(())
            }
        }
    }
}

impl fmt::Display for Call {
    fn fmt<W: fmt::Write>(&self, f: &mut fmt::Formatter<W>) -> fmt::Result {
        f.write_str(match self {
            Call::Port => "port",
            Call::Put => "put",
            Call::Take => "take",
            Call::Gather => "gather",
            Call::Finish => "finish",
        })
    }
}
