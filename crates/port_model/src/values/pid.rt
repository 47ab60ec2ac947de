//! The identities of instances.

ghost use Rattle.std.specs.Prelude.{Some};
ghost use Rattle.port_model.specs.Text.{pid_text};

use std::fmt;

/// The identity of an instance: what `self`, `parent`, `offspring` and `sender` hold.
#[derive(Clone, Copy, PartialEq, Eq, PartialOrd, Ord)]
pub enum Pid {
    /// No instance: `null`.
    Null,
    /// The environment of the system: `env`.
    Env,
    /// The instance with this number: `#7`.
    Of(u32),
}

impl fmt::Display for Pid {
    ghost output = { λ pid. Some (pid_text pid) };

    fn fmt<W: fmt::Write>(&self, f: &mut fmt::Formatter<W>) -> fmt::Result {
        match self {
            Pid::Null => write!(f, "null"),
            Pid::Env => write!(f, "env"),
            Pid::Of(number) => write!(f, "#{number}"),
        }
    }
}
