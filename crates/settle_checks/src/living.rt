//! Who is an instance, and the least of some numbers.

ghost use Rattle.std.specs.Prelude.{◌≡◌, Some};
ghost use Rattle.port_model.specs.Timers.{earlier};
ghost use Rattle.settle_meaning.specs.Living as meaning;

use port_model::Pid;

/// Whether it is no instance.
pub fn is_null(pid: Pid) -> bool
    ensures { result ≡ meaning.is_null pid }
{
    match pid {
        Pid::Null => true,
        _ => false,
    }
}

/// The least of some numbers, with one more.
pub fn least_of(least: Option<u32>, number: u32) -> Option<u32>
    ensures { result ≡ earlier least (Some number) }
{
    match least {
        None => Some(number),
        Some(other) => Some(other.min(number)),
    }
}
