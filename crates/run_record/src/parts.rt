//! Enums in two parts, a kind and a number, which take less room in an entry than the whole.

ghost use Rattle.std.specs.Prelude.{◌≡◌};
ghost use Rattle.run_record.specs.Packed.{instance_of, origin_of, target_of};

use crate::entry::Origin;
use sdl_system::Target;

/// Where a stimulus came from, without the number of the instance.
#[derive(Clone, Copy)]
pub enum OriginKind {
    Timer,
    Null,
    Env,
    Instance,
}

/// Whom an output reached, without the number of the instance.
#[derive(Clone, Copy)]
pub enum TargetKind {
    Instance,
    Env,
    Null,
    Nobody,
}

impl OriginKind {
    /// The parts of an origin.
    #[inline(always)]
    pub fn of(origin: Origin) -> (OriginKind, u32)
        ensures { origin_of result.0 result.1 ≡ origin }
    {
        match origin {
            Origin::Timer => (OriginKind::Timer, 0),
            Origin::Null => (OriginKind::Null, 0),
            Origin::Env => (OriginKind::Env, 0),
            Origin::Instance(number) => (OriginKind::Instance, number),
        }
    }

    /// The origin of these parts.
    #[inline(always)]
    pub fn origin(self, number: u32) -> Origin
        ensures { result ≡ origin_of self number }
    {
        match self {
            OriginKind::Timer => Origin::Timer,
            OriginKind::Null => Origin::Null,
            OriginKind::Env => Origin::Env,
            OriginKind::Instance => Origin::Instance(number),
        }
    }
}

impl TargetKind {
    /// The parts of a target.
    #[inline(always)]
    pub fn of(target: Target) -> (TargetKind, u32)
        ensures { target_of result.0 result.1 ≡ target }
    {
        match target {
            Target::Instance(number) => (TargetKind::Instance, number),
            Target::Env => (TargetKind::Env, 0),
            Target::Null => (TargetKind::Null, 0),
            Target::Nobody => (TargetKind::Nobody, 0),
        }
    }

    /// The target of these parts.
    #[inline(always)]
    pub fn target(self, number: u32) -> Target
        ensures { result ≡ target_of self number }
    {
        match self {
            TargetKind::Instance => Target::Instance(number),
            TargetKind::Env => Target::Env,
            TargetKind::Null => Target::Null,
            TargetKind::Nobody => Target::Nobody,
        }
    }

    /// The instance of these parts, if it is one.
    #[inline(always)]
    pub fn instance(self, number: u32) -> Option<u32>
        ensures { result ≡ instance_of (target_of self number) }
    {
        match self {
            TargetKind::Instance => Some(number),
            _ => None,
        }
    }
}
