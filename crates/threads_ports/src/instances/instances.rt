//! The instances of one process (Z.101: agent instance set).

ghost use Rattle.std.specs.Prelude.{◌≡◌, ◌<◌, ◌≤◌, if◌then◌else◌};
ghost use Rattle.threads_ports.specs.NumberSets.{is_in};
ghost use Rattle.threads_ports.specs.Instances.{can_live, has_room, least, none_of, AreWithinLimit, with_one, without_one, with_reservation, without_reservation};

use crate::instances::numbers::Numbers;
use std::marker::Model;

/// How many instances there may be, and how many creates are under way.
#[derive(Clone, Copy)]
pub struct Limit {
    /// How many there may be at most.
    pub maximum: u32,
    /// For how many more there is a reservation.
    pub reserved: u32,
}

/// Those of a process that live, and its limit where it has a maximum. Without one any number may be made, so
/// reservations aren't counted.
#[derive(Drop)]
pub struct Instances {
    living: Numbers,
    limit: Option<Limit>,
}

impl Model for Instances {
    ghost use Rattle.threads_ports.specs.Instances.{InstancesValue, IsWithin};

    ghost Value = { InstancesValue };

    ghost view = { λ instances. record { living = instances.living; limit = instances.limit } };

    ghost invariant = { λ instances. IsWithin instances.limit instances.living };
}

impl Instances {
    /// Nobody lives, of a process with this maximum.
    pub fn new(maximum: Option<u32>) -> Self
        ensures none { result ≡ none_of maximum }
        ensures within { AreWithinLimit result }
    {
        Instances {
            living: Numbers::new(),
            limit: maximum.map(|maximum| Limit {
                maximum,
                reserved: 0,
            }),
        }
    }

    /// A reservation for one more. False: those that live and those that are reserved are as many as may be.
    pub fn reserve(&mut self) -> bool
        ensures room { result ≡ has_room self.old }
        ensures after { self.new ≡ (if result then with_reservation self.old else self.old) }
        ensures within { AreWithinLimit self.new }
    {
        let Some(limit) = &mut self.limit else {
            return true;
        };
        if self.living.len() + limit.reserved >= limit.maximum {
            return false;
        }
        limit.reserved += 1;
        true
    }

    /// Gives a reservation back.
    pub fn release(&mut self)
        ensures after { self.new ≡ without_reservation self.old }
        ensures within { AreWithinLimit self.new }
    {
        if let Some(limit) = &mut self.limit {
            limit.reserved = limit.reserved.saturating_sub(1);
        }
    }

    /// One more lives, and a reservation is spent. False: it lives already, or there is no reservation.
    pub fn live(&mut self, number: u32) -> bool
        requires { number ≤ 1000 }
        ensures can { result ≡ can_live number self.old }
        ensures after { self.new ≡ (if result then with_one number self.old else self.old) }
        ensures within { AreWithinLimit self.new }
    {
        if self.living.contains(number) {
            return false;
        }
        if let Some(limit) = &mut self.limit {
            if limit.reserved == 0 {
                return false;
            }
            limit.reserved -= 1;
        }
        self.living.insert(number);
        true
    }

    /// One lives no more. False: it didn't live; then nothing changes.
    pub fn end(&mut self, number: u32) -> bool
        ensures lived { result ≡ is_in number self.old.living }
        ensures after { self.new ≡ (if result then without_one number self.old else self.old) }
        ensures within { AreWithinLimit self.new }
    {
        if !self.living.contains(number) {
            return false;
        }
        self.living.remove(number);
        true
    }

    /// The least number of those that live.
    pub fn least(&self) -> Option<u32>
        ensures { result ≡ least self.now }
    {
        self.living.least()
    }
}
