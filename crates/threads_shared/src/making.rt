//! How an instance is made (Z.102: create).

ghost use Rattle.std.specs.Prelude.{◌≡◌, ◌<◌, ◌≤◌, [], IfNone, IfOk, IfSome, None, OnErr, Some};
ghost use Rattle.threads_ports.specs.Instances.{without_reservation};
ghost use Rattle.threads_ports.specs.Roster.{reserved_in};
ghost use Rattle.threads_shared.specs.Making.{IsMade, IsSpent, LivesSince};

use crate::shared::{Seated, Shared};
use input_port::{Held, Owner, Port};
use port_model::{Pid, Values};
use run_record::Identity;
use sdl_system::ProcessId;
use std::alloc::AllocError;
use std::sync::Wait;
use threads_instance::{ThreadInstance, Ticket};
use threads_ports::{Entered, NumberSeat, Roster, Run};

/// What a create gives: the ticket of the instance, or None; and the version of the roster in which it lives, or in
/// which there was no room for it. It can't be let go, since a ticket can't.
pub struct Made {
    pub ticket: Option<Ticket>,
    pub version: u64,
}

/// Makes an instance of a process, with these values of its parameters: at one moment it is entered, lives, and is in
/// its slot before its start, where it has something to do. Its ticket is the answer, and is the caller's to queue.
/// None: as many live as may, or all numbers are drawn.
///
/// Refused for lack of memory: nobody is entered, and nobody lives who didn't before. The instance is made for the port
/// of its number, so it is made after the draw. If it finds no memory, the number is spent: nobody gets it.
pub fn make<J: Run, R: Wait + Copy>(
    shared: &Shared<'_, '_, '_, J, R>,
    seat: &mut NumberSeat<J>,
    process: ProcessId,
    parent: Pid,
    values: Values,
) -> Result<Made, AllocError>
    ensures number { IfOk result (λ made. IfSome made.ticket (λ number. IsMade number seat.old.drawn seat.new.drawn)) }
    ensures none { IfOk result (λ made. IfNone made.ticket (IsSpent seat.old.drawn seat.new.drawn)) }
    ensures refused { OnErr result (IsSpent seat.old.drawn seat.new.drawn) }
    ensures rights { (seat.new.parts ≡ seat.old.parts) × (seat.new.left ≡ seat.old.left) }
{
    // Before: those that live are within the process's maximum, by the roster's type, and no create is under way, since
    // each is made under this lock. After: the same, and there is one instance more, or none: with its number, its
    // entry, its life and the version of all in this one section. So who finds as many living as may finds them by
    // their numbers. A job has the lock of its instance's slot while it makes one. The slot that is locked here is one
    // that no other thread can step in yet, and who has the lock of the owners takes no other: so no two threads wait
    // for each other. Nobody waits for an instance to be made, so nobody is woken.
    let mut roster = shared.tables.roster.lock(shared.rt);
    make_in(&mut roster, shared, seat, process, parent, values)
}

/// Makes an instance by this roster. One that is made changes its version.
#[tactic(auto, using(crate::proofs::CreateLemmas::spent_none))]
fn make_in<J: Run, R: Wait + Copy>(
    roster: &mut Roster,
    shared: &Shared<'_, '_, '_, J, R>,
    seat: &mut NumberSeat<J>,
    process: ProcessId,
    parent: Pid,
    values: Values,
) -> Result<Made, AllocError>
    ensures number { IfOk result (λ made. IfSome made.ticket (λ number. IsMade number seat.old.drawn seat.new.drawn)) }
    ensures none { IfOk result (λ made. IfNone made.ticket (IsSpent seat.old.drawn seat.new.drawn)) }
    ensures refused { OnErr result (IsSpent seat.old.drawn seat.new.drawn) }
    ensures rights { (seat.new.parts ≡ seat.old.parts) × (seat.new.left ≡ seat.old.left) }
    ensures version { IfOk result (λ made. made.version ≡ roster.new.version) }
    ensures same { IfOk result (λ made. IfNone made.ticket (roster.new.version ≡ roster.old.version)) }
    ensures lives { IfOk result (λ made. IfSome made.ticket (λ number.
        LivesSince roster.old process number roster.new)) }
{
    if !roster.reserve(process) {
        return Ok(nobody(roster));
    }
    match make_reserved(roster, shared, seat, process, parent, values) {
        Ok(Some(ticket)) => {
            roster.live(process, ticket.number());
            shared.tables.signs.note_version(roster);
            let version = roster.version();
            Ok(Made {
                ticket: Some(ticket),
                version,
            })
        }
        Ok(None) => {
            give_back(roster, shared, process);
            Ok(nobody(roster))
        }
        Err(refused) => {
            give_back(roster, shared, process);
            Err(refused)
        }
    }
}

/// Gives a reservation back, since the create came to nothing. The version that may be announced isn't made.
fn give_back<J: Run, R: Wait + Copy>(
    roster: &mut Roster,
    shared: &Shared<'_, '_, '_, J, R>,
    process: ProcessId,
)
    ensures { roster.new ≡ reserved_in without_reservation roster.old process }
{
    roster.release(process);
    shared.tables.signs.note_version(roster);
}

/// Nobody was made, in this version of the roster.
fn nobody(roster: &Roster) -> Made
    ensures { result ≡ record { ticket = None; version = roster.now.version } }
{
    Made {
        ticket: None,
        version: roster.version(),
    }
}

/// Makes an instance for which there is a reservation in this roster. The caller has the lock of the roster.
#[tactic(auto, using(crate::proofs::CreateLemmas::spent_none, crate::proofs::CreateLemmas::spent_one))]
fn make_reserved<J: Run, R: Wait + Copy>(
    roster: &Roster,
    shared: &Shared<'_, '_, '_, J, R>,
    seat: &mut NumberSeat<J>,
    process: ProcessId,
    parent: Pid,
    values: Values,
) -> Result<Option<Ticket>, AllocError>
    ensures number { IfOk result (λ made. IfSome made (λ number. IsMade number seat.old.drawn seat.new.drawn)) }
    ensures none { IfOk result (λ made. IfNone made (IsSpent seat.old.drawn seat.new.drawn)) }
    ensures refused { OnErr result (IsSpent seat.old.drawn seat.new.drawn) }
    ensures rights { (seat.new.parts ≡ seat.old.parts) × (seat.new.left ≡ seat.old.left) }
{
    let Some(pid) = seat.draw(&shared.common.numbers) else {
        return Ok(None);
    };
    let who = Identity {
        process,
        pid,
        parent,
    };
    let Some(instance) = instance_of(shared, who, values)? else {
        return Ok(None);
    };
    let ticket = enter(roster, shared, who, instance)?;
    Ok(Some(ticket))
}

/// The instance in its seat. None: the port of the number has no owner to give.
fn instance_of<'s, 'p, J: Run, R: Wait + Copy>(
    shared: &Shared<'_, 's, 'p, J, R>,
    who: Identity,
    values: Values,
) -> Result<Option<Seated<'s, 'p, J, R>>, AllocError> {
    let system = shared.system;
    let Some(process) = system.process(who.process) else {
        return Ok(None);
    };
    let Some(port) = shared.common.ports.port(who.pid) else {
        return Ok(None);
    };
    let Some(owner) = shared.common.ports.owner(shared.rt, who.pid) else {
        return Ok(None);
    };
    let inbox = inbox_of(shared, port, owner);
    let alloc = shared.alloc;
    let Ok(mut instance) = ThreadInstance::new(alloc, system, process, who, values, inbox) else {
        return Err(AllocError);
    };
    if shared.keeps_course {
        instance.keep_course(alloc);
    }
    match Box::new(alloc, instance) {
        Ok(seated) => Ok(Some(seated)),
        Err(_) => Err(AllocError),
    }
}

/// The port of an instance that is made, as its inbox. Where the course of the run is kept, it keeps who puts each
/// entry.
fn inbox_of<'p, J: Run, R: Wait + Copy>(
    shared: &Shared<'_, '_, 'p, J, R>,
    port: &'p Port,
    owner: Owner,
) -> Held<'p, R>
    requires port { owner.port ≡ port.now.queue }
    requires drawn { owner.drawn ≡ [] }
    ensures { result ≡ record { owner = owner; since = [] } }
{
    if shared.keeps_course {
        Held::keeping(*shared.rt, port, owner)
    } else {
        Held::new(*shared.rt, port, owner)
    }
}

/// Enters an instance: from now on a signal to its number reaches its port, and it is in its slot. The answer is its
/// ticket. Before that the version of this roster is announced in which it lives.
fn enter<'s, 'p, J: Run, R: Wait + Copy>(
    roster: &Roster,
    shared: &Shared<'_, 's, 'p, J, R>,
    who: Identity,
    instance: Seated<'s, 'p, J, R>,
) -> Result<Ticket, AllocError>
    requires { (0 < who.pid) × (who.pid ≤ 1000) }
    ensures { IfOk result (λ ticket. ticket ≡ who.pid) }
{
    let Identity {
        process,
        pid,
        parent,
    } = who;
    let Some(slot) = shared.slots.of(pid) else {
        return Err(AllocError);
    };
    let entered = Entered {
        pid,
        process,
        parent,
    };
    // A thread that has the number from the script finds the entry without a lock. What it looks up then is by a
    // version in which the instance lives, as if all this were one moment.
    shared.tables.signs.announce_version(roster);
    if shared.common.entries.enter(entered).is_err() {
        return Err(AllocError);
    }
    // Before: the instance is entered, and nobody is in its slot. After: it is there and ready, and the caller has its
    // ticket, so no other thread steps it. A signal that came between is in its port, and its first steps take it.
    match slot.enter(shared.rt, instance) {
        Some(ticket) => Ok(ticket),
        None => Err(AllocError),
    }
}
