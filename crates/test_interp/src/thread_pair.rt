//! Two instances of a run on threads, run on one thread: the first makes the second, they talk, and a timer of the first
//! is due as it is set. Neither has the number 1, and the clock doesn't stand at 0.

ghost use Rattle.std.specs.Prelude.{◌≡◌, [], ℕ, Some, false, nat_eq};
ghost use Rattle.port_model.specs.Port.{empty_port};
ghost use Rattle.input_port.specs.QueueEnds.{newborn};

use crate::pair::{FIRST, Pair, SECOND};
use input_port::birth::port;
use input_port::{Desk, Held, NewPort, Owner, Port};
use port_model::{Item, Pid, SignalId, Ticks, Value, Values};
use run_record::{Identity, Record, Report};
use sdl_build::build;
use sdl_parse::parse;
use sdl_report::write_report;
use sdl_system::{ProcessId, System};
use std::alloc::Global;
use std::marker::{Brand, PhantomData};
use std::process::Abort;
use std::sync::Wait;
use threads_instance::{Left, ThreadInstance};
use threads_ports::Run;

const TEXT: &str = "system S; signal a, v(Integer), who(Pid);
    process P; timer T, U; dcl n Integer, p Pid; start; output a to Q; create Q; output v(2) to Q; output v(3) to self;
    set(now, T); set(now + 5, U); nextstate s;
    state s; input who(p); output a to p; nextstate -; input v(n); nextstate -; input T; nextstate -; endprocess;
    process Q (0, 1); dcl n Integer; start; nextstate s; state s; input v(n); output v(n + 2) to sender; nextstate -;
    endprocess;
    endsystem;";

/// The number of the signal `who`.
const WHO: SignalId = SignalId(2);

/// A number that nobody has.
const NOBODY: u32 = 9;

const WANTED: &str = "instance #3 P parent null
5 start
  output a to nobody
  create Q #7
  output v(2) to #7
  output v(3) to #3
  set T 5
  set U 10
  nextstate s
5 input who(#9) from env
  output a to #9
  nextstate s
5 input v(3) from #3
  nextstate s
5 input T from #3
  nextstate s
5 input v(4) from #7
  nextstate s
cut s
instance #7 Q parent #3
5 start
  nextstate s
5 input v(2) from #3
  output v(4) to #3
  nextstate s
cut s
end 5 cut
";

fn system_of(rt: &impl Abort, alloc: Global) -> System {
    let tree = parse(alloc, TEXT.as_bytes()).expect(rt, "a tree");
    build(alloc, &tree).expect(rt, "a system")
}

#[test]
fn two_instances_talk(rt: HostRuntime) {
    let system = system_of(&rt, rt.alloc());
    with_ports(rt, rt.alloc(), &system);
}

fn with_ports<R: Abort + Wait + Copy>(rt: R, alloc: Global, system: &System) {
    let NewPort {
        port: first,
        owner,
        desk,
    } = port(alloc, FIRST).expect(&rt, "a port");
    let NewPort {
        port: second,
        owner: second_owner,
        desk: second_desk,
    } = port(alloc, SECOND).expect(&rt, "a port");
    talk::<Brand, R>(
        rt,
        alloc,
        system,
        &first,
        owner,
        desk,
        &second,
        second_owner,
        second_desk,
    );
}

fn talk<J: Run, R: Abort + Wait + Copy>(
    rt: R,
    alloc: Global,
    system: &System,
    first: &Port,
    first_owner: Owner,
    mut first_desk: Desk,
    second: &Port,
    second_owner: Owner,
    second_desk: Desk,
)
    requires system { J.system ≡ Some system.now }
    requires first { (n : ℕ) → nat_eq n 7 ≡ false → first.now.queue ≡ J.ports n }
    requires first_owner { first_owner ≡ newborn first.now.queue 3 }
    requires first_desk { first_desk.port ≡ first.now.queue }
    requires second { second.now.queue ≡ J.ports 7 }
    requires second_owner { second_owner ≡ newborn second.now.queue 7 }
    requires second_desk { second_desk.port ≡ second.now.queue }
{
    ask(&rt, alloc, first, &mut first_desk);
    let mut runtime = Pair::<J> {
        first,
        first_desk,
        second,
        second_desk,
        is_made: false,
        kept: Vec::new(alloc),
        of: PhantomData,
    };
    let mut p = instance::<J, _>(
        &rt,
        alloc,
        system,
        who(0, FIRST, Pid::Null),
        Held::new(rt, first, first_owner),
    );
    let mut q = instance::<J, _>(
        &rt,
        alloc,
        system,
        who(1, SECOND, Pid::Of(FIRST)),
        Held::new(rt, second, second_owner),
    );
    run(&rt, alloc, &mut p, &mut runtime, 4);
    run(&rt, alloc, &mut q, &mut runtime, 2);
    run(&rt, alloc, &mut p, &mut runtime, 1);
    assert!(rt;
        runtime
            .kept
            .iter()
            .map(|fuse| fuse.due())
            .eq([Ticks::new(10)])
    );
    let Left {
        trace: first,
        peers,
        ..
    } = p.close(false);
    assert!(rt; !peers.is_known(NOBODY) && (peers.sent(FIRST), peers.sent(SECOND)) == (1, 1));
    let Left {
        trace: second,
        peers,
        ..
    } = q.close(false);
    assert!(rt; (peers.sent(FIRST), peers.sent(SECOND)) == (1, 0));
    compare(
        &rt,
        alloc,
        system,
        vec![in alloc; first, second].expect(&rt, "a list"),
    );
}

/// The environment sends a number that nobody has.
fn ask<R: Abort + Wait>(rt: &R, alloc: Global, port: &Port, desk: &mut Desk)
    requires { desk.old.port ≡ port.now.queue }
    ensures { desk.new.port ≡ desk.old.port }
{
    let mut sender = desk.sender(port).expect(rt, "a sender");
    let item = Item {
        name: WHO,
        values: Values::from_slice(alloc, &[Value::Pid(Pid::Of(NOBODY))]).expect(rt, "values"),
        sender: Pid::Env,
    };
    assert!(rt; sender.put(rt, port, item).is_ok());
}

/// The instance of this number.
fn who(process: u32, pid: u32, parent: Pid) -> Identity
    ensures { result ≡ record { process = record { 0 = process }; pid = pid; parent = parent } }
{
    Identity {
        process: ProcessId(process),
        pid,
        parent,
    }
}

/// The instance before its start.
fn instance<'s, 'a, J: Run, R: Abort + Wait + Copy>(
    rt: &R,
    alloc: Global,
    system: &'s System,
    who: Identity,
    inbox: Held<'a, R>,
) -> ThreadInstance<'s, J, Held<'a, R>>
    requires system { J.system ≡ Some system.now }
    requires port { inbox.owner.port ≡ J.ports who.pid }
    requires own { inbox.owner.pid ≡ who.pid }
    requires empty { inbox.owner.state ≡ empty_port }
    requires drawn { inbox.owner.drawn ≡ [] }
{
    let process = system.process(who.process).expect(rt, "a process");
    match ThreadInstance::new(alloc, system, process, who, Values::none(alloc), inbox) {
        Ok(instance) => instance,
        Err(_) => panic!(rt; "no memory for an instance"),
    }
}

/// So many steps at the time 5.
fn run<J: Run, R: Wait + Copy>(
    rt: &R,
    alloc: Global,
    instance: &mut ThreadInstance<'_, J, Held<'_, R>>,
    runtime: &mut Pair<'_, J>,
    steps: u32,
) {
    for _ in 0..steps {
        let _ = instance.step(alloc, rt, runtime, Ticks::new(5));
    }
}

/// Compares the records with what is wanted.
fn compare(rt: &impl Abort, alloc: Global, system: &System, records: Vec<Record>) {
    let report = Report {
        records,
        end: Ticks::new(5),
        whole: false,
    };
    let mut bytes = Vec::new(alloc);
    write_report(alloc, &report, system, &mut bytes).expect(rt, "a report");
    assert!(rt; bytes.as_slice() == WANTED.as_bytes());
}
