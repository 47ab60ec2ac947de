//! How the ports of a run are made.

ghost use Rattle.std.specs.Prelude.{◌≡◌, ◌<◌, IfOk, vec_len};
ghost use Rattle.threads_ports.specs.Named.{AreMade};
ghost use Rattle.threads_ports.specs.Site.{AreNumbered};

use crate::site::Site;
use input_port::birth::NewPort;
use input_port::{Desk, Owner, Port};
use std::alloc::{AllocError, Global};
use std::thread;
use std::thread::Threads;

/// How many ports a run has: one for each number that may be given.
pub(crate) const MOST_PORTS: u32 = 1_000;

/// The ports of a run as they are made, each with its desk and its owner at the same place. The place k has those of the
/// number k + 1.
#[derive(Drop)]
pub struct NewPorts {
    pub rows: Vec<Port>,
    pub desks: Vec<Desk>,
    pub owners: Vec<Option<Owner>>,
}

/// The ports of the numbers 1 to 1,000, which so many threads make at most. Refused for lack of memory.
pub fn ports<R: Threads + Sync>(
    rt: &R,
    alloc: Global,
    threads: usize,
) -> Result<NewPorts, AllocError>
    requires { 0 < threads }
    ensures all { IfOk result (λ made. vec_len made.rows ≡ 1000) }
    ensures made { IfOk result (λ made. AreMade made.rows.items made.desks.items made.owners.items) }
{
    let mut sites = sites(alloc)?;
    make_all(rt, alloc, threads, sites.as_mut_slice());
    lined_up(alloc, sites)
}

/// A site for each number, before any port is made. Refused for lack of memory.
fn sites(alloc: Global) -> Result<Vec<Site>, AllocError>
    ensures { IfOk result (λ sites. AreNumbered sites.items) }
{
    let mut sites = Vec::with_capacity(alloc, MOST_PORTS as usize)?;
    for place in 0..MOST_PORTS {
        sites.push(Site::new(place + 1))?;
    }
    Ok(sites)
}

/// Makes the ports at these sites, in at most so many threads.
fn make_all<R: Threads + Sync>(rt: &R, alloc: Global, threads: usize, sites: &mut [Site])
    requires { 0 < threads }
    ensures { sites.new ≡ sites.old }
{
    thread::for_each_mut(
        rt,
        sites,
        threads,
        &|_, site: &mut Site|
            ensures { site.new ≡ site.old }
        { site.make(alloc) },
    );
}

/// The ports that are made at these sites. Refused for lack of memory, also where there was none for a port.
fn lined_up(alloc: Global, sites: Vec<Site>) -> Result<NewPorts, AllocError>
    requires { AreNumbered sites.items }
    ensures all { IfOk result (λ made. vec_len made.rows ≡ 1000) }
    ensures made { IfOk result (λ made. AreMade made.rows.items made.desks.items made.owners.items) }
{
    let count = MOST_PORTS as usize;
    let mut rows = Vec::with_capacity(alloc, count)?;
    let mut desks = Vec::with_capacity(alloc, count)?;
    let mut owners = Vec::with_capacity(alloc, count)?;
    for site in sites {
        let Some(made) = site.into_port() else {
            return Err(AllocError);
        };
        let NewPort { port, owner, desk } = made;
        rows.push(port)?;
        desks.push(desk)?;
        owners.push(Some(owner))?;
    }
    Ok(NewPorts {
        rows,
        desks,
        owners,
    })
}
