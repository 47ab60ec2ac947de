//! What joins the agents of a specification.

ghost use Rattle.std.specs.Prelude.{◌≡◌, length, IfOk, OnOk};
ghost use Rattle.sdl_build.specs.Lists.{AreMembers};
ghost use Rattle.sdl_build.specs.Context.{IsNetwork};
ghost use Rattle.build_definitions.specs.Definitions.{rows_of};
ghost use Rattle.build_network.specs.Network.{network_faults};
ghost use Rattle.build_routes.specs.SignalLists.{AreSets};
ghost use Rattle.build_routes.specs.Table.{AreRoutes};
ghost use Rattle.build_names.specs.Faults.{Notes};
ghost use Rattle.build_states.specs.Context.{listed_members};

use crate::context::lists::members;
use build_definitions::{Definitions, SymbolTable};
use build_names::Faults;
use build_network::{network_of, note_network};
use build_routes::{Network, SignalSets, counted, routes_of};
use port_model::SignalId;
use sdl_system::Routes;
use std::alloc::{AllocError, Global};

/// The connections between the agents of a specification.
#[derive(Drop)]
pub struct Connections {
    pub network: Network,
    /// The sets of signals for which the lists of the network stand.
    pub sets: SignalSets,
    pub routes: Routes,
    /// The signals that each `signallist` stands for, by its number.
    pub members: Vec<Vec<SignalId>>,
}

impl Connections {
    /// Makes the connections between the agents of a specification with these definitions and names. Notes each name in
    /// them that stands for nothing.
    pub fn of<'t>(
        alloc: Global,
        definitions: &Definitions<'t>,
        symbols: &SymbolTable<'_, 't>,
        faults: &mut Faults<'t>,
    ) -> Result<Self, AllocError>
        ensures network { IfOk result (λ connections. IsNetwork (rows_of definitions.now) symbols.now
            connections.network) }
        ensures sets { IfOk result (λ connections. AreSets connections.network.lists.items connections.network.signals
            connections.sets) }
        ensures routes { IfOk result (λ connections. AreRoutes connections.network connections.routes) }
        ensures members { IfOk result (λ connections. AreMembers connections.network
            (length (rows_of definitions.now).lists) (listed_members connections.members.items)) }
        ensures noted { OnOk result (Notes faults.old faults.new
            (network_faults (rows_of definitions.now) symbols.now)) }
    {
        note_network(alloc, definitions, symbols, faults)?;
        let lists = counted(definitions.lists.len())?;
        let network = network_of(alloc, definitions, symbols)?;
        Self::over(alloc, network, lists)
    }

    /// Makes the connections of this network. The first `lists` of its lists are the `signallist`s.
    fn over(alloc: Global, network: Network, lists: u32) -> Result<Self, AllocError>
        ensures network { IfOk result (λ connections. connections.network ≡ network) }
        ensures sets { IfOk result (λ connections. AreSets connections.network.lists.items connections.network.signals
            connections.sets) }
        ensures routes { IfOk result (λ connections. AreRoutes connections.network connections.routes) }
        ensures members { IfOk result (λ connections. AreMembers connections.network lists
            (listed_members connections.members.items)) }
    {
        let sets = SignalSets::of_lists(alloc, &network.lists, network.signals)?;
        let routes = routes_of(alloc, &network, &sets)?;
        let members = members(alloc, &network, &sets, lists)?;
        Ok(Connections {
            network,
            sets,
            routes,
            members,
        })
    }
}
