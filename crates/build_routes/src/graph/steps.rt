//! The graph in which signals flow from a source.
//!
//! It has a node for each path of a channel, two for each block and each connect, and one for each process, so that it
//! grows with the text and not with the pairs of joined channels. What is joined without a connect meets at the nodes
//! of its block.

ghost use Rattle.std.specs.Prelude.{◌≡◌, ◌<◌, ◌↔◌, ℕ, get_or, IfOk, OnOk, false, not, ◌&&◌};
ghost use Rattle.build_routes.specs.Each.{ForSome};
ghost use Rattle.build_routes.specs.Graph.{Adds, Leads};
ghost use Rattle.build_routes.specs.Rows.{rows_of};
ghost use Rattle.build_routes.specs.declared.network.graph.Step.{Step};
ghost use Rattle.build_routes.specs.Steps.{AllSteps, BlockSteps, AtPath, ConnectSteps, JointSteps, Link, PathSteps, SideSteps, ProcessSteps, ScopeSteps, option_if};

use crate::graph::joint::Side;
use crate::graph::node::Node;
use crate::graph::place::{
    begin_of, end_of, first_of, from_block, is_implied, node_if, on_first, on_implied, same_end,
    same_scope, start_of,
};
use crate::network::{
    ChannelPath, Connect, End, Graph, ListId, Network, PathId, Process, Scope, Source, Step,
    counted,
};
use sdl_system::{BlockId, ProcessId};
use std::alloc::{AllocError, Global};

/// A connect by its number, and its block.
#[derive(Clone, Copy)]
struct Joint {
    connect: u32,
    block: BlockId,
}

/// The steps of a signal that comes from the source. For each path of a channel a flag says whether a connect names it.
pub fn graph_from(
    alloc: Global,
    network: &Network,
    named: &[bool],
    source: Source,
) -> Result<Graph, AllocError>
    ensures { IfOk result (λ graph. (n : ℕ) (step : Step) → Leads (rows_of graph) n step
        ↔ AllSteps network.now named.now source n step) }
{
    let mut graph = Graph::new(alloc);
    add_paths(alloc, &mut graph, &network.paths, named, source)?;
    add_connects(alloc, &mut graph, &network.paths, &network.connects)?;
    add_processes(alloc, &mut graph, network, &network.processes, source)?;
    add_blocks(alloc, &mut graph, network, source)?;
    add_scope(alloc, &mut graph, network, source)?;
    Ok(graph)
}

fn add_paths(
    alloc: Global,
    graph: &mut Graph,
    paths: &[ChannelPath],
    named: &[bool],
    source: Source,
) -> Result<(), AllocError>
    ensures { OnOk result (Adds (λ from step. ForSome paths.now
        (λ n path. PathSteps source (get_or named.now n false) n path from step))
        (rows_of graph.old) (rows_of graph.new)) }
{
    for (number, path) in paths.iter().enumerate() {
        let id = PathId(counted(number)?);
        add_path(alloc, graph, source, flag_at(named, number), id, *path)?;
    }
    Ok(())
}

fn add_path(
    alloc: Global,
    graph: &mut Graph,
    source: Source,
    named: bool,
    id: PathId,
    path: ChannelPath,
) -> Result<(), AllocError>
    ensures { OnOk result (Adds (PathSteps source named id.0 path) (rows_of graph.old) (rows_of graph.new)) }
{
    let node = Some(Node::Path(id));
    let only = Some(path.signals);
    link(
        alloc,
        graph,
        start_of(source, path.scope, path.from),
        node,
        only,
    )?;
    link(
        alloc,
        graph,
        begin_of(path.scope, path.from, named),
        node,
        only,
    )?;
    link(alloc, graph, node, end_of(path.scope, path.to, named), None)?;
    Ok(())
}

fn add_connects(
    alloc: Global,
    graph: &mut Graph,
    paths: &[ChannelPath],
    connects: &[Connect],
) -> Result<(), AllocError>
    ensures { OnOk result (Adds (λ from step. ForSome connects.now
        (λ k connect. ConnectSteps paths.now k connect from step)) (rows_of graph.old) (rows_of graph.new)) }
{
    for (number, connect) in connects.iter().enumerate() {
        add_connect(alloc, graph, paths, counted(number)?, connect)?;
    }
    Ok(())
}

fn add_connect(
    alloc: Global,
    graph: &mut Graph,
    paths: &[ChannelPath],
    number: u32,
    connect: &Connect,
) -> Result<(), AllocError>
    ensures { OnOk result (Adds (ConnectSteps paths.now number connect.now) (rows_of graph.old) (rows_of graph.new)) }
{
    let joint = Joint {
        connect: number,
        block: connect.block,
    };
    add_side(alloc, graph, paths, joint, Side::Outer, &connect.outer)?;
    add_side(alloc, graph, paths, joint, Side::Inner, &connect.inner)?;
    Ok(())
}

fn add_side(
    alloc: Global,
    graph: &mut Graph,
    paths: &[ChannelPath],
    joint: Joint,
    side: Side,
    ids: &[PathId],
) -> Result<(), AllocError>
    ensures { OnOk result (Adds (SideSteps paths.now side joint.connect joint.block ids.now)
        (rows_of graph.old) (rows_of graph.new)) }
{
    for id in ids {
        add_at(alloc, graph, paths, joint, side, *id)?;
    }
    Ok(())
}

fn add_at(
    alloc: Global,
    graph: &mut Graph,
    paths: &[ChannelPath],
    joint: Joint,
    side: Side,
    id: PathId,
) -> Result<(), AllocError>
    ensures { OnOk result (Adds (AtPath paths.now side joint.connect joint.block id)
        (rows_of graph.old) (rows_of graph.new)) }
{
    let number = id.0 as usize;
    if number < paths.len() {
        add_joint(alloc, graph, joint, side, id, paths[number])?;
    }
    Ok(())
}

fn add_joint(
    alloc: Global,
    graph: &mut Graph,
    joint: Joint,
    side: Side,
    id: PathId,
    path: ChannelPath,
) -> Result<(), AllocError>
    ensures { OnOk result (Adds (JointSteps side joint.connect joint.block id path)
        (rows_of graph.old) (rows_of graph.new)) }
{
    let node = Some(Node::Path(id));
    let comes = node_if(
        side.touches(joint.block, path.scope, path.to),
        side.arrives(joint.connect),
    );
    link(alloc, graph, node, comes, None)?;
    let goes = node_if(
        side.touches(joint.block, path.scope, path.from),
        side.departs(joint.connect),
    );
    link(alloc, graph, goes, node, Some(path.signals))?;
    Ok(())
}

fn add_processes(
    alloc: Global,
    graph: &mut Graph,
    network: &Network,
    processes: &[Process],
    source: Source,
) -> Result<(), AllocError>
    ensures { OnOk result (Adds (λ from step. ForSome processes.now
        (λ q process. ProcessSteps network.now source q process from step)) (rows_of graph.old) (rows_of graph.new)) }
{
    for (number, process) in processes.iter().enumerate() {
        let id = ProcessId(counted(number)?);
        add_process(alloc, graph, network, source, id, *process)?;
    }
    Ok(())
}

fn add_process(
    alloc: Global,
    graph: &mut Graph,
    network: &Network,
    source: Source,
    id: ProcessId,
    process: Process,
) -> Result<(), AllocError>
    ensures { OnOk result (Adds (ProcessSteps network.now source id.0 process)
        (rows_of graph.old) (rows_of graph.new)) }
{
    let node = Some(Node::Process(id));
    let only = Some(process.named);
    let implied = is_implied(network, process.scope);
    let is_source = same_end(End::Process(id), source.end);
    let comes = node_if(implied, on_implied(process.scope));
    link(alloc, graph, comes, node, only)?;
    let first = option_if(but_not(implied, is_source), on_first(process.scope, source));
    link(alloc, graph, first, node, only)?;
    Ok(())
}

fn add_blocks(
    alloc: Global,
    graph: &mut Graph,
    network: &Network,
    source: Source,
) -> Result<(), AllocError>
    ensures { OnOk result (Adds (λ from step. ForSome network.now.blocks.items
        (λ b block. BlockSteps network.now.is_implied source b from step)) (rows_of graph.old) (rows_of graph.new)) }
{
    for number in 0..network.blocks.len() {
        let id = BlockId(counted(number)?);
        add_block(alloc, graph, network.is_implied, source, id)?;
    }
    Ok(())
}

fn add_block(
    alloc: Global,
    graph: &mut Graph,
    implied: bool,
    source: Source,
    id: BlockId,
) -> Result<(), AllocError>
    ensures { OnOk result (Adds (BlockSteps implied source id.0) (rows_of graph.old) (rows_of graph.new)) }
{
    let into = Some(Node::Into(id));
    let is_own = same_scope(Scope::Block(id), source.scope);
    let out = node_if(implied, Node::OutOf(id));
    link(alloc, graph, out, Some(from_block(id, source)), None)?;
    let others = node_if(implied, Node::Others);
    link(alloc, graph, others, into, None)?;
    let first = node_if(but_not(implied, is_own), Node::First);
    link(alloc, graph, first, into, None)?;
    Ok(())
}

fn add_scope(
    alloc: Global,
    graph: &mut Graph,
    network: &Network,
    source: Source,
) -> Result<(), AllocError>
    ensures { OnOk result (Adds (ScopeSteps network.now source) (rows_of graph.old) (rows_of graph.new)) }
{
    let is_outside = same_end(source.end, End::Env);
    let start = node_if(is_implied(network, source.scope), Node::Source);
    link(alloc, graph, start, Some(first_of(source.scope)), None)?;
    let others = node_if(network.is_implied, Node::Others);
    link(alloc, graph, others, Some(Node::Env), None)?;
    let first = node_if(but_not(network.is_implied, is_outside), Node::First);
    link(alloc, graph, first, Some(Node::Env), None)?;
    Ok(())
}

/// Adds a step between two nodes, if both are there.
fn link(
    alloc: Global,
    graph: &mut Graph,
    from: Option<Node>,
    to: Option<Node>,
    only: Option<ListId>,
) -> Result<(), AllocError>
    ensures { OnOk result (Adds (Link from to only) (rows_of graph.old) (rows_of graph.new)) }
{
    match from {
        None => Ok(()),
        Some(before) => match to {
            None => Ok(()),
            Some(after) => {
                let end = after.number();
                let begin = before.number();
                graph.add(alloc, begin, Step { to: end, only })
            }
        },
    }
}

fn but_not(is: bool, other: bool) -> bool
    ensures { result ≡ (is && not other) }
{
    is && !other
}

fn option_if(is: bool, node: Option<Node>) -> Option<Node>
    ensures { result ≡ option_if is node }
{
    if is { node } else { None }
}

fn flag_at(flags: &[bool], number: usize) -> bool
    ensures { result ≡ get_or flags.now number false }
{
    match flags.get(number) {
        Some(flag) => *flag,
        None => false,
    }
}
