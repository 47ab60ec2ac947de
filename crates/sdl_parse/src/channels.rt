//! Channels and their connections.

ghost use Rattle.std.specs.Prelude.{option_map};
ghost use Rattle.sdl_tree.specs.Views.{channel_value, connection_value, end_value, path_value};
ghost use Rattle.sdl_parse.specs.Channels as spec;
ghost use Rattle.parse_expressions.specs.Reads.{Reads};

use parse_expressions::parts::{closing, end, names};
use parse_expressions::signals::sigs;
use parse_expressions::{Cursor, Fault, Wanted};
use sdl_tree::{ChannelConnection, ChannelDefinition, ChannelEnd, ChannelPath, Mark};
use std::alloc::Global;

/// `channel = "channel" NAME ["nodelay"] path [path] "endchannel" [NAME] end`
#[tactic(auto, unfolding(crate::specs::Channels::channel))]
pub fn channel(alloc: Global, cursor: &mut Cursor<'_, '_>) -> Result<ChannelDefinition, Fault>
    ensures { Reads channel_value (spec.channel cursor.old) result cursor.new }
{
    let word = cursor.expect(Mark::Channel)?;
    let name = cursor.name(alloc)?;
    let is_nodelay = nodelay(cursor)?;
    let first = path(alloc, cursor)?;
    let second = second_path(alloc, cursor)?;
    closing(alloc, cursor, Mark::EndChannel, &name)?;
    Ok(ChannelDefinition {
        word,
        name,
        is_nodelay,
        first,
        second,
    })
}

/// `["nodelay"]`
fn nodelay(cursor: &mut Cursor<'_, '_>) -> Result<bool, Fault>
    ensures { Reads (λ b. b) (spec.nodelay cursor.old) result cursor.new }
{
    if !cursor.sees(Mark::NoDelay) {
        return Ok(false);
    }
    cursor.expect(Mark::NoDelay)?;
    Ok(true)
}

/// `[path]`
fn second_path(alloc: Global, cursor: &mut Cursor<'_, '_>) -> Result<Option<ChannelPath>, Fault>
    ensures { Reads (option_map path_value) (spec.second_path cursor.old) result cursor.new }
{
    if !cursor.sees(Mark::From) {
        return Ok(None);
    }
    Ok(Some(path(alloc, cursor)?))
}

/// `path = "from" point "to" point "with" sigs end`
#[tactic(auto, unfolding(crate::specs::Channels::path))]
fn path(alloc: Global, cursor: &mut Cursor<'_, '_>) -> Result<ChannelPath, Fault>
    ensures { Reads path_value (spec.path cursor.old) result cursor.new }
{
    cursor.expect(Mark::From)?;
    let from = point(alloc, cursor)?;
    cursor.expect(Mark::To)?;
    let to = point(alloc, cursor)?;
    cursor.expect(Mark::With)?;
    let signals = sigs(alloc, cursor)?;
    end(cursor)?;
    Ok(ChannelPath { from, to, signals })
}

/// `point = "env" | NAME`
#[tactic(auto, unfolding(crate::specs::Channels::point, parse_expressions::specs::Reading::name, parse_expressions::specs::Reading::sees_name))]
fn point(alloc: Global, cursor: &mut Cursor<'_, '_>) -> Result<ChannelEnd, Fault>
    ensures { Reads end_value (spec.point cursor.old) result cursor.new }
{
    if cursor.sees(Mark::Env) {
        return Ok(ChannelEnd::Env(cursor.expect(Mark::Env)?));
    }
    if cursor.sees_name() {
        return Ok(ChannelEnd::Agent(cursor.name(alloc)?));
    }
    Err(Fault::Expected(Wanted::Point))
}

/// `connect = "connect" NAME {"," NAME} "and" NAME {"," NAME} end`
#[tactic(auto, unfolding(crate::specs::Channels::connect))]
pub fn connect(alloc: Global, cursor: &mut Cursor<'_, '_>) -> Result<ChannelConnection, Fault>
    ensures { Reads connection_value (spec.connect cursor.old) result cursor.new }
{
    let word = cursor.expect(Mark::Connect)?;
    let outer = names(alloc, cursor)?;
    cursor.expect(Mark::And)?;
    let inner = names(alloc, cursor)?;
    end(cursor)?;
    Ok(ChannelConnection { word, outer, inner })
}
