//! How actors begin.

ghost use Rattle.std.specs.Prelude.{◌≡◌, ◌<◌, ◌≤◌, [], length, IfOk, All};
ghost use Rattle.itm_types.specs.declared.limits.TheConstants.{MAX_ACTORS, MAX_ARENA, MAX_COMMITS, MAX_PATIENCE, MAX_RETRIES};
ghost use Rattle.world_rules.specs.Rows.{rows_in};
ghost use Rattle.world_rules.specs.Starts.{IsNewActor};
ghost use Rattle.norec_world.specs.WorldBegins.{AreNewCells, HaveAllStarted};

use crate::actor::{Actor, ending, fresh};
use crate::memory::Memory;
use crate::work::work;
use itm_types::{Limits, MAX_ACTORS};
use norec_engine::Engine;
use std::alloc::{AllocError, Global};
use tx_attempts::Attempt;
use tx_player::Player;
use tx_runs::End;
use undo_log::Arena;

/// What every actor begins with.
#[derive(Clone, Copy)]
pub(crate) struct Terms {
    pub(crate) arena: u32,
    pub(crate) limits: Limits,
    ghost small: { arena ≤ MAX_ARENA },
    ghost patient: { 0 < limits.patience },
    ghost hasty: { limits.patience ≤ MAX_PATIENCE },
    ghost some: { 0 < limits.max_commits },
    ghost commits: { limits.max_commits ≤ MAX_COMMITS },
    ghost few: { limits.retries ≤ MAX_RETRIES },
    ghost deep: { 0 < limits.depth },
}

/// An actor for each player, which has done its local work up to its first operation.
pub(crate) fn start_all<P: Player>(
    alloc: Global,
    terms: Terms,
    memory: &Memory,
    ended: &mut Vec<Attempt>,
    players: Vec<P>,
) -> Result<Vec<Actor<P>>, AllocError>
    requires few { length players.items ≤ MAX_ACTORS }
    requires outside { All (λ p. P.depth p ≡ 0) players.items }
    requires fresh { AreNewCells memory.now }
    requires empty { ended.old.items ≡ [] }
    ensures { IfOk result (λ actors. HaveAllStarted P.Player memory.now terms.arena terms.limits players.items (rows_in ended.new) actors.items) }
{
    let mut actors = Vec::new(alloc);
    for player in players {
        let thread = actors.len() as u8;
        let actor = start(alloc, terms, memory, ended, thread, player)?;
        actors.push(actor)?;
    }
    Ok(actors)
}

/// The player's actor.
fn start<P: Player>(
    alloc: Global,
    terms: Terms,
    memory: &Memory,
    ended: &mut Vec<Attempt>,
    thread: u8,
    player: P,
) -> Result<Actor<P>, AllocError>
    requires outside { P.depth player ≡ 0 }
    requires fresh { AreNewCells memory.now }
    ensures { IfOk result (IsNewActor P.Player memory.now terms.arena terms.limits thread player (rows_in ended.old) (rows_in ended.new)) }
{
    let arena = Arena::new(alloc, terms.arena as usize)?;
    let engine = Engine::new(alloc, memory.words(), arena, terms.limits)?;
    let mut actor = fresh(alloc, thread, terms.limits.retries, player, engine);
    work(&mut actor, alloc, memory, ended);
    match ending(&actor) {
        Some(End::NoMemory) => Err(AllocError),
        _ => Ok(actor),
    }
}
