//! Actors over one memory.

ghost use Rattle.std.specs.Prelude.{◌≡◌, ◌<◌, ◌≤◌, true, false, length, IfOk, None, Some, IsSome, MatchOption};
ghost use Rattle.world_rules.specs.World.{event_result};

use crate::actor::{Actor, attempt, ending, next_step, replies, step, waits};
use crate::listed::Attempts;
use crate::memory::Memory;
use crate::start::{Terms, start_all};
use crate::work::work;
use itm_types::{
    MAX_ACTORS, MAX_ARENA, MAX_COMMITS, MAX_MEMORY, MAX_PATIENCE, MAX_RETRIES, Reply, Step,
};
use norec_core::Answer;
use std::alloc::{AllocError, Global};
use std::marker::Model;
use tx_attempts::{Attempt, Bytes};
use tx_player::Player;
use tx_runs::End;
use world_rules::{Operation, Setup, Told, WorldFault};

/// Actors over one memory, each with a player and an engine. They take events one at a time: an actor's next load,
/// store or compare-exchange on a shared cell, and then all that it can do without another one.
#[derive(Drop)]
pub struct World<P: Player> {
    opening: Vec<P>,
    base: Bytes,
    terms: Terms,
    memory: Memory,
    actors: Vec<Actor<P>>,
    /// The attempts that have ended, in the order in which they did. There is room for those that are under way.
    ended: Vec<Attempt>,
    events: u64,
    /// Where an engine puts its answer to a step: one place for all, so that none is cleared for each event.
    answer: Answer,
}

impl<P: Player> Model for World<P> {
    ghost use Rattle.world_rules.specs.World.{World};

    ghost Value = { World P };

    ghost use Rattle.norec_world.specs.Views.{world_of};
    ghost use Rattle.event_rules.specs.Invariant.{IsWorld};

    ghost view = { world_of };

    ghost invariant = { λ w. IsWorld P.Player (world_of w) };
}

impl<P: Player> World<P> {
    ghost use Rattle.world_rules.specs.World.{observed, ending_at, waits_at, operation_at, attempt_at, memory_of, attempts_of};
    ghost use Rattle.std.specs.Prelude.{slice_get, take, drop};
    ghost use Rattle.std.specs.Option.{option_map};
    ghost use Rattle.world_rules.specs.Status.{is_waiting};
    ghost use Rattle.world_rules.specs.Actors.{AreActors};
    ghost use Rattle.world_rules.specs.Rows.{AreOpen};
    ghost use Rattle.world_rules.specs.Stages.{opens};
    ghost use Rattle.norec_world.specs.Listed.{left_of};
    ghost use Rattle.norec_world.specs.WorldBegins.{BeginsAs, MayPlay, MaySetUp};
    ghost use Rattle.norec_world.specs.Taken.{EndsLast, TakesSome};
    ghost use Rattle.world_rules.specs.Commits.{CommitsInOrder};
    ghost use Rattle.world_rules.specs.Headline.{AreOpaque};
    ghost use Rattle.world_rules.specs.Tied.{AreTied};
    ghost use Rattle.world_rules.specs.WorldEvents.{Goes};
    ghost use Rattle.world_rules.specs.Progress.{LeavesLess, TellsCall, TellsEvent};

    /// A world over this memory, with the clock at 0. Each actor's local work up to its first operation is done.
    pub fn new(alloc: Global, setup: Setup, players: Vec<P>) -> Result<Self, AllocError>
        requires setup { MaySetUp setup }
        requires players { MayPlay P.Player players.items }
        ensures begins { IfOk result (BeginsAs P.Player setup players.items) }
        ensures commits { IfOk result (λ w. CommitsInOrder w) }
        ensures opaque { IfOk result (λ w. AreOpaque P.Player (observed w)) }
        ensures tied { IfOk result (AreTied P.Player) }
    {
        let opening = copies(alloc, &players)?;
        let base = Bytes::new(setup.bytes.as_slice().to_vec(alloc)?);
        let terms = Terms {
            arena: setup.arena,
            limits: setup.limits,
        };
        let memory = Memory::new(setup.bytes.into_vec());
        let mut ended = Vec::new(alloc);
        let actors = start_all(alloc, terms, &memory, &mut ended, players)?;
        Ok(World {
            opening,
            base,
            terms,
            memory,
            actors,
            ended,
            events: 0,
            answer: Answer::Reply(Reply::Done),
        })
    }

    /// One event of the actor: the operation that comes next from it, and its local work up to the next one.
    pub fn go(&mut self, alloc: Global, actor: u8) -> Result<(), WorldFault>
        ensures goes { Goes P.Player actor self.old result self.new }
        ensures commits { CommitsInOrder self.new }
        ensures opaque { AreOpaque P.Player (observed self.new) }
        ensures tied { AreTied P.Player self.new }
    {
        match self.waits(actor) {
            None => Err(WorldFault::NoSuchActor),
            Some(true) => {
                let _goes_on = self.event(alloc, actor);
                event_result(self.ending(actor))
            }
            Some(false) => Err(WorldFault::Ended),
        }
    }

    /// Whether the actor waits for an operation, where there is such an actor.
    fn waits(&self, actor: u8) -> Option<bool>
        ensures value { result ≡ option_map (λ a. is_waiting a.status) (slice_get self.now.actors actor) }
        ensures sound { AreActors P.Player self.now.cells self.now.attempts self.now.actors }
        ensures commits { CommitsInOrder self.now }
        ensures opaque { AreOpaque P.Player (observed self.now) }
        ensures tied { AreTied P.Player self.now }
    {
        Some(waits(self.actors.get(actor as usize)?))
    }

    /// Whether there is such an actor, and it waits for an operation. Each actor waits for one or has ended.
    pub fn is_waiting(&self, actor: u8) -> bool
        ensures waits { result ≡ true → IsSome (waits_at self.now actor) }
        ensures ended { result ≡ false → actor < length self.now.actors → IsSome (ending_at self.now actor) }
        ensures commits { CommitsInOrder self.now }
        ensures opaque { AreOpaque P.Player (observed self.now) }
        ensures tied { AreTied P.Player self.now }
    {
        match self.waits(actor) {
            None => false,
            Some(waits) => waits,
        }
    }

    /// The operation that comes next from the actor, and what it finds; none where the actor has ended, and where there is no
    /// such one.
    pub fn next_operation(&self, actor: u8) -> Option<Operation>
        ensures { result ≡ operation_at self.now actor }
    {
        let step = next_step(self.actors.get(actor as usize)?)?;
        let found = self.memory.found(step);
        Some(Operation { step, found })
    }

    /// The open attempt of the actor.
    pub fn open_attempt(&self, actor: u8) -> Option<&Attempt>
        ensures { MatchOption result (attempt_at self.now actor ≡ None) (λ row. attempt_at self.now actor ≡ Some row.now) }
    {
        attempt(self.actors.get(actor as usize)?)
    }

    /// One event of an actor that waits, as `go`. True just where its call in progress goes on, with fewer steps left; false
    /// where that call is over, whether or not the next one waits by then, and less is left of the whole run. So a loop of
    /// such events ends.
    #[inline(always)]
    pub fn event(&mut self, alloc: Global, actor: u8) -> bool
        requires { IsSome (waits_at self.old actor) }
        ensures goes { Goes P.Player actor self.old (event_result (ending_at self.new actor)) self.new }
        ensures tells { TellsCall P.Player actor result self.old self.new }
        ensures less { LeavesLess P.Player actor result self.old self.new }
    {
        let a = &mut self.actors[actor as usize];
        step(a, &mut self.memory, &mut self.ended, &mut self.answer);
        let goes_on = waits(a);
        work(a, alloc, &self.memory, &mut self.ended);
        self.events = self.events.saturating_add(1);
        goes_on
    }

    /// One event, as `event`, of which more is told.
    pub fn event_told(&mut self, alloc: Global, actor: u8) -> Told
        requires { IsSome (waits_at self.old actor) }
        ensures goes { Goes P.Player actor self.old (event_result (ending_at self.new actor)) self.new }
        ensures tells { TellsEvent P.Player actor result.goes_on result.calls self.old self.new }
        ensures less { LeavesLess P.Player actor result.goes_on self.old self.new }
    {
        let acting = &mut self.actors[actor as usize];
        step(acting, &mut self.memory, &mut self.ended, &mut self.answer);
        let goes_on = waits(acting);
        let calls = replies(acting);
        work(acting, alloc, &self.memory, &mut self.ended);
        self.events = self.events.saturating_add(1);
        Told { goes_on, calls }
    }

    /// Takes events until the actor has ended, and tells how many, up to 2^64 - 1; 0 for no such actor.
    pub fn run_out(&mut self, alloc: Global, actor: u8) -> u64
        ensures no_such { length self.old.actors ≤ actor → (result ≡ 0) × (self.new ≡ self.old) }
        ensures ended { actor < length self.old.actors → IsSome (ending_at self.new actor) }
        ensures commits { CommitsInOrder self.new }
        ensures opaque { AreOpaque P.Player (observed self.new) }
        ensures tied { AreTied P.Player self.new }
        ensures took { TakesSome P.Player actor result self.old self.new }
    {
        // (what holds of every world: the clauses after a run of no events)
        let _events = self.events();
        let mut taken = 0u64;
        while self.is_waiting(actor) {
            taken = taken.saturating_add(self.finish_call(alloc, actor));
        }
        taken
    }

    /// Takes the events of the call in progress, and tells how many, up to 2^64 - 1. The last one alone may end an attempt.
    #[inline(always)]
    pub fn finish_call(&mut self, alloc: Global, actor: u8) -> u64
        requires { IsSome (waits_at self.old actor) }
        ensures took { TakesSome P.Player actor result self.old self.new }
        ensures ends { EndsLast P.Player actor self.old self.new }
        ensures less { LeavesLess P.Player actor false self.old self.new }
    {
        // (what holds of every world: the clauses after a run of no events)
        let _events = self.events();
        let mut taken = 0u64;
        let mut goes_on = true;
        while goes_on {
            goes_on = self.event(alloc, actor);
            taken = taken.saturating_add(1);
        }
        taken
    }

    /// The players as they were handed in.
    pub fn opening(&self) -> &[P]
        ensures { result.now ≡ self.now.opening }
    {
        &self.opening
    }

    /// The memory as it was handed in.
    pub fn base(&self) -> &[u8]
        ensures { result.now ≡ self.now.base }
    {
        self.base.as_slice()
    }

    /// The attempts that have ended, in the order in which they did, and then the open ones by actor. Each position
    /// below half the clock is that of one that committed.
    pub fn attempts(&self) -> Attempts<'_, P>
        ensures value { left_of result ≡ attempts_of self.now }
        ensures unfinished { AreOpen (opens self.now.actors) }
        ensures commits { CommitsInOrder self.now }
        ensures opaque { AreOpaque P.Player (observed self.now) }
        ensures tied { AreTied P.Player self.now }
    {
        Attempts {
            ended: &self.ended,
            actors: &self.actors,
        }
    }

    /// Those of them that are open.
    pub fn open_attempts(&self) -> Attempts<'_, P>
        ensures { left_of result ≡ opens self.now.actors }
    {
        let (none, _) = self.ended.split_at(0);
        Attempts {
            ended: none,
            actors: &self.actors,
        }
    }

    /// How many of the attempts have ended; `attempts` has those first, and then the open ones.
    pub fn ended(&self) -> usize
        ensures value { result ≡ length self.now.attempts.ended }
        ensures ended { take result (attempts_of self.now) ≡ self.now.attempts.ended }
        ensures active { drop result (attempts_of self.now) ≡ opens self.now.actors }
    {
        self.ended.len()
    }

    /// The attempts that have ended, but for the first ones.
    pub fn ended_from(&self, first: usize) -> &[Attempt]
        requires { first ≤ length self.now.attempts.ended }
        ensures { result.now ≡ drop first self.now.attempts.ended }
    {
        &self.ended[first..]
    }

    /// The shared memory.
    pub fn bytes(&self) -> &[u8]
        ensures { result.now ≡ memory_of self.now }
    {
        self.memory.bytes()
    }

    /// The sequence clock.
    pub fn clock(&self) -> u64
        ensures value { result ≡ self.now.cells.clock }
        ensures commits { CommitsInOrder self.now }
    {
        self.memory.clock()
    }

    /// How many events there were; 2^64 - 1 where there were more.
    pub fn events(&self) -> u64
        ensures value { result ≡ self.now.events }
        ensures commits { CommitsInOrder self.now }
        ensures opaque { AreOpaque P.Player (observed self.now) }
        ensures tied { AreTied P.Player self.now }
    {
        self.events
    }

    /// How the actor ended; `None` before that, and where there is no such actor.
    pub fn ending(&self, actor: u8) -> Option<End>
        ensures { result ≡ ending_at self.now actor }
    {
        ending(self.actors.get(actor as usize)?)
    }
}

/// What an event is answered, by how its actor stands then.
fn event_result(ending: Option<End>) -> Result<(), WorldFault>
    ensures { result ≡ event_result ending }
{
    match ending {
        Some(End::NoMemory) => Err(WorldFault::NoMemory),
        _ => Ok(()),
    }
}

/// Equal players.
fn copies<P: Player>(alloc: Global, players: &[P]) -> Result<Vec<P>, AllocError>
    ensures { IfOk result (λ v. v.items ≡ players.now) }
{
    let mut copies = Vec::new(alloc);
    for player in players {
        copies.push(player.copy()?)?;
    }
    Ok(copies)
}
