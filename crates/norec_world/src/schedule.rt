//! Many events in a row.

ghost use Rattle.std.specs.Prelude.{◌≡◌, ◌+◌, List, Result, length};

use crate::world::World;
use std::alloc::Global;
use tx_player::Player;
use world_rules::{Passes, WorldFault};

impl<P: Player> World<P> {
    ghost use Rattle.world_rules.specs.declared.fault.WorldFault.{WorldFault};
    ghost use Rattle.world_rules.specs.World.{observed, counted, SameOpening};
    ghost use Rattle.world_rules.specs.Commits.{CommitsInOrder};
    ghost use Rattle.world_rules.specs.Headline.{AreOpaque};
    ghost use Rattle.world_rules.specs.Tied.{AreTied};
    ghost use Rattle.world_rules.specs.WorldEvents.{Leads, passes_of};

    /// An event for each entry in turn, passing over those that name no actor or one that has ended.
    pub fn run(&mut self, alloc: Global, schedule: &[u8]) -> Passes
        ensures led { (results : List (Result (Unit {0}) WorldFault))
            × Leads P.Player self.old schedule.now results self.new × (result ≡ passes_of results) }
        ensures all { result.taken + result.passed + result.starved ≡ length schedule.now }
        ensures commits { CommitsInOrder self.new }
        ensures opaque { AreOpaque P.Player (observed self.new) }
        ensures tied { AreTied P.Player self.new }
        ensures counts { self.new.events ≡ counted self.old.events (result.taken + result.starved) }
        ensures opening { SameOpening self.old self.new }
        ensures actors { length self.new.actors ≡ length self.old.actors }
    {
        // (what holds of every world: the clauses after a run of no events)
        let _events = self.events();
        let mut passes = Passes {
            taken: 0,
            passed: 0,
            starved: 0,
        };
        for actor in schedule {
            match self.go(alloc, *actor) {
                Ok(()) => passes.taken += 1,
                Err(WorldFault::NoMemory) => passes.starved += 1,
                Err(WorldFault::NoSuchActor) => passes.passed += 1,
                Err(WorldFault::Ended) => passes.passed += 1,
            }
        }
        passes
    }
}
