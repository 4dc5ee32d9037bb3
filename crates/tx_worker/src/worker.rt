//! One thread's player with its transactions.

ghost use Rattle.std.specs.Prelude.{◌≡◌, ◌/◌, ◌<◌, Bool, false, Some, unwrap_or, IsOk, OnOk, OnErr, vec_len, vec_capacity};
ghost use Rattle.norec_core.specs.Core.{irrevocable_room};
ghost use Rattle.shared_words.specs.Passes.{Owns, commits_known, view_of};
ghost use Rattle.shared_words.specs.InGlobal.{Words as WordsValue};
ghost use Rattle.call_rules.specs.CallResults.{Returns};
ghost use Rattle.tx_runs.specs.Currents.{BeginsAttempt, Outside};
ghost use Rattle.tx_runs.specs.PlayerRuns.{MayStop, MayTell};
ghost use Rattle.tx_runs.specs.Tallies.{begun, stand_of};
ghost use Rattle.worker_rules.specs.Accounts.{account_of, told};
ghost use Rattle.worker_rules.specs.Workers.{Bounds, IsPrepared, IsToldBy, IsUnprepared, LacksFor, again_for, told_by};
ghost use Rattle.worker_rules.specs.Works.{Parts};

use crate::gate::Gate;
use crate::places::prepare;
use crate::sink::ActionSink;
use crate::worked::Worked;
use itm_runtime::Thread;
use itm_types::{Call, Props};
use norec_core::{Answer, Undone};
use shared_words::{Pass, Words};
use std::alloc::AllocError;
use std::marker::Model;
use tx_attempts::{Attempt, Attempts, Outcome};
use tx_player::Player;
use tx_runs::{End, PlayerRun, ahead_of, told_of};

/// A player with its thread.
#[derive(Drop)]
pub(crate) struct Worker<P> {
    pub(crate) run: PlayerRun<P>,
    pub(crate) thread: Thread,
    /// The attempts that have ended, in order. While one is open, there is room for it.
    pub(crate) ended: Vec<Attempt>,
    /// How many calls it has made.
    pub(crate) calls: u64,
}

impl<P> Model for Worker<P> {
    ghost use Rattle.worker_rules.specs.Worker.{Worker as WorkerValue};

    ghost Value = { WorkerValue P };

    ghost view = { λ w. record { run = w.run; thread = w.thread; ended = w.ended; calls = w.calls } };
}

impl<P: Player> Worker<P> {
    ghost use Rattle.worker_rules.specs.Progress.{Course};
    ghost use Rattle.worker_rules.specs.Workers.{IsWorking, IsStopped, GoesOnOrStops, GoesOnOrStopsAt, IsAsked, IsHungry};

    /// The player's next call, where the gate lets it through. Answers how the thread ended, if it did.
    pub(crate) fn call_next<G: Gate, A: ActionSink>(
        &mut self,
        words: &Words,
        gate: &G,
        sink: &A,
    ) -> Option<End>
        requires { (c : Course P) × (b : Bounds) × IsWorking P.Player words.now c b self.old }
        ensures { GoesOnOrStopsAt P.Player words.now G.answers self.old result self.new }
    {
        let Some(mut call) = self.run.player.next() else {
            return Some(End::Finished);
        };
        let number = self.calls;
        let asked = !self.thread.is_irrevocable();
        if asked {
            if let Err(_) = gate.at(self.run.thread, number) {
                return Some(End::GaveUp);
            }
        }
        let end = self.make(words, sink, &mut call);
        if asked {
            gate.done(self.run.thread, number);
        }
        self.calls = number.saturating_add(1);
        end
    }

    /// Makes the call, once there is room for what comes of it.
    fn make<A: ActionSink>(&mut self, words: &Words, sink: &A, call: &mut Call) -> Option<End>
        requires works { (c : Course P) × (b : Bounds) × IsWorking P.Player words.now c b self.old }
        requires asks { P.next_call self.old.run.player ≡ Some call.old }
        ensures { (shuts : Bool) → GoesOnOrStops P.Player words.now shuts self.old result self.new }
    {
        let Ok(()) = self.prepare(call) else {
            return Some(self.starve(sink));
        };
        match self.ask(words, call) {
            Ok(mut answer) => self.take_in(sink, call, &mut answer),
            Err(_) => Some(self.starve(sink)),
        }
    }

    /// Room for what comes of the call: an outermost begin is to open an attempt.
    fn prepare(&mut self, call: &Call) -> Result<(), AllocError>
        requires works { (words : WordsValue) × (c : Course P) × (b : Bounds) × IsWorking P.Player words c b self.old }
        ensures same { self.new ≡ record self.old { run = record self.old.run { current = self.new.run.current }; ended = self.new.ended } }
        ensures ready { OnOk result ((words : WordsValue) → IsPrepared words P.Player self.old call.now self.new) }
        ensures unready { OnErr result (IsUnprepared self.old call.now self.new) }
        ensures short { OnErr result (LacksFor self.old.thread.engine call.now self.old.run.current) }
    {
        if let Some(open) = self.run.current.within_mut() {
            return prepare(open, &self.thread, call);
        }
        if self.run.current.is_begun() {
            return Ok(());
        }
        match call {
            Call::Begin { props, .. } => self.prepare_begin(call, *props),
            _ => Ok(()),
        }
    }

    /// An outermost begin is to open an attempt, which begins with the commits that the thread knows of.
    fn prepare_begin(&mut self, call: &Call, props: Props) -> Result<(), AllocError>
        requires { self.old.run.current ≡ Outside }
        ensures same { self.new ≡ record self.old { run = record self.old.run { current = self.new.run.current }; ended = self.new.ended } }
        ensures ended { self.new.ended.items ≡ self.old.ended.items }
        ensures begins { OnOk result (BeginsAttempt (begun self.old.run.thread self.old.run.nth (commits_known (view_of self.old.thread.pass)) props self.old.thread.engine.arena
            (unwrap_or (irrevocable_room self.old.thread.engine call.now) 0)) (unwrap_or (irrevocable_room self.old.thread.engine call.now) 0) self.new.run.current) }
        ensures place { OnOk result (vec_len self.new.ended < vec_capacity self.new.ended) }
        ensures still { OnErr result (self.new.run.current ≡ self.old.run.current) }
    {
        self.ended.reserve(1)?;
        let ahead = ahead_of(self.thread.irrevocable_room(call));
        let began = self.thread.known();
        let arena = self.thread.arena().bytes();
        self.run.begin(began, props, arena, ahead)
    }

    /// The call goes to the thread.
    fn ask(&mut self, words: &Words, call: &Call) -> Result<Answer, AllocError>
        requires own { Owns words.now self.old.thread.pass }
        ensures same { self.new ≡ record self.old { thread = self.new.thread } }
        ensures served { Returns (λ a. a) words.now self.old.thread call.now (again_for self.old.run.current self.old.run.again call.now) result self.new.thread }
    {
        if self.run.current.is_begun() {
            if let Call::Begin { props, room } = call {
                return self.thread.begin(words, *props, *room, self.run.again);
            }
        }
        self.thread.call(words, call)
    }

    /// What comes of the call's answer. The sink is handed each action that has run in the open attempt since.
    fn take_in<A: ActionSink>(
        &mut self,
        sink: &A,
        call: &mut Call,
        answer: &mut Answer,
    ) -> Option<End>
        requires asked { (words : WordsValue) × (c : Course P) × (b : Bounds) × (old : Worker P) × IsAsked P.Player words c b old call.old answer.old self.old }
        ensures { (words : WordsValue) (c : Course P) (b : Bounds) (old : Worker P) (shuts : Bool) → IsAsked P.Player words c b old call.old answer.old self.old
            → GoesOnOrStops P.Player words shuts old result self.new }
    {
        let told = self.ran();
        let is_open = self.thread.is_open();
        let at = self.thread.snapshot() / 2;
        let end = self.run.take_in(
            &mut self.ended,
            call,
            answer,
            is_open,
            at,
            self.thread.due(),
            self.thread.arena().bytes(),
        );
        self.tell(sink, told);
        end
    }

    /// How many of the actions that have come to run are told in the open attempt.
    fn ran(&self) -> Option<usize>
        requires { IsToldBy self.now.thread.engine.actions.ran self.now.run.current }
        ensures { result ≡ told_by self.now.run.current }
    {
        let open = self.run.current.within()?;
        Some(told_of(open.row(), self.thread.due()))
    }

    /// The sink is handed the actions that have run, but for those that it knows of.
    fn tell<A: ActionSink>(&self, sink: &A, told: Option<usize>) {
        let Some(told) = told else {
            return;
        };
        for action in self.thread.due().iter().skip(told) {
            sink.run(self.run.thread, action);
        }
    }

    /// Memory was refused before the call came to its transaction, which is rolled back. One that is irrevocable stays open,
    /// with the clock held.
    fn starve<A: ActionSink>(&mut self, sink: &A) -> End
        requires { (words : WordsValue) × (c : Course P) × (b : Bounds) × (old : Worker P) × (call : Call) × IsHungry P.Player words c b old call self.old }
        ensures end { result ≡ End.NoMemory }
        ensures stopped { (words : WordsValue) (c : Course P) (b : Bounds) (old : Worker P) (call : Call) (shuts : Bool)
            → IsHungry P.Player words c b old call self.old → IsStopped P.Player words c b shuts End.NoMemory old self.new }
    {
        let told = self.ran();
        match self.thread.abort() {
            Undone::Held => {}
            _ => {
                let at = self.thread.snapshot() / 2;
                self.run
                    .stop(&mut self.ended, Outcome::NoMemory, at, self.thread.due());
                self.tell(sink, told);
            }
        }
        End::NoMemory
    }

    /// What the thread leaves: an attempt that is still open is told as it stands, and is rolled back.
    pub(crate) fn finish(mut self, end: End) -> Worked
        requires may_stop { MayStop (self.thread.engine.snapshot / 2) self.thread.engine.actions.ran self.run.current }
        requires may_tell { MayTell self.run.current self.ended }
        ensures number { result.thread ≡ self.run.thread }
        ensures end { result.end ≡ end }
        ensures attempts { result.attempts ≡ told (account_of self) (stand_of self.thread.engine) }
        ensures pass { Parts self.thread result.pass }
    {
        let at = self.thread.snapshot() / 2;
        self.run.stop(&mut self.ended, Outcome::Unfinished, at, self.thread.due());
        let Worker {
            run,
            thread,
            ended,
            calls: _,
        } = self;
        Worked {
            thread: run.thread,
            attempts: Attempts::new(ended),
            end,
            pass: pass_of(thread),
        }
    }
}

/// The pass of a thread that is no longer wanted, or the thread where its transaction stays irrevocable.
fn pass_of(thread: Thread) -> Result<Pass, Thread>
    ensures ok { thread.engine.irrevocable ≡ false → IsOk result }
    ensures parts { Parts thread result }
{
    let (pass, _arena) = thread.into_parts()?;
    Ok(pass)
}
