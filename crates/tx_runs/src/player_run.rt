//! A player among the tries of its blocks.

ghost use Rattle.std.specs.Prelude.{◌≡◌, ◌+◌, ◌<◌, ◌≤◌, ◌++◌, false, true, nat_lt, if◌then◌else◌, List, Option, None, Some, OnOk, OnErr, length, vec_len, vec_capacity};
ghost use Rattle.itm_types.specs.declared.limits.TheConstants.{MAX_RETRIES};
ghost use Rattle.norec_core.specs.declared.answer.Answer.TheVariants.{Restarted};
ghost use Rattle.norec_core.specs.Restarts.{IsRestart};
ghost use Rattle.tx_runs.specs.declared.ending.End.TheVariants.{GaveUp};
ghost use Rattle.tx_runs.specs.Currents.{Outside, Begins, Within, BeginsAttempt};
ghost use Rattle.itm_types.specs.declared.call.Ran.{Ran};
ghost use Rattle.tx_runs.specs.OpenAttempts.{Open};
ghost use Rattle.tx_runs.specs.PlayerRuns.{current_with, stage_of, tally_of, HaveJoined, KeepsPlaces, MayGoBack, MayTakeIn, MayStop, MayTell};
ghost use Rattle.itm_types.specs.Calls.{is_begin};
ghost use Rattle.tx_runs.specs.Tallies.{Stand, begun, closed, entered, gone_back, over_as, replied};

use crate::current::Current;
use crate::ending::End;
use crate::outcome::outcome_of;
use itm_types::{Call, MAX_RETRIES, Props, Ran, Reply};
use norec_core::Answer;
use std::alloc::{AllocError, Global};
use tx_attempts::{Attempt, Outcome};
use tx_player::Player;

/// A player among the tries of its blocks.
#[derive(Drop)]
pub struct PlayerRun<P> {
    /// The number of its thread.
    pub thread: u8,
    /// How often a block may be tried again.
    pub retries: u32,
    pub player: P,
    /// Which try of its block is under way or comes next, counted from 1.
    pub nth: u32,
    /// An earlier try of the block got past its begin.
    pub again: bool,
    pub current: Current,
}

impl<P: Player> PlayerRun<P> {
    ghost use Rattle.tx_runs.specs.Tallies.{took_in};

    /// A player that has made no call.
    pub fn new(alloc: Global, thread: u8, retries: u32, player: P) -> Self
        ensures { result ≡ record { thread = thread; retries = retries; player = player; nth = 1; again = false; current = Outside } }
    {
        PlayerRun {
            thread,
            retries,
            player,
            nth: 1,
            again: false,
            current: Current::outside(alloc),
        }
    }

    /// An outermost begin is to open an attempt, with room for so many calls, as many inner blocks and as many actions.
    #[inline(always)]
    pub fn begin(
        &mut self,
        began: u64,
        props: Props,
        arena: &[u8],
        ahead: usize,
    ) -> Result<(), AllocError>
        requires { self.old.current ≡ Outside }
        ensures begins { OnOk result (BeginsAttempt (begun self.old.thread self.old.nth began props arena.now ahead) ahead self.new.current) }
        ensures err { OnErr result (self.new.current ≡ Outside) }
        ensures same { self.new ≡ record self.old { current = self.new.current } }
    {
        self.current
            .begin(self.thread, self.nth, began, props, arena, ahead)
    }

    /// What comes of a call's answer, where the engine stands like this after it: whether a transaction is open, where it
    /// reads, and the actions that have run. Answers how the run ended, if it did; else the player's next call may be made.
    #[inline(always)]
    pub fn take_in(
        &mut self,
        ended: &mut Vec<Attempt>,
        call: &mut Call,
        answer: &mut Answer,
        is_open: bool,
        at: u64,
        ran: &[Ran],
        arena: &[u8],
    ) -> Option<End>
        requires tries { (self.old.nth ≤ self.old.retries + 1) × (self.old.retries ≤ MAX_RETRIES) }
        requires again { (clock word : _) → answer.old ≡ Restarted clock word → (0 < P.Player.depth self.old.player) × MayGoBack (record { is_open = is_open; at = at; ran = ran.now; arena = arena.now }) self.old.current }
        requires room { (IsRestart answer.old → ⊥) → MayTakeIn call.old (record { is_open = is_open; at = at; ran = ran.now; arena = arena.now }) self.old.current }
        requires place { MayTell self.old.current ended.old }
        ensures taken { let taken = took_in P.Player self.old.retries (tally_of self.old) call.old answer.old (record { is_open = is_open; at = at; ran = ran.now; arena = arena.now }) in
            (tally_of self.new ≡ taken.tally) × (ended.new.items ≡ ended.old.items ++ taken.over) × (result ≡ taken.end) }
        ensures same { (self.new.thread ≡ self.old.thread) × (self.new.retries ≡ self.old.retries) }
        ensures joined { HaveJoined ended.old ended.new (length (took_in P.Player self.old.retries (tally_of self.old) call.old answer.old
            (record { is_open = is_open; at = at; ran = ran.now; arena = arena.now })).over) }
        ensures places { KeepsPlaces ran.now self.old.current self.new.current }
    {
        match answer {
            Answer::Reply(reply) => {
                self.player.answer(reply);
                self.replied(ended, call, reply, is_open, at, ran, arena);
                None
            }
            Answer::Committed { at: _, wrote } => {
                let outcome = outcome_of(*wrote);
                self.player.answer(&Reply::Done);
                self.add(call, &mut Reply::Done);
                self.close(ended, outcome, at, ran);
                None
            }
            Answer::Conflict { .. } => {
                if self.current.within().is_some() {
                    self.player.restart();
                }
                self.stop(ended, Outcome::Conflict, at, ran);
                self.retry()
            }
            Answer::Busy { .. } => {
                self.current.leave();
                self.retry()
            }
            Answer::Full { .. } => {
                self.stop(ended, Outcome::Full, at, ran);
                Some(End::GaveUp)
            }
            Answer::Restarted { .. } => {
                self.renew(ran, arena);
                None
            }
        }
    }

    /// The transaction is open as it was, or was cancelled, or its begin is over.
    #[inline(always)]
    fn replied(
        &mut self,
        ended: &mut Vec<Attempt>,
        call: &mut Call,
        reply: &mut Reply,
        is_open: bool,
        at: u64,
        ran: &[Ran],
        arena: &[u8],
    )
        requires room { MayTakeIn call.old (record { is_open = is_open; at = at; ran = ran.now; arena = arena.now }) self.old.current }
        requires place { MayTell self.old.current ended.old }
        ensures taken { let taken = replied (stage_of self.old.current) (tally_of self.old) call.old reply.old (record { is_open = is_open; at = at; ran = ran.now; arena = arena.now }) in
            (tally_of self.new ≡ taken.tally) × (ended.new.items ≡ ended.old.items ++ taken.over) }
        ensures same { (self.new.thread ≡ self.old.thread) × (self.new.retries ≡ self.old.retries) }
        ensures joined { HaveJoined ended.old ended.new (length (replied (stage_of self.old.current) (tally_of self.old) call.old reply.old
            (record { is_open = is_open; at = at; ran = ran.now; arena = arena.now })).over) }
        ensures places { KeepsPlaces ran.now self.old.current self.new.current }
    {
        if let Some(open) = self.current.within_mut() {
            open.add(call, reply);
            if is_open {
                open.run(ran);
            } else {
                self.close(ended, Outcome::Cancelled, at, ran);
            }
        } else if self.current.is_begun() {
            self.begun(is_open, at);
        }
    }

    /// The call has this reply in the open attempt.
    #[inline(always)]
    fn add(&mut self, call: &mut Call, reply: &mut Reply)
        requires room { (o : Open) → self.old.current ≡ Within o → (0 < o.row.calls.room) × (is_begin call.old ≡ true → length o.points < o.deep) }
        ensures { self.new ≡ record self.old { current = current_with call.old reply.old self.old.current } }
    {
        if let Some(open) = self.current.within_mut() {
            open.add(call, reply);
        }
    }

    /// The innermost block runs again from this arena, and the player goes back to just after its begin.
    #[inline(never)]
    fn renew(&mut self, ran: &[Ran], arena: &[u8])
        requires deep { 0 < P.Player.depth self.old.player }
        requires room { (is_open at : _) → MayGoBack (record { is_open = is_open; at = at; ran = ran.now; arena = arena.now }) self.old.current }
        ensures taken { (is_open at : _) → tally_of self.new ≡ gone_back P.Player (tally_of self.old) (stage_of self.old.current) (record { is_open = is_open; at = at; ran = ran.now; arena = arena.now }) }
        ensures same { (self.new.thread ≡ self.old.thread) × (self.new.retries ≡ self.old.retries) }
        ensures places { KeepsPlaces ran.now self.old.current self.new.current }
    {
        if let Some(open) = self.current.within_mut() {
            open.renew(arena, ran);
            self.player.restart_block();
        }
    }

    /// The begin is over: the attempt is open, or the begin was refused.
    #[inline(always)]
    fn begun(&mut self, is_open: bool, at: u64)
        requires { (o : Open) × (self.old.current ≡ Begins o) }
        ensures taken { (o : Open) (s : Stand) → self.old.current ≡ Begins o → s.is_open ≡ is_open → s.at ≡ at
            → tally_of self.new ≡ entered is_open (tally_of self.old) o.row s }
        ensures same { (self.new.thread ≡ self.old.thread) × (self.new.retries ≡ self.old.retries) }
        ensures places { (ran : List Ran) → KeepsPlaces ran self.old.current self.new.current }
    {
        if !is_open {
            self.current.leave();
            return;
        }
        self.current.enter(at);
        self.again = true;
    }

    /// The block has ended, and the next one is tried for the first time.
    #[inline(always)]
    fn close(&mut self, ended: &mut Vec<Attempt>, outcome: Outcome, at: u64, ran: &[Ran])
        requires room { MayStop at ran.now self.old.current }
        requires place { MayTell self.old.current ended.old }
        ensures taken { (is_open arena : _) → let taken = closed (tally_of self.old) outcome (record { is_open = is_open; at = at; ran = ran.now; arena = arena }) in
            (tally_of self.new ≡ taken.tally) × (ended.new.items ≡ ended.old.items ++ taken.over) }
        ensures outside { self.new.current ≡ Outside }
        ensures same { (self.new.thread ≡ self.old.thread) × (self.new.retries ≡ self.old.retries) }
        ensures capacity { vec_capacity ended.new ≡ vec_capacity ended.old }
        ensures len { (is_open arena : _) → vec_len ended.new ≡ vec_len ended.old + length (closed (tally_of self.old) outcome
            (record { is_open = is_open; at = at; ran = ran.now; arena = arena })).over }
    {
        self.stop(ended, outcome, at, ran);
        self.nth = 1;
        self.again = false;
    }

    /// The open attempt is over, at this position, with these actions that have run in it; one that is to be opened is not
    /// told.
    #[inline(never)]
    pub fn stop(&mut self, ended: &mut Vec<Attempt>, outcome: Outcome, at: u64, ran: &[Ran])
        requires room { MayStop at ran.now self.old.current }
        requires place { MayTell self.old.current ended.old }
        ensures run { self.new ≡ record self.old { current = Outside } }
        ensures over { (is_open arena : _) → ended.new.items ≡ ended.old.items ++ over_as outcome (record { is_open = is_open; at = at; ran = ran.now; arena = arena }) (stage_of self.old.current) }
        ensures capacity { vec_capacity ended.new ≡ vec_capacity ended.old }
        ensures len { (is_open arena : _) → vec_len ended.new ≡ vec_len ended.old + length (over_as outcome
            (record { is_open = is_open; at = at; ran = ran.now; arena = arena }) (stage_of self.old.current)) }
    {
        if let Some(open) = self.current.within_mut() {
            ended.push_reserved(open.end(outcome, at, ran));
        }
        self.current.leave();
    }

    /// The block is tried again, where it may be.
    #[inline(always)]
    fn retry(&mut self) -> Option<End>
        requires { (self.old.nth ≤ self.old.retries + 1) × (self.old.retries ≤ MAX_RETRIES) }
        ensures end { result ≡ (if nat_lt self.old.retries self.old.nth then Some GaveUp else None) }
        ensures tries { self.new ≡ (if nat_lt self.old.retries self.old.nth then self.old else record self.old { nth = self.old.nth + 1 }) }
    {
        if self.retries < self.nth {
            return Some(End::GaveUp);
        }
        self.nth += 1;
        None
    }
}
