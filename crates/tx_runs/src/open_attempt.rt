//! The attempt that is under way.

ghost use Rattle.std.specs.Prelude.{◌≡◌, ◌+◌, ◌^◌, ◌<◌, ◌≤◌, [], true, length, None, IfOk, OnOk, OnErr};
ghost use Rattle.tx_attempts.specs.declared.attempt.Outcome.TheVariants.{Unfinished};
ghost use Rattle.tx_attempts.specs.Attempts.{blank};
ghost use Rattle.tx_attempts.specs.Kept.{reserved};
ghost use Rattle.itm_types.specs.Calls.{is_begin};
ghost use Rattle.tx_attempts.specs.Restarts.{ran_on};
ghost use Rattle.tx_runs.specs.Tallies.{begun, ending_as, with_call};
ghost use Rattle.tx_runs.specs.OpenAttempts.{BeganBy, HasPlacesFor, IsBacked, LacksPlaces, no_rooms, open_of, rooms_in, told_in};
ghost use Rattle.tx_runs.specs.Savepoints.{cut_back, savepoints_after};

use crate::places::{Places, takes_places};
use crate::savepoint::Savepoint;
use itm_types::{Call, Props, Ran, Reply};
use std::alloc::{AllocError, Global};
use std::marker::Model;
use std::mem;
use tx_attempts::{
    Attempt, Bytes, CallRecord, Outcome, RanActions, Restarts, count_undone, undone_before,
};

/// The attempt that is under way, with the room that is made ahead for its calls and actions.
#[derive(Drop)]
pub struct OpenAttempt {
    row: Attempt,
    /// Nearly always it has no inner block and no action, so what serves those is kept apart.
    places: Option<Box<Places>>,
    alloc: Global,
}

impl Model for OpenAttempt {
    ghost use Rattle.std.specs.Prelude.{◌≡◌};
    ghost use Rattle.tx_attempts.specs.declared.attempt.Outcome.TheVariants.{Unfinished};
    ghost use Rattle.tx_runs.specs.OpenAttempts.{Open, open_of, rooms_in};

    ghost Value = { Open };

    ghost view = { λ o. open_of o.row (rooms_in o.places) };

    ghost invariant = { λ o. o.row.outcome ≡ Unfinished };
}

impl OpenAttempt {
    /// A place for attempts. Takes no memory.
    pub(crate) fn blank(alloc: Global) -> Self
        ensures { result ≡ open_of blank no_rooms }
    {
        OpenAttempt {
            row: Attempt::blank(alloc),
            places: None,
            alloc,
        }
    }

    /// A begin is to open this try of its block, with room for so many calls, as many inner blocks and as many actions.
    #[inline(always)]
    pub(crate) fn begin(
        &mut self,
        thread: u8,
        nth: u32,
        began: u64,
        props: Props,
        arena: &[u8],
        ahead: usize,
    ) -> Result<(), AllocError>
        ensures row { OnOk result (self.new.row ≡ begun thread nth began props arena.now ahead) }
        ensures points { OnOk result (self.new.points ≡ []) }
        ensures room { OnOk result ((ahead ≤ self.new.ends) × (ahead ≤ self.new.cancels) × (ahead ≤ self.new.deep)) }
    {
        let alloc = self.alloc;
        self.places = places_ahead(alloc, ahead)?;
        self.row.arena = Bytes::new(arena.to_vec(alloc)?);
        self.row.calls.start_anew(ahead)?;
        self.row.restarts = Restarts::none();
        self.row.ran = RanActions::new(alloc);
        self.row.thread = thread;
        self.row.nth = nth;
        self.row.began = began;
        self.row.at = 0;
        self.row.props = props;
        Ok(())
    }

    /// The attempt, as it stands.
    pub fn row(&self) -> &Attempt
        ensures value { result.now ≡ self.now.row }
        ensures unfinished { self.now.row.outcome ≡ Unfinished }
    {
        &self.row
    }

    /// It reads at this position.
    pub fn move_to(&mut self, at: u64)
        ensures { self.new ≡ record self.old { row = record self.old.row { at = at } } }
    {
        self.row.at = at;
    }

    /// Its begin was accepted: it is open, and reads at this position.
    pub(crate) fn enter(&mut self, at: u64)
        ensures { self.new ≡ record self.old { row = record self.old.row { at = at }; points = [] } }
    {
        self.row.at = at;
        if let Some(places) = &mut self.places {
            places.clear();
        }
    }

    /// Makes room for what comes of a call, where there are so many actions: for its entry, for the block that it begins, for
    /// the action that it registers or for those that a cancel runs, and where it makes the transaction irrevocable for so many
    /// calls more, as many blocks and as many actions. Where the innermost block may run again by it, `arena` has as many bytes as the arena,
    /// and there is room for what is told of that. Where memory is refused the attempt is as it was.
    #[inline(always)]
    pub fn prepare(
        &mut self,
        call: &Call,
        actions: usize,
        ahead: usize,
        arena: Option<usize>,
    ) -> Result<(), AllocError>
        requires few { (actions < 2 ^ 63) × (ahead < 2 ^ 32) }
        requires records { length self.old.row.restarts < 2 ^ 32 }
        ensures calls { OnOk result (self.new.row ≡ record self.old.row { calls = reserved self.old.row.calls (ahead + 1) }) }
        ensures places { OnOk result (HasPlacesFor call.now actions ahead arena self.new) }
        ensures err { OnErr result (self.new.row ≡ self.old.row) }
        ensures short { OnErr result (LacksPlaces call.now actions ahead arena self.old) }
        ensures points { self.new.points ≡ self.old.points }
        ensures kept { (self.old.ends ≤ self.new.ends) × (self.old.cancels ≤ self.new.cancels) × (self.old.deep ≤ self.new.deep) }
    {
        self.prepare_places(call, actions, ahead)?;
        if let Some(bytes) = arena {
            self.prepare_again(bytes, actions)?;
        }
        self.row.calls.reserve(ahead + 1)?;
        Ok(())
    }

    /// Room for the block that the call begins, for the actions that it may leave, and for so many more. A read, a write and a
    /// commit leave none.
    #[inline(always)]
    fn prepare_places(
        &mut self,
        call: &Call,
        actions: usize,
        ahead: usize,
    ) -> Result<(), AllocError>
        requires few { (actions < 2 ^ 63) × (ahead < 2 ^ 32) }
        ensures row { self.new.row ≡ self.old.row }
        ensures places { OnOk result (HasPlacesFor call.now actions ahead None self.new) }
        ensures short { OnErr result ((arena : _) → LacksPlaces call.now actions ahead arena self.old) }
        ensures same { (self.new.points ≡ self.old.points) × (self.new.again ≡ self.old.again) }
        ensures kept { (self.old.ends ≤ self.new.ends) × (self.old.cancels ≤ self.new.cancels) × (self.old.deep ≤ self.new.deep) }
    {
        if !takes_places(call, actions, ahead) {
            return Ok(());
        }
        let mut places = self.take_places()?;
        let made = places.prepare(call, actions, ahead);
        self.places = Some(places);
        made
    }

    /// Room for a block that runs again, from an arena of so many bytes, where so many actions may have run.
    fn prepare_again(&mut self, arena: usize, actions: usize) -> Result<(), AllocError>
        requires few { length self.old.row.restarts < 2 ^ 32 }
        ensures backed { OnOk result (IsBacked arena actions self.new) }
        ensures same { OnOk result (self.new ≡ record self.old { again = self.new.again }) }
        ensures short { OnErr result (IsBacked arena actions self.old → ⊥) }
        ensures err { OnErr result (self.new ≡ self.old) }
    {
        let records = self.row.restarts.as_slice().len() + 1;
        let alloc = self.alloc;
        let mut places = self.take_places()?;
        let made = places.prepare_again(alloc, records, arena, actions);
        self.places = Some(places);
        made
    }

    /// Its places, to be put back; new ones where it has none.
    fn take_places(&mut self) -> Result<Box<Places>, AllocError>
        ensures row { self.new.row ≡ self.old.row }
        ensures taken { IfOk result (λ places. self.old ≡ open_of self.old.row places.value) }
        ensures err { OnErr result ((self.new ≡ self.old) × (self.old ≡ open_of self.old.row no_rooms)) }
    {
        match self.places.take() {
            Some(places) => Ok(places),
            None => Ok(Box::new(self.alloc, Places::new(self.alloc))?),
        }
    }

    /// The call has this reply.
    #[inline(always)]
    pub(crate) fn add(&mut self, call: &mut Call, reply: &mut Reply)
        requires entry { 0 < self.old.row.calls.room }
        requires place { is_begin call.old ≡ true → length self.old.points < self.old.deep }
        ensures { self.new ≡ record self.old { row = with_call call.old reply.old self.old.row; points = savepoints_after self.old.points self.old.row (record { call = call.old; reply = reply.old }) } }
    {
        if let Some(places) = &mut self.places {
            let point = Savepoint {
                kept: self.row.calls.as_slice().len() + 1,
                ran: self.row.ran.as_slice().len(),
            };
            places.nest(point, call, reply);
        }
        self.row.calls.push(CallRecord {
            call: mem::replace(call, Call::Commit),
            reply: mem::replace(reply, Reply::Done),
        });
    }

    /// These actions have come to run in its transaction in all. It stays open. Nearly always none has run since.
    #[inline(always)]
    pub(crate) fn run(&mut self, due: &[Ran])
        requires told { told_in self.old.row ≤ length due.now }
        requires room { told_in self.old.row < length due.now → length due.now ≤ self.old.cancels }
        ensures row { self.new.row ≡ record self.old.row { ran = ran_on self.old.row.ran self.old.row.restarts due.now } }
        ensures same { (self.new.points ≡ self.old.points) × (self.new.ends ≡ self.old.ends) × (self.new.deep ≡ self.old.deep) × (self.new.again ≡ self.old.again) }
        ensures kept { told_in self.old.row ≡ length due.now → self.new.cancels ≡ self.old.cancels }
    {
        let told = told_of(&self.row, due);
        if told < due.len() {
            if let Some(places) = &mut self.places {
                places.run(&mut self.row.ran, &due[told..]);
            }
        }
    }

    /// Its innermost block, where one is open within the outermost, runs again from this arena: what it did is taken out, and
    /// told in a record. These actions have come to run in its transaction in all.
    pub(crate) fn renew(&mut self, arena: &[u8], due: &[Ran])
        requires told { told_in self.old.row ≤ length due.now }
        requires began { BeganBy self.old.points self.old.row (length due.now) }
        requires backed { IsBacked (length arena.now) (length due.now) self.old }
        ensures row { self.new.row ≡ cut_back self.old.points arena.now due.now self.old.row }
        ensures same { (self.new.points ≡ self.old.points) × (self.new.ends ≡ self.old.ends) × (self.new.cancels ≡ self.old.cancels) × (self.new.deep ≡ self.old.deep) }
    {
        if let Some(places) = &mut self.places {
            if let (Some(point), Some(room)) = (places.innermost(), places.take_again()) {
                let began = point.ran + undone_before(self.row.restarts.as_slice(), point.kept);
                self.row
                    .restarts
                    .add(room, point.kept, arena, &due[began..]);
                self.row.calls.cut(point.kept);
                self.row.calls.give_up_room();
                self.row.ran.cut(point.ran);
            }
        }
    }

    /// The attempt as it ends, at this position, where these actions have come to run in all. Its place is blank then.
    #[inline(always)]
    pub(crate) fn end(&mut self, outcome: Outcome, at: u64, due: &[Ran]) -> Attempt
        requires told { told_in self.old.row ≤ length due.now }
        requires room { length due.now ≤ self.old.ends }
        ensures ended { (is_open arena : _) → result ≡ ending_as outcome (record { is_open = is_open; at = at; ran = due.now; arena = arena }) self.old.row }
        ensures blank { self.new ≡ open_of blank no_rooms }
    {
        if let Some(mut places) = self.places.take() {
            let told = told_of(&self.row, due);
            places.run_last(&mut self.row.ran, &due[told..]);
        }
        self.row.calls.give_up_room();
        self.row.at = at;
        self.row.outcome = outcome;
        mem::replace(&mut self.row, Attempt::blank(self.alloc))
    }
}

/// Room for so many inner blocks and as many actions, where that is any.
#[inline(always)]
fn places_ahead(alloc: Global, ahead: usize) -> Result<Option<Box<Places>>, AllocError>
    ensures points { IfOk result (λ places. (rooms_in places).points ≡ []) }
    ensures room { IfOk result (λ places. (ahead ≤ (rooms_in places).ends) × (ahead ≤ (rooms_in places).cancels) × (ahead ≤ (rooms_in places).deep)) }
{
    if ahead == 0 {
        return Ok(None);
    }
    Ok(Some(Box::new(alloc, Places::with_room(alloc, ahead)?)?))
}

/// How many of these actions, which have come to run in its transaction in all, the attempt tells: as run, or as undone in its
/// blocks that ran again. Nearly always none has run.
#[inline(always)]
pub fn told_of(row: &Attempt, due: &[Ran]) -> usize
    requires { told_in row.now ≤ length due.now }
    ensures { result ≡ told_in row.now }
{
    if due.is_empty() {
        return 0;
    }
    row.ran.as_slice().len() + count_undone(row.restarts.as_slice())
}
