//! The open blocks.

ghost use Rattle.std.specs.Prelude.{◌≡◌, ◌+◌, ◌<◌, ◌≤◌, ℕ, List, true, false, [], ◌∷◌, IfOk, IsOk, IsSome, OnOk, OnErr, None, Some, length, map, take, drop, option_map, slice_get};
ghost use Rattle.itm_types.specs.KeptBytes.{also_kept, merged};
ghost use Rattle.itm_types.specs.Memory.{AllFit};
ghost use Rattle.word_pieces.specs.Masks.{merged_at};
ghost use Rattle.write_set.specs.Rows.{lookup, laid, put, reserved, overlay, AreEmpty, AreRows, WritesNoMore};
ghost use Rattle.write_set.specs.Marks.{unwritten, place_of, reserve, write, AreMarks, IsReady, KeepsRoom, MayPut};
ghost use Rattle.undo_log.specs.Rollback.{found, kept_of};
ghost use Rattle.user_actions.specs.Actions.{no_actions, registered};
ghost use Rattle.nest_frames.specs.Nest.{begun, log_of, reads_of, rows_of, logged, closed, is_kept, stays_revocable, actions_closed, made_irrevocable, KeepsLimits};

use crate::moment::Moment;
use crate::moments::Moments;
use itm_types::Props;
use std::alloc::{AllocError, Global};
use std::marker::Model;
use undo_log::{Arena, UndoLog};
use user_actions::UserActions;
use write_set::{Row, WriteSet};

/// What a transaction has written and logged, the actions that it has registered, and its open blocks.
#[derive(Debug, Drop)]
pub struct Frames {
    pub(crate) writes: WriteSet,
    pub(crate) undo: UndoLog,
    pub(crate) actions: UserActions,
    pub(crate) moments: Moments,
}

impl Model for Frames {
    ghost use Rattle.nest_frames.specs.Nest.{Nest};

    ghost Value = { Nest };

    ghost use Rattle.nest_frames.specs.Moments.{frames_of, IsSound};

    ghost view = { λ f. record {
      writes = f.writes;
      size = f.undo.size;
      depth = f.moments.most;
      blocks = frames_of f.writes f.undo.olds f.moments.items;
      actions = f.actions.actions;
      room = f.actions.room;
    } };

    ghost invariant = { λ f. IsSound f.writes f.undo.olds f.actions.actions f.moments.items };
}

impl Frames {
    /// No block is open, over an arena of this size, and so many may be. Takes memory for their begins.
    pub fn new(alloc: Global, size: usize, depth: u8) -> Result<Frames, AllocError>
        ensures ok { IfOk result (λ frames. frames ≡ record {
          writes = unwritten;
          size = size;
          depth = depth;
          blocks = [];
          actions = no_actions;
          room = 0;
        }) }
    {
        let moments = Moments::new(alloc, depth)?;
        Ok(Frames {
            writes: WriteSet::new(alloc),
            undo: UndoLog::new(alloc, size),
            actions: UserActions::new(alloc),
            moments,
        })
    }

    /// How many blocks are open.
    pub fn depth(&self) -> usize
        ensures depth { result ≡ length self.now.blocks }

        // So many may be open.
        ensures few { length self.now.blocks ≤ self.now.depth }

        // Where none is, nothing is written, and no action is registered.
        ensures none { self.now.blocks ≡ [] → (self.now.writes ≡ unwritten)
            × (self.now.actions.commits ≡ []) × (self.now.actions.undos ≡ []) }
    {
        self.moments.len()
    }

    /// How many blocks may be open at once.
    pub fn deepest(&self) -> usize
        ensures { result ≡ self.now.depth }
    {
        self.moments.most()
    }

    /// How many bytes the arena has.
    pub fn size(&self) -> usize
        ensures { result ≡ self.now.size }
    {
        self.undo.size()
    }

    /// How many words are written.
    pub fn len(&self) -> usize
        ensures len { result ≡ length self.now.writes.rows }
        ensures rows { AreRows self.now.writes.rows }
        ensures marks { AreMarks self.now.writes }

        // The innermost mark of what is written is the begin of the innermost block.
        ensures begun { self.now.writes.inner.rows ≡ length (rows_of self.now.blocks) }
    {
        self.writes.len()
    }

    /// What is written of a word, at this place in the order of first writing.
    pub fn row(&self, place: usize) -> Row
        requires { place < length self.now.writes.rows }
        ensures row { slice_get self.now.writes.rows place ≡ Some result }
    {
        self.writes.row(place)
    }

    /// What is written of the word.
    #[inline(always)]
    pub fn get(&self, word: u32) -> Option<Row>
        ensures row { result ≡ lookup word self.now.writes.rows }

        // Under what is written, a word of a memory has the row's bytes.
        ensures word { (m : List ℕ) (value : ℕ) → slice_get m word ≡ Some value →
            slice_get (overlay m self.now.writes.rows) word ≡ Some (laid result value) }
    {
        self.writes.get(word)
    }

    /// The properties of the innermost block, if one is open.
    pub fn innermost(&self) -> Option<Props>
        ensures { result ≡ option_map (λ b. b.props) (slice_get self.now.blocks 0) }
    {
        let moment = self.moments.as_slice().last()?;
        Some(moment.props)
    }

    /// How many words had been read as the innermost block began, or 0 where none is open. Takes no memory.
    pub fn reads(&self) -> usize
        ensures { result ≡ reads_of self.now.blocks }
    {
        match self.moments.as_slice().last() {
            Some(begin) => begin.reads as usize,
            None => 0,
        }
    }

    /// The properties of an open block, counted outwards: the innermost one is at 0.
    pub fn props(&self, place: usize) -> Props
        requires { place < length self.now.blocks }
        ensures { slice_get (map (λ b. b.props) self.now.blocks) place ≡ Some result }
    {
        let moments = self.moments.as_slice();
        moments[moments.len() - 1 - place].props
    }

    /// Whether the innermost block, or with `outer` one of all open ones, has the property that it is not cancelled.
    /// Takes no memory.
    pub fn is_kept(&self, outer: bool) -> bool
        ensures { result ≡ is_kept self.now.blocks outer }
    {
        if outer {
            self.moments
                .as_slice()
                .iter()
                .any(|moment| moment.props.no_abort)
        } else {
            self.innermost().is_some_and(|props| props.no_abort)
        }
    }

    /// Whether an open block has the property that the transaction does not become irrevocable within it. Takes no
    /// memory.
    pub fn stays_revocable(&self) -> bool
        ensures { result ≡ stays_revocable self.now.blocks }
    {
        self.moments
            .as_slice()
            .iter()
            .any(|moment| moment.props.no_irrevocable)
    }

    /// A block begins within those that are open, with so many words read. Takes no memory.
    #[inline(always)]
    pub fn enter(&mut self, props: Props, reads: u32)
        requires { length self.old.blocks < self.old.depth }
        ensures blocks { self.new.blocks ≡ begun props self.old.writes.rows self.old.actions reads ∷ self.old.blocks }
        ensures writes { self.new.writes ≡ record self.old.writes { inner = place_of self.old.writes } }
        ensures actions { self.new.actions ≡ self.old.actions }
        ensures limits { KeepsLimits self.old self.new }
    {
        if self.moments.is_empty() {
            self.moments.push(Moment {
                reads,
                ..Moment::at_start(props)
            });
            return;
        }
        let rows = self.writes.mark();
        let log = self.undo.mark();
        let actions = self.actions.mark();
        self.moments.push(Moment {
            props,
            rows,
            log,
            actions,
            reads,
        });
    }

    /// The innermost block closes: what was logged and registered in it goes to the one around it, and what was written
    /// stays. With the outermost one all of it is forgotten, and the commit actions run, in the order in which they
    /// were registered. Takes no memory.
    #[inline(always)]
    pub fn leave(&mut self)
        requires { 0 < length self.old.blocks }
        ensures blocks { self.new.blocks ≡ closed self.old.blocks }
        ensures rows { 1 < length self.old.blocks → self.new.writes.rows ≡ self.old.writes.rows }
        ensures writes { 1 < length self.old.blocks →
            self.new.writes ≡ record self.old.writes { inner = self.new.writes.inner } }
        ensures outermost { length self.old.blocks ≡ 1 → self.new.writes ≡ unwritten }
        ensures actions { self.new.actions ≡ actions_closed self.old.blocks self.old.actions }
        ensures limits { KeepsLimits self.old self.new }

        // What the one around it keeps of the arena wins.
        ensures handed { 1 < length self.old.blocks → (arena : List ℕ) →
            kept_of arena (log_of self.new.blocks)
            ≡ merged (kept_of arena (log_of (drop 1 self.old.blocks))) (kept_of arena (log_of self.old.blocks)) }
    {
        if self.moments.len() == 1 {
            let _outermost = self.moments.pop();
            self.writes.clear();
            self.undo.clear();
            self.actions.run_commits();
        } else {
            let Some(closed) = self.moments.pop() else {
                unreachable!()
            };
            self.writes.forget_mark(closed.rows);
            self.undo.forget_mark(closed.log);
        }
    }

    /// Keeps so many bytes of the arena from a place on, as they are now, for the innermost block's rollback.
    pub fn log(&mut self, arena: &Arena, place: u64, size: u64) -> Result<(), AllocError>
        requires open { 0 < length self.old.blocks }
        requires arena { length arena.now ≡ self.old.size }
        requires range { place + size ≤ length arena.now }
        ensures ok { OnOk result
            (self.new ≡ record self.old { blocks = logged self.old.blocks (found arena.now place size) }) }
        ensures err { OnErr result (self.new ≡ self.old) }
        ensures none { size ≡ 0 → IsOk result }

        // What was logged first is kept.
        ensures kept { OnOk result (kept_of arena.now (log_of self.new.blocks)
            ≡ also_kept (kept_of arena.now (log_of self.old.blocks)) arena.now place size) }
    {
        self.undo.log(arena, place, size)?;
        Ok(())
    }

    /// Makes ready for a put of the word.
    pub fn reserve(&mut self, word: u32) -> Result<(), AllocError>
        requires { 0 < length self.old.blocks }
        ensures ok { OnOk result (self.new ≡ record self.old { writes = reserve self.old.writes word }) }
        ensures err { OnErr result (self.new ≡ self.old) }
        ensures ready { OnOk result (IsReady word self.old.writes self.new.writes) }
        ensures others { KeepsRoom self.old.writes self.new.writes }

        // A row that was not there as the innermost block began takes no memory.
        ensures has_row { IsSome (lookup word self.old.writes.rows) → lookup word (rows_of self.old.blocks) ≡ None →
            IsOk result }

        // Nothing is written, and a cut at an earlier length takes the row back.
        ensures unwritten { WritesNoMore self.old.writes.rows self.new.writes.rows }
    {
        self.writes.reserve(word)?;
        Ok(())
    }

    /// Writes the masked bytes of a value to a word that was made ready. Takes no memory.
    pub fn put(&mut self, word: u32, mask: u64, value: u64)
        requires room { IsSome (lookup word self.old.writes.rows) }
        requires may_put { MayPut self.old.writes word }
        ensures new { self.new ≡ record self.old {
          writes =
              record self.old.writes { rows = put self.old.writes.rows word mask value };
        } }
        ensures words { map (λ r. r.word) self.new.writes.rows ≡ map (λ r. r.word) self.old.writes.rows }
        ensures others { KeepsRoom self.old.writes self.new.writes }

        // The memory gets these bytes, and no other changes.
        ensures memory { (m : List ℕ) → AllFit m → word < length m →
            overlay m self.new.writes.rows ≡ merged_at (overlay m self.old.writes.rows) word mask value }
    {
        self.writes.put(word, mask, value);
    }

    /// Writes the masked bytes of a value to a word: as a reserve and then a put.
    #[inline(always)]
    pub fn write(&mut self, word: u32, mask: u64, value: u64) -> Result<(), AllocError>
        requires { 0 < length self.old.blocks }
        ensures ok { OnOk result
            (self.new ≡ record self.old { writes = write self.old.writes word mask value }) }
        ensures err { OnErr result (self.new ≡ self.old) }
        ensures rows { OnOk result
            (self.new.writes.rows ≡ put (reserved self.old.writes.rows word) word mask value) }
        ensures others { KeepsRoom self.old.writes self.new.writes }

        // A row that was not there as the innermost block began takes no memory.
        ensures has_row { IsSome (lookup word self.old.writes.rows) → lookup word (rows_of self.old.blocks) ≡ None →
            IsOk result }

        // The memory gets these bytes, and no other changes.
        ensures memory { OnOk result ((m : List ℕ) → AllFit m → word < length m →
            overlay m self.new.writes.rows ≡ merged_at (overlay m self.old.writes.rows) word mask value) }
    {
        self.writes.write(word, mask, value)?;
        Ok(())
    }

    /// The same, where that takes no memory and no look at the write set's index, else nothing. It may where the last transaction
    /// wrote this word next, or few words are written, this one had no row as the innermost block began, and a row that joins has
    /// room.
    #[inline(always)]
    pub fn write_next(&mut self, word: u32, mask: u64, value: u64) -> bool
        requires { 0 < length self.old.blocks }
        ensures none { result ≡ false → self.new ≡ self.old }
        ensures written { result ≡ true → self.new ≡ record self.old { writes = write self.old.writes word mask value } }
    {
        self.writes.write_next(word, mask, value)
    }

    /// The same, where that takes no memory, else nothing. It may where more words than few are written, the index has this one, it
    /// had no row as the innermost block began, and a row that joins has room.
    #[inline(always)]
    pub fn write_found(&mut self, word: u32, mask: u64, value: u64) -> bool
        requires { 0 < length self.old.blocks }
        ensures none { result ≡ false → self.new ≡ self.old }
        ensures written { result ≡ true → self.new ≡ record self.old { writes = write self.old.writes word mask value } }
    {
        self.writes.write_found(word, mask, value)
    }

    /// Takes the rows from a place on, which are of empty mask and newer than the innermost block, off the end. Takes
    /// no memory.
    pub fn cut(&mut self, len: usize)
        requires empty { AreEmpty (drop len self.old.writes.rows) }
        requires inner { self.old.writes.inner.rows ≤ len }
        ensures new { self.new ≡ record self.old {
          writes =
              record self.old.writes { rows = take len self.old.writes.rows };
        } }
        ensures others { KeepsRoom self.old.writes self.new.writes }

        // Nothing was written in them.
        ensures memory { (m : List ℕ) → AllFit m →
            overlay m self.new.writes.rows ≡ overlay m self.old.writes.rows }
    {
        self.writes.cut(len);
    }

    /// The transaction is irrevocable from now on: what is written stands in the memory, and no block goes back to
    /// anything. The rows, what was logged and the undo actions are forgotten. Takes no memory.
    pub fn make_irrevocable(&mut self)
        ensures { self.new ≡ record {
          writes = unwritten;
          size = self.old.size;
          depth = self.old.depth;
          blocks = map made_irrevocable self.old.blocks;
          actions = record self.old.actions { undos = [] };
          room = self.old.room;
        } }
    {
        self.writes.clear();
        self.undo.clear();
        self.actions.forget_undos();
        self.moments.forget();
    }
}
