//! What has been read of a text.

ghost use Rattle.std.specs.Prelude.{◌≡◌};
ghost use Rattle.history_reader.specs.Lines.{initial};

use crate::item_list::ItemList;
use itm_types::{Props, Ran};
use std::alloc::Global;
use tx_attempts::{Again, Attempt, Bytes, CallRecord, Outcome};
use tx_history::Version;

/// What the first line of an attempt says.
#[derive(Clone, Copy)]
pub struct Head {
    pub thread: u8,
    pub nth: u32,
    pub at: u64,
    pub outcome: Outcome,
    pub props: Props,
}

/// What the last line within an attempt's calls says, as far as it decides what may stand next.
#[derive(Clone, Copy)]
pub enum Behind {
    /// A call, or the arena: nothing of a block that ran again.
    Call,
    /// The begin of a block within another, and the version tells of blocks that ran again.
    Begin,
    /// That the block ran again, or an action that had run in it before.
    Restart,
}

/// Which lines may stand next.
#[derive(Clone, Copy)]
pub enum Place {
    /// The format's name.
    AtHeader,
    /// How many blocks may be open at once.
    AtDepth,
    /// The memory before the run.
    AtMemory,
    /// An attempt, or the last line.
    Between,
    /// The arena of the attempt that begins so.
    AtArena(Head),
    /// A call, an action that ran, or the attempt's end; and by what stands right before, that a block ran again.
    InCalls(Head, Behind),
    /// An action that ran, or the attempt's end.
    InRan(Head),
    /// None: the last line was read, with this clock.
    AtEnd(u64),
}

/// What the lines so far say.
#[derive(Drop)]
pub struct State {
    pub place: Place,
    /// What the first lines say: the first version until then.
    pub version: Version,
    /// The memory before the run.
    pub memory: Bytes,
    /// The attempts that have ended.
    pub attempts: ItemList<Attempt>,
    /// The arena of the attempt that has not.
    pub arena: Bytes,
    /// Its calls.
    pub calls: ItemList<CallRecord>,
    /// Its blocks that ran again.
    pub restarts: ItemList<Again>,
    /// Its actions that ran.
    pub ran: ItemList<Ran>,
    /// The memory after the run.
    pub bytes: Bytes,
}

impl State {
    /// Nothing has been read. Takes no memory.
    pub fn new(alloc: Global) -> Self
        ensures { result ≡ initial }
    {
        State {
            place: Place::AtHeader,
            version: Version::One,
            memory: Bytes::new(Vec::new(alloc)),
            attempts: ItemList::new(alloc),
            arena: Bytes::new(Vec::new(alloc)),
            calls: ItemList::new(alloc),
            restarts: ItemList::new(alloc),
            ran: ItemList::new(alloc),
            bytes: Bytes::new(Vec::new(alloc)),
        }
    }
}
