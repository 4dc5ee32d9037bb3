//! The begins of open blocks.

ghost use Rattle.std.specs.Prelude.{◌≡◌};
ghost use Rattle.nest_frames.specs.Moments.{at_start};

use itm_types::Props;
use user_actions::ActionMark;

/// Where an open block began.
#[derive(Debug, Default, Drop)]
pub(crate) struct Moment {
    pub(crate) rows: write_set::Mark,
    pub(crate) log: undo_log::Mark,
    pub(crate) actions: ActionMark,
    /// How many words had been read.
    pub(crate) reads: u32,
    /// (Last, so that there is no hole between the numbers.)
    pub(crate) props: Props,
}

impl Moment {
    /// The begin of such a block at which there was nothing.
    pub(crate) fn at_start(props: Props) -> Moment
        ensures { result ≡ at_start props }
    {
        Moment {
            props,
            ..Moment::default()
        }
    }
}
