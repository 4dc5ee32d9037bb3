//! What a handle of C's may hold.

ghost use Rattle.std.specs.Prelude.{◌≡◌, IfSome, IfNone};
ghost use Rattle.itm_c.specs.Kept.{IsSeated, KeepsRoot};
ghost use Rattle.itm_c.specs.Seats.{Closes};

use crate::cells::Cells;
use crate::client::Client;
use crate::root::Root;
use std::mem::replace;

/// The words, or a thread over them, or nothing while the words are closed.
#[derive(Drop)]
pub enum Kept {
    Root(Root),
    Client(Client),
    Closed,
}

impl Kept {
    /// The cells of words that no thread is in. Else all stays as it was.
    pub fn close(&mut self) -> Option<Cells>
        requires { KeepsRoot IsSeated self.old }
        ensures some { IfSome result (λ cells. KeepsRoot (λ r. Closes r cells) self.old) }
        ensures none { IfNone result (self.new ≡ self.old) }
    {
        match replace(self, Kept::Closed) {
            Kept::Root(root) => match root.close() {
                Ok(cells) => Some(cells),
                Err(root) => {
                    *self = Kept::Root(root);
                    None
                }
            },
            _ => unreachable!(),
        }
    }
}
