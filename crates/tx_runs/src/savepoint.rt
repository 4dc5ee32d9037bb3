//! Where the open inner blocks of an attempt began.

ghost use Rattle.std.specs.Prelude.{◌≡◌, ◌<◌, true, drop, length, vec_capacity};
ghost use Rattle.itm_types.specs.Calls.{is_begin};
ghost use Rattle.tx_attempts.specs.Restarts.{begun_at, cancelled_in, ended_in, open_after};

use itm_types::{Call, Reply};

/// Where an open inner block began: what it keeps where it runs again.
#[derive(Clone, Copy, Debug, PartialEq, Eq)]
pub struct Savepoint {
    /// The calls of its attempt up to its begin, which is the last of them.
    pub kept: usize,
    /// How many actions its attempt told as run by then.
    pub ran: usize,
}

/// What is kept of the open blocks, the innermost first, once the call has this reply. Of a block that it opens this is kept.
#[inline(always)]
pub(crate) fn nest(points: &mut Vec<Savepoint>, point: Savepoint, call: &Call, reply: &Reply)
    requires { is_begin call.now ≡ true → length points.old.items < vec_capacity points.old }
    ensures items { points.new.items ≡ open_after point points.old.items (record { call = call.now; reply = reply.now }) }
    ensures room { vec_capacity points.new ≡ vec_capacity points.old }
{
    match call {
        Call::Begin { .. } => begin_block(points, point, reply),
        Call::Commit => end_block(points, reply),
        Call::Abort { outer } => cancel_blocks(points, *outer, reply),
        _ => {}
    }
}

/// A begin that was accepted opens a block.
fn begin_block(points: &mut Vec<Savepoint>, point: Savepoint, reply: &Reply)
    requires { length points.old.items < vec_capacity points.old }
    ensures items { points.new.items ≡ begun_at point points.old.items reply.now }
    ensures room { vec_capacity points.new ≡ vec_capacity points.old }
{
    if let Reply::Code(_) = reply {
        let _room_was_reserved = points.insert(0, point);
    }
}

/// A commit that was accepted closes the innermost one.
fn end_block(points: &mut Vec<Savepoint>, reply: &Reply)
    ensures items { points.new.items ≡ ended_in points.old.items reply.now }
    ensures room { vec_capacity points.new ≡ vec_capacity points.old }
{
    if let Reply::Done = reply {
        drop_innermost(points);
    }
}

/// An abort that was accepted cancels the innermost one, or all.
fn cancel_blocks(points: &mut Vec<Savepoint>, outer: bool, reply: &Reply)
    ensures items { points.new.items ≡ cancelled_in outer points.old.items reply.now }
    ensures room { vec_capacity points.new ≡ vec_capacity points.old }
{
    if let Reply::Code(_) = reply {
        if outer {
            points.clear();
        } else {
            drop_innermost(points);
        }
    }
}

fn drop_innermost(points: &mut Vec<Savepoint>)
    ensures items { points.new.items ≡ drop 1 points.old.items }
    ensures room { vec_capacity points.new ≡ vec_capacity points.old }
{
    if !points.is_empty() {
        points.remove(0);
    }
}
