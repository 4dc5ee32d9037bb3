//! Calls and their replies.

ghost use Rattle.std.specs.Prelude.{◌≡◌};
ghost use Rattle.history_reader.specs.Fields.{rest_fields};
ghost use Rattle.history_reader.specs.Calls.{control_call, point_call, verb_call, call_of};

use crate::fields::next_field;
use crate::operands::{
    abort_operand, begin_operand, commit_action, copy_operands, fill_operands, mode_operand,
    no_operand, place_datum, place_operand, place_size, undo_action,
};
use crate::reply::ReplyKind;
use crate::verb::{Verb, verb_of};
use itm_entries::{Control, Entry as Point};
use itm_types::{Action, Call, Copying};
use script_fields::FaultKind;
use tx_attempts::CallRecord;

#[tactic(auto, unfolding(crate::specs::Calls::control_call))]
fn control_call(control: Control, rest: Option<&[u8]>) -> Result<CallRecord, FaultKind>
    ensures { result ≡ control_call control (rest_fields rest.entry) }
{
    match control {
        Control::BeginTransaction => {
            let (props, reply) = begin_operand(rest)?;
            let call = Call::Begin { props, room: 0 };
            Ok(CallRecord { call, reply })
        }
        Control::CommitTransaction => {
            let (_, reply) = no_operand(ReplyKind::Done, rest)?;
            Ok(CallRecord {
                call: Call::Commit,
                reply,
            })
        }
        Control::AbortTransaction => {
            let (outer, reply) = abort_operand(rest)?;
            let call = Call::Abort { outer };
            Ok(CallRecord { call, reply })
        }
        Control::ChangeTransactionMode => {
            let (_, reply) = mode_operand(rest)?;
            let call = Call::Mode { room: 0 };
            Ok(CallRecord { call, reply })
        }
        Control::InTransaction => {
            let (_, reply) = no_operand(ReplyKind::Code, rest)?;
            Ok(CallRecord {
                call: Call::InTransaction,
                reply,
            })
        }
        Control::AddUserCommitAction => {
            let ((fun, (_, arg)), reply) = commit_action(rest)?;
            let call = Call::CommitAction(Action { fun, arg });
            Ok(CallRecord { call, reply })
        }
        Control::AddUserUndoAction => {
            let ((fun, arg), reply) = undo_action(rest)?;
            let call = Call::UndoAction(Action { fun, arg });
            Ok(CallRecord { call, reply })
        }
    }
}

#[tactic(auto, unfolding(crate::specs::Calls::point_call))]
fn point_call(point: Point, rest: Option<&[u8]>) -> Result<CallRecord, FaultKind>
    ensures { result ≡ point_call point (rest_fields rest.entry) }
{
    match point {
        Point::Control(control) => control_call(control, rest),
        Point::Read(hint, width) => {
            let (at, reply) = place_operand(ReplyKind::Bytes(width), rest)?;
            let call = Call::Read { hint, width, at };
            Ok(CallRecord { call, reply })
        }
        Point::Write(hint, width) => {
            let ((at, value), reply) = place_datum(width, rest)?;
            let call = Call::Write { hint, at, value };
            Ok(CallRecord { call, reply })
        }
        Point::Log(width) => {
            let (at, reply) = place_operand(ReplyKind::Done, rest)?;
            let call = Call::Log { width, at };
            Ok(CallRecord { call, reply })
        }
        Point::LogBytes => {
            let ((at, size), reply) = place_size(rest)?;
            let call = Call::LogBytes { at, size };
            Ok(CallRecord { call, reply })
        }
        Point::Copy { moves, pair } => {
            let ((to, (from, size)), reply) = copy_operands(rest)?;
            let copying = Copying {
                moves,
                pair,
                to,
                from,
                size,
            };
            let call = Call::Copy(copying);
            Ok(CallRecord { call, reply })
        }
        Point::Fill(hint) => {
            let ((to, (byte, size)), reply) = fill_operands(rest)?;
            let call = Call::Fill {
                hint,
                to,
                byte,
                size,
            };
            Ok(CallRecord { call, reply })
        }
    }
}

#[tactic(auto, unfolding(crate::specs::Calls::verb_call))]
fn verb_call(verb: Verb, rest: Option<&[u8]>) -> Result<CallRecord, FaultKind>
    ensures { result ≡ verb_call verb (rest_fields rest.entry) }
{
    match verb {
        Verb::Point(point) => point_call(point, rest),
        Verb::Load(width) => {
            let (at, reply) = place_operand(ReplyKind::Bytes(width), rest)?;
            let call = Call::Load { width, at };
            Ok(CallRecord { call, reply })
        }
        Verb::Save(width) => {
            let ((at, value), reply) = place_datum(width, rest)?;
            let call = Call::Save { at, value };
            Ok(CallRecord { call, reply })
        }
    }
}

/// A call and its reply.
#[tactic(auto, unfolding(crate::specs::Calls::call_of))]
pub fn call_of(rest: Option<&[u8]>) -> Result<CallRecord, FaultKind>
    ensures { result ≡ call_of (rest_fields rest.entry) }
{
    let (name, rest) = next_field(rest)?;
    let verb = verb_of(name).ok_or(FaultKind::Operand)?;
    verb_call(verb, rest)
}
