//! Fields that are one of a few words.

ghost use Rattle.std.specs.Prelude.{◌≡◌};
ghost use Rattle.script_fields.specs.Operands.{exactly, scope, mode, no_transaction};
ghost use Rattle.script_fields.specs.Spelling.{scope_text};

use crate::fault::FaultKind;

/// This text and no other.
pub fn exactly(text: &[u8], field: &[u8]) -> Result<(), FaultKind>
    ensures { result ≡ exactly text.now field.now }
{
    if field == text {
        Ok(())
    } else {
        Err(FaultKind::Operand)
    }
}

/// The scope of an abort: whether all blocks that are open are cancelled.
#[tactic(auto, unfolding(crate::specs::Operands::scope))]
pub fn scope(field: &[u8]) -> Result<bool, FaultKind>
    ensures { result ≡ scope field.now }
{
    if field == b"userAbort".as_slice() {
        Ok(false)
    } else if field == b"userAbort+outerAbort".as_slice() {
        Ok(true)
    } else {
        Err(FaultKind::Operand)
    }
}

/// How the scope of an abort is written.
pub fn scope_text(outer: bool) -> &'static str
    ensures { result.now ≡ scope_text outer }
{
    if outer {
        "userAbort+outerAbort"
    } else {
        "userAbort"
    }
}

/// The one mode that a transaction can be changed to.
#[tactic(auto, unfolding(crate::specs::Operands::mode))]
pub fn mode(field: &[u8]) -> Result<(), FaultKind>
    ensures { result ≡ mode field.now }
{
    exactly(b"modeSerialIrrevocable", field)
}

/// The word for an action that is bound to no transaction.
#[tactic(auto, unfolding(crate::specs::Operands::no_transaction))]
pub fn no_transaction(field: &[u8]) -> Result<(), FaultKind>
    ensures { result ≡ no_transaction field.now }
{
    exactly(b"_ITM_noTransactionId", field)
}
