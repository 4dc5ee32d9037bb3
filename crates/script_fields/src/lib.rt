//! The lower half of a script's assembler: a text as lines, a line as fields, and fields as operands.
//!
//! A line ends in a line feed, with or without a carriage return before it. From a `;` on the rest of a line is a
//! comment. Fields are what stands between spaces and tabs. Of several operands of a line a wrong form of any is told
//! before a number beyond its limit.
//!
//! | Operand | Form |
//! |---|---|
//! | N | a number in decimal digits, with no sign and no needless zero in front, of at most 64 bits |
//! | REG | `r0` to `r15` |
//! | PLACE | N or REG |
//! | HEX | an even number of hexadecimal digits of either case, at least 2 |
//! | PROPS | `-`, or `pr_hasNoAbort`, `pr_hasNoIrrevocable` and `pr_doesGoIrrevocable`, one or more of them with `+` between them, none twice, in any order |
#![tactic(auto)]

mod directives;
mod equality;
mod fault;
mod fields;
mod hex_digits;
mod keywords;
mod literal;
mod names;
mod numbers;
mod operands;
mod place;
mod property;
mod register;
mod scan;
mod shapes;
mod text;

pub use directives::{count_of, init_of, limit_of, size_of};
pub use fault::{AsmFault, FaultKind};
pub use fields::no_field;
pub use hex_digits::{MAX_INIT_DIGITS, most_digits};
pub use keywords::{exactly, mode, no_transaction, scope, scope_text};
pub use literal::Literal;
pub use names::lookup;
pub use numbers::{function, number, within};
pub use operands::both;
pub use place::Place;
pub use property::props_text;
pub use register::Register;
pub use shapes::{
    abort_scope, commit_action, one_place, one_register, only_mode, place_register,
    register_literal, register_number, register_place, register_props, three_places,
    three_registers, two_places, two_registers, undo_action,
};
pub use text::{code_part, first_field, first_line, has_allowed};
