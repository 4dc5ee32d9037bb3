//! Each function `expect_..` holds with ample memory, and wherever one allocation is refused; it answers whether none
//! was. `tests/refused.sh` calls it with each of them refused in turn.

mod asks;
mod engine;
mod frames;
mod logs;
mod plain;
