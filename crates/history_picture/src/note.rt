//! What is said of a history.

use itm_types::Reply;

/// Whether a history is legal.
#[derive(Clone, Copy, Debug)]
pub enum Judgement<'a> {
    Legal,
    /// The line of its text that is wrong, and the word for what is wrong with it.
    Bad(u64, &'a [u8]),
}

/// What is said of a history, and why.
#[derive(Debug, Drop)]
pub struct Note<'a> {
    pub judgement: Judgement<'a>,
    /// Which attempt is wrong, counted from 0, where one is.
    pub flawed: Option<usize>,
    /// Which of its calls, where one is.
    pub call: Option<usize>,
    /// What the plain machine answers to a call that is told with another reply.
    pub answer: Option<Reply>,
}
