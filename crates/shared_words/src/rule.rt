//! The rule of the cells, and what each operation tells. These types are for the proofs alone.

ghost use Rattle.shared_words.specs.Rule.{AreGood, first_view, loads, stores, changes, exchanges, settled};
ghost use Rattle.shared_words.specs.Views.{cut_left, cut_right, both, spent};

use crate::initial::InitialWords;
use crate::view::View;
use atomic_table::{Join, Play, Split, TableRule};

/// The rule of a table of cells: one history of commits lies behind them. Its key is the words at the beginning.
pub struct CellRule;

impl TableRule<u8, View, InitialWords> for CellRule {
    ghost holds = { λ k. AreGood };

    ghost first = { λ k. first_view k.words };
}

/// A load.
pub(crate) struct Loads;

impl Play<u8, View> for Loads {
    ghost then = { loads };
}

/// A store.
pub(crate) struct Stores;

impl Play<u8, View> for Stores {
    ghost then = { stores };
}

/// A store of a word by what it changes of it.
pub(crate) struct Changes;

impl Play<u8, View> for Changes {
    ghost then = { changes };
}

/// A compare-exchange.
pub(crate) struct Exchanges;

impl Play<u8, View> for Exchanges {
    ghost then = { exchanges };
}

/// A load after a join, which tells how the two views lay to each other.
pub(crate) struct Settles;

impl Play<u8, View> for Settles {
    ghost then = { settled };
}

/// A view cut in two.
pub(crate) struct Cut;

impl Split<View> for Cut {
    ghost left = { cut_left };

    ghost right = { cut_right };
}

/// Two views as one.
pub(crate) struct Both;

impl Join<View> for Both {
    ghost both = { both };

    ghost spent = { spent };
}
