//! The types of this crate whose `==` tells any two values apart.

use crate::history::Version;
use itm_types::ExactEq;

impl ExactEq for Version {
    ghost use Rattle.tx_history.specs.SameVersions.{same_version};

    ghost exact = { same_version };
}
