//! Rules of these case files, as they are printed.

use case_form::Rule;

pub(crate) const NO_SUCH_ITEM: Rule = Rule("an item is told");

pub(crate) const BAD_TOLD: Rule = Rule(
    "a told is UNITS RECEIVED EXECUTED after UNITS RECEIVED EXECUTED, each three in order, and none less than before",
);
