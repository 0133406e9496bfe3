//! Rules of these case files, as they are printed.

use case_form::Rule;

pub(crate) const NO_SUCH_ITEM: Rule = Rule("an item is run, gather, meet or want");

pub(crate) const BAD_RUN: Rule = Rule("a run is WORKS by WORKERS, from 1 to 16 of them");

pub(crate) const BAD_WANT: Rule = Rule(
    "a want is CALL NUMBER of a run, and a call is take, prepare or act",
);
