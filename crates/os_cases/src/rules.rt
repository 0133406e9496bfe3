//! Rules of these case files, as they are printed.

use case_form::Rule;

pub(crate) const NO_SUCH_ITEM: Rule = Rule(
    "an item is make, folder, link, name, move, allow, mode, remove, there, read, piece, unread, put, shown, full, length, write, at, sync, faults, why, beside, reopen or clock",
);

pub(crate) const BAD_FORM: Rule = Rule("a number is decimal, and a text keeps the rules of braces");

pub(crate) const BAD_PATH: Rule = Rule("a path is UTF-8");

pub(crate) const BAD_PIECE: Rule = Rule("a piece has at least one byte");

pub(crate) const BAD_VOLUME: Rule = Rule("a volume is a number from 0 to 15");

pub(crate) const REOPENED: Rule = Rule(
    "a case reopens its volumes once at most, and then has none beside them",
);
