//! The rules of case files that this program has beside the form.

use case_form::Rule;

pub(crate) const NO_SUCH_ITEM: Rule = Rule(
    "an item is title, file, text, use, random, front, refused, accepted, unread, gate, run, wordless, anew, crashed, holds, clock, failing, status, prints, law, ended or broken",
);

pub(crate) const ONE_FILE: Rule = Rule("a file is named by one word, and given once");

pub(crate) const NO_SUCH_TEXT: Rule = Rule("a text that is used is a file NAME.text of the folder");

pub(crate) const BAD_RANDOM: Rule = Rule(
    "random has a name, a seed and a count, and a command in its block",
);

pub(crate) const BAD_GATE: Rule = Rule("a gate is of 1 to 16 works, and stands before a run");

pub(crate) const NO_RUN: Rule = Rule(
    "a case ends with a run, a text that is judged, or a broken text",
);

pub(crate) const OUT_OF_ORDER: Rule = Rule(
    "this item belongs to a run: run, anew or crashed, holds, clock and failing, status, prints, law and ended stand in this order",
);

pub(crate) const STATUS_AND_PRINTS: Rule = Rule("a run has one status, from 0 to 255, and prints");

pub(crate) const NO_SUCH_CALL: Rule = Rule(
    "what fails is `read`, `put` or `volume` and the number of the call, from 1, or once two numbers with `to` between",
);

pub(crate) const NO_SUCH_HOLDING: Rule = Rule(
    "a system from 1 to 16 holds `first COUNT`, or records: `copy I K`, `bare I K` or `entry TEXT`",
);

pub(crate) const ONE_CLOCK: Rule = Rule(
    "a run has one clock at most, which gives a moment or more",
);

pub(crate) const NO_SUCH_PRINTS: Rule = Rule(
    "prints stands alone, or before `a front of`, `first` or `last`",
);

pub(crate) const NO_MARK: Rule = Rule(
    "a mark stands before run, wordless, refused, accepted, unread or broken",
);

pub(crate) const NO_SUCH_LINE: Rule = Rule(
    "a line of a file is line, control, data, full control or full data, perhaps behind `unended` or `COUNT x`",
);

pub(crate) const BAD_REPEAT: Rule = Rule(
    "repeat has a count and an end, and none stands in another",
);

pub(crate) const NO_SUCH_FIELD: Rule = Rule("a field is written NAME=TEXT, and its record has it");

pub(crate) const FIELD_TOO_LONG: Rule = Rule("the text is longer than its field");

pub(crate) const NOT_UTF8: Rule = Rule("a word is UTF-8");
