//! The rules of case files that this program has beside the form.

use case_form::Rule;

pub(crate) const NO_SUCH_ITEM: Rule = Rule("an item is one that the program has");

pub(crate) const NO_SUCH_NUMBER: Rule = Rule("a number is one that its item may have");

pub(crate) const NO_MODEL: Rule = Rule("the text is a model");
