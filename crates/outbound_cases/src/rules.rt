//! The rules of case files that this program has beside the form.

use case_form::Rule;

pub(crate) const NO_SUCH_ITEM: Rule = Rule("an item is one that the program has");

pub(crate) const NO_SUCH_NUMBER: Rule = Rule("a number is one that its item may have");

pub(crate) const NO_SUCH_TEXT: Rule = Rule("a text is one of the folder");

pub(crate) const NO_MODEL: Rule = Rule("the text is a model");

pub(crate) const NO_RECORD: Rule = Rule("a record has a name that a data record may have");

pub(crate) const NO_DOCUMENT: Rule = Rule("records make a document");
