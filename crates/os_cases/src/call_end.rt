//! Why an item asks for no call, or what is told of its call is not made.

use crate::rules;
use ale_base::OutOfMemory;
use case_form::{CaseFault, LineEnd, Rule};
use std::alloc::{AllocError, AllocFailed};

/// The rule that an item breaks.
#[derive(Clone, Copy)]
pub(crate) enum Broken {
    NoSuchItem,
    /// A number or a text that is none by the form of cases.
    Form,
    Path,
    Piece,
    Volume,
    Reopened,
}

/// Why nothing is told of an item.
#[derive(Clone, Copy)]
pub(crate) enum CallEnd {
    Broken(Broken),
    OutOfMemory,
}

/// Why the steps of a case are not made: the item in this line asks for no call, or memory ran out.
#[derive(Clone, Copy)]
pub(crate) enum StepsEnd {
    Malformed { line: u32, broken: Broken },
    OutOfMemory,
}

impl CallEnd {
    /// The end of a call, at the line of this number.
    pub(crate) fn at(self, line: u32) -> StepsEnd {
        match self {
            CallEnd::Broken(broken) => StepsEnd::Malformed { line, broken },
            CallEnd::OutOfMemory => StepsEnd::OutOfMemory,
        }
    }
}

impl StepsEnd {
    /// The end as the form of cases tells it.
    pub(crate) fn told(self) -> CaseFault {
        match self {
            StepsEnd::Malformed { line, broken } => CaseFault::Malformed {
                line,
                rule: broken.rule(),
            },
            StepsEnd::OutOfMemory => CaseFault::OutOfMemory,
        }
    }
}

impl Broken {
    /// The rule, as it is printed.
    fn rule(self) -> Rule {
        match self {
            Broken::NoSuchItem => rules::NO_SUCH_ITEM,
            Broken::Form => rules::BAD_FORM,
            Broken::Path => rules::BAD_PATH,
            Broken::Piece => rules::BAD_PIECE,
            Broken::Volume => rules::BAD_VOLUME,
            Broken::Reopened => rules::REOPENED,
        }
    }
}

impl From<Broken> for CallEnd {
    fn from(broken: Broken) -> CallEnd {
        CallEnd::Broken(broken)
    }
}

impl From<LineEnd> for CallEnd {
    fn from(end: LineEnd) -> CallEnd {
        match end {
            LineEnd::Broken(_) => CallEnd::Broken(Broken::Form),
            LineEnd::OutOfMemory => CallEnd::OutOfMemory,
        }
    }
}

impl From<OutOfMemory> for CallEnd {
    fn from(_short: OutOfMemory) -> CallEnd {
        CallEnd::OutOfMemory
    }
}

impl From<AllocError> for CallEnd {
    fn from(_error: AllocError) -> CallEnd {
        CallEnd::OutOfMemory
    }
}

impl<T: Drop> From<AllocFailed<T>> for CallEnd {
    fn from(_error: AllocFailed<T>) -> CallEnd {
        CallEnd::OutOfMemory
    }
}
