//! The clauses of the law, and their names.

/// A clause of the exactly-once law.
#[derive(Clone, Copy)]
pub(crate) enum Clause {
    TakenOnce,
    TakenWasCommitted,
    TakenInOrder,
    ExecutedInOrder,
    DoneWasTaken,
    ForgottenWasDone,
    EndedWasForgotten,
}

impl Clause {
    pub(crate) const ALL: [Clause; 7] = [
        Clause::TakenOnce,
        Clause::TakenWasCommitted,
        Clause::TakenInOrder,
        Clause::ExecutedInOrder,
        Clause::DoneWasTaken,
        Clause::ForgottenWasDone,
        Clause::EndedWasForgotten,
    ];

    pub(crate) fn name(self) -> &'static [u8] {
        match self {
            Clause::TakenOnce => b"taken once",
            Clause::TakenWasCommitted => b"taken was committed",
            Clause::TakenInOrder => b"taken in order",
            Clause::ExecutedInOrder => b"executed in order",
            Clause::DoneWasTaken => b"done was taken",
            Clause::ForgottenWasDone => b"forgotten was done",
            Clause::EndedWasForgotten => b"ended was forgotten",
        }
    }
}
