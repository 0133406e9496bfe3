//! What keeps a model from coming into force.

/// What keeps a model from coming into force at a system, in the order in which all systems are asked for it.
#[derive(Clone, Copy)]
pub(crate) enum Bar {
    /// It does not keep a part of the model in force.
    Unkept,
    /// Documents wait to be dispatched, by rows of the model in force.
    Waiting,
    /// The volume has no room for the record that brings it.
    Full,
}
