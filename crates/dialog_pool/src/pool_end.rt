//! How a pool ends.

/// A pool found no more works.
#[derive(Drop)]
pub struct PoolEnd<D> {
    /// The desk that was handed in.
    pub desk: D,
    /// How many works were finished.
    pub finished: u64,
}

/// Memory was wanting in a pool. What was done before is done.
#[derive(Drop)]
pub struct PoolShort<D> {
    /// The desk that was handed in.
    pub desk: D,
}
