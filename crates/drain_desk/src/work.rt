//! What a worker takes from the desk, and what it prepares for it.

use crate::Began;
use crate::claiming::Offer;
use ale_base::{SystemNo, Tid};
use ale_volumes::Volumes;
use dist_model::Model as DistModel;
use inbound_post::Prepared;
use std::marker::Model;
use std::snapshot::Snapshot;
use std::sync::Arc;
use unit_core::AleUnit;
use unit_landscape::{InClaim, OutClaim};

/// What is to be done.
#[derive(Drop)]
pub(crate) enum Task {
    /// The unit of this claim is to be shipped.
    Ship(OutClaim),
    /// The unit of this claim is to be executed.
    Execute(InClaim),
}

/// A unit, and the model by which its receiver works.
#[derive(Drop)]
pub(crate) struct Basis {
    pub(crate) unit: AleUnit,
    pub(crate) model: Arc<DistModel>,
}

/// A work of a drain, with what it is prepared from.
#[derive(Drop)]
pub struct Work<V: Volumes> {
    pub(crate) offer: Offer,
    pub(crate) origin: Snapshot<Began<V>>,
}

impl<V: Volumes> Model for Work<V> {
    ghost use Rattle.drain_desk.specs.Work.{SeenWork, IsWork};

    ghost Value = { SeenWork V };

    ghost view = { λ work. record { task = work.offer.task; basis = work.offer.basis; origin = work.origin.value } };

    ghost invariant = { λ work. IsWork work.origin.value work.offer.task work.offer.basis };
}

/// What a worker has prepared for a work: what becomes of the documents of its unit, where that is wanted.
#[derive(Drop)]
pub struct Ready {
    pub(crate) prepared: Option<Prepared>,
}

impl Task {
    ghost use Rattle.std.specs.Prelude.{◌≡◌};
    ghost use Rattle.drain_desk.specs.Work.{name_of};

    /// The system and the unit of the task.
    pub(crate) fn name(&self) -> (SystemNo, Tid)
        ensures { result ≡ name_of self.now }
    {
        match self {
            Task::Ship(claim) => (claim.tid().system(), claim.tid()),
            Task::Execute(claim) => (claim.system(), claim.tid()),
        }
    }
}
