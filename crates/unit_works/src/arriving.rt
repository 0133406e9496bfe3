//! A unit that is shipped arrives at its receiver, once or twice.

ghost use Rattle.std.specs.Prelude.{◌≡◌, Some, true, false, IfOk, OnOk};
ghost use Rattle.std.specs.Result.{is_ok};
ghost use Rattle.unit_core.specs.declared.ale_unit.AleUnit.{AleUnit as UnitOf};
ghost use Rattle.trfc_protocol.specs.Worlds.{committed_unit};
ghost use Rattle.unit_landscape.specs.declared.answers.Arrival.{Arrival as ArrivalOf};
ghost use Rattle.unit_landscape.specs.Calls.{Arrived, stands_out};
ghost use Rattle.document_state.specs.Meaning.{model_meaning};
ghost use Rattle.unit_works.specs.Events.{is_arrival};
ghost use Rattle.unit_works.specs.Finished.{finished_in};
ghost use Rattle.unit_works.specs.Worked.{Worked};
ghost use Rattle.unit_works.specs.steps.Arriving.{ArrivedSo, BeginsNone, BeginsOn, BringsNothing, ClaimsCome, is_twice};

use crate::Letter;
use crate::letters::is_twice;
use ale_base::OutOfMemory;
use ale_volumes::Volumes;
use landscape::Landscape;
use unit_core::AleUnit;
use unit_landscape::{Arrival, OutClaim};

/// The unit of a claim arrives, under a letter that lets it. How it is answered at first: what becomes of it as it arrives twice is dropped.
pub(crate) fn arrive_under<V: Volumes>(
    landscape: &mut Landscape<V>,
    claim: &OutClaim,
    letter: Letter,
) -> Result<Arrival, OutOfMemory>
    requires stands { stands_out landscape.old.world claim.now ≡ true }
    ensures went { Worked V.disk landscape.old landscape.new is_arrival (is_ok result) }
    ensures finished { OnOk result (finished_in landscape.new.world ≡ finished_in landscape.old.world) }
    ensures claims { IfOk result (ClaimsCome landscape.old.world landscape.new.world) }
    ensures run { IfOk result (BeginsOn claim.now.tid) }
    ensures grew { IfOk result (λ given. (unit : UnitOf)
        → committed_unit (model_meaning landscape.old.world.rules.systems) landscape.old.world claim.now.tid ≡ Some unit
        → ArrivedSo (model_meaning landscape.old.world.rules.systems) landscape.old landscape.new unit given) }
{
    let unit = unit_of(landscape, claim)?;
    let first = arrive(landscape, claim, &unit)?;
    arrive_again(landscape, claim, &unit, letter)?;
    Ok(first)
}

/// A copy of the unit of a claim.
fn unit_of<V: Volumes>(landscape: &Landscape<V>, claim: &OutClaim) -> Result<AleUnit, OutOfMemory>
    requires stands { stands_out landscape.now.world claim.now ≡ true }
    ensures { IfOk result (λ unit.
        committed_unit (model_meaning landscape.now.world.rules.systems) landscape.now.world claim.now.tid ≡ Some unit) }
{
    let _ = landscape.world();
    match landscape.unit(claim.tid()) {
        Some(unit) => Ok(unit.clone()?),
        // A claim is one on a unit that was committed.
        None => unreachable!(),
    }
}

/// The unit of a claim arrives.
fn arrive<V: Volumes>(
    landscape: &mut Landscape<V>,
    claim: &OutClaim,
    unit: &AleUnit,
) -> Result<Arrival, OutOfMemory>
    requires stands { stands_out landscape.old.world claim.now ≡ true }
    requires committed { committed_unit (model_meaning landscape.old.world.rules.systems) landscape.old.world claim.now.tid ≡ Some unit.now }
    ensures went { Worked V.disk landscape.old landscape.new is_arrival (is_ok result) }
    ensures finished { OnOk result (finished_in landscape.new.world ≡ finished_in landscape.old.world) }
    ensures arrived { IfOk result (Arrived (model_meaning landscape.old.world.rules.systems) V.disk landscape.old landscape.new unit.now) }
    ensures claims { IfOk result (ClaimsCome landscape.old.world landscape.new.world) }
    ensures run { IfOk result (BeginsOn unit.now.tid) }
    ensures grew { IfOk result (ArrivedSo (model_meaning landscape.old.world.rules.systems) landscape.old landscape.new unit.now) }
    ensures none { IfOk result (λ given. BringsNothing (model_meaning landscape.old.world.rules.systems) landscape.old.world claim.now unit.now
        → BeginsNone given) }
    ensures again { OnOk result (stands_out landscape.new.world claim.now ≡ true
        → BringsNothing (model_meaning landscape.new.world.rules.systems) landscape.new.world claim.now unit.now) }
{
    let _ = landscape.world();
    landscape.arrive(unit)
}

/// The unit of a claim arrives once more, where it does so under a letter and its claim still stands. Its answer is dropped.
fn arrive_again<V: Volumes>(
    landscape: &mut Landscape<V>,
    claim: &OutClaim,
    unit: &AleUnit,
    letter: Letter,
) -> Result<(), OutOfMemory>
    requires again { stands_out landscape.old.world claim.now ≡ true
        → BringsNothing (model_meaning landscape.old.world.rules.systems) landscape.old.world claim.now unit.now }
    ensures went { Worked V.disk landscape.old landscape.new is_arrival (is_ok result) }
    ensures finished { OnOk result (finished_in landscape.new.world ≡ finished_in landscape.old.world) }
    ensures same { OnOk result (landscape.new ≡ landscape.old) }
    ensures arrived { OnOk result (is_twice letter ≡ true → stands_out landscape.old.world claim.now ≡ true
        → (given : ArrivalOf) × Arrived (model_meaning landscape.old.world.rules.systems) V.disk landscape.old landscape.new unit.now given) }
{
    if is_twice(letter) && landscape.holds(claim) {
        let _second = arrive(landscape, claim, unit)?;
    }
    Ok(())
}
