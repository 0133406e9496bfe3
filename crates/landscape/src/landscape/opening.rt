//! A landscape is opened over volumes: each is read as the log of its system, then the logs are looked at together, and then each system
//! whose log is empty begins with its Genesis.

ghost use Rattle.std.specs.Prelude.{◌≡◌, ◌≤◌, ◌<◌, ◌-◌, ℕ, suc, [], length, Some, Option, IfOk, OnOk};
ghost use Rattle.std.specs.Arc.{arc_value};
ghost use Rattle.said_models.specs.Said.{said};
ghost use Rattle.unit_landscape.specs.declared.beginning.TheConstants.{MOST_TEXT};
ghost use Rattle.trfc_protocol.specs.Worlds.{log_of};
ghost use Rattle.unit_landscape.specs.Beginning.{HaveBegun};
ghost use Rattle.landscape.specs.steps.Opening.{AreBegunSoFar, AreOpened, BeginsAs, BeginsNext, IsReadBy, IsUpBy, OpensAs, begun_of, rules_of};

use super::Landscape;
use crate::open_end::{OpenEnd, OpenWhy, Refused, why_begun, why_opened};
use ale_base::{Items, SystemNo};
use ale_volumes::Volumes;
use dist_model::Model;
use document_state::{DocumentTables, Made, ModelRules};
use log_reading::read_log;
use said_models::Readings;
use std::alloc::Global;
use std::sync::Arc;
use system_tables::SystemTables;
use unit_landscape::{BeginEnd, KeptWorld, NotOpened, OpenedVolume, Opening, begin, reopened};

/// The logs, claims and tables of a landscape, over its volumes.
type Kept<V> = KeptWorld<ModelRules, DocumentTables, V>;

/// The systems of a landscape whose volumes are read so far.
type Read<V> = Opening<ModelRules, DocumentTables, V>;

/// The volume of the next system, with the log that it holds.
type Volume<V> = OpenedVolume<ModelRules, DocumentTables, V>;

impl<V: Volumes> Landscape<V> {
    ghost use Rattle.std.specs.Prelude.{◌≡◌, ◌≤◌, Some, length, IfOk};
    ghost use Rattle.std.specs.Arc.{arc_value};
    ghost use Rattle.said_models.specs.Said.{said};
    ghost use Rattle.unit_landscape.specs.declared.beginning.TheConstants.{MOST_TEXT};
    ghost use Rattle.landscape.specs.Crashes.{OpeningLeavesOpenable};
    ghost use Rattle.landscape.specs.Opened.{FaultsOpened, HasEndedEarly, HasOpened, HoldSoundLogs, IsNotRefused, LeavesOpening, WhyOpened, bytes_in, vols_after};

    /// Opens the landscape of the systems of a model, over volumes: system i on volume i - 1. Each goes on from the log that its volume
    /// holds; where that is empty it begins with a Genesis of the model's text, which has at most `MOST_TEXT` bytes. Records are written
    /// with this moment, in seconds since the beginning of 1970 in UTC, until another one is set.
    ///
    /// An `Err` gives the volumes back. `Refused` comes exactly where a volume holds no log of its system and of this text, each record
    /// good behind those before it, and tells the first by systems; or where the logs together do not keep the exactly-once law, and tells
    /// the first breach. No system has begun then. `Volume` comes only where a call on one of the volumes failed, as the count of its
    /// faults tells, and those of the systems before it hold logs; `OutOfMemory` where a request for memory was refused.
    pub fn open(
        alloc: Global,
        model: Arc<Model>,
        text: Items<u8>,
        vols: V,
        moment: u64,
    ) -> Result<Landscape<V>, OpenEnd<V>>
        requires said { said text ≡ Some (arc_value model) }
        requires short { length text ≤ MOST_TEXT }
        ensures opened { IfOk result (HasOpened V.disk (length (arc_value model).systems) text (Some moment) vols) }
        ensures why { WhyOpened V.disk (length (arc_value model).systems) text (Some moment) vols (vols_after result) result }
        ensures faults { FaultsOpened V.disk (length (arc_value model).systems) text vols (vols_after result) result }

        // Volumes that hold good logs of these systems and of this text, which keep the exactly-once law, are never refused.
        ensures not_refused { V.disk.told → HoldSoundLogs (length (arc_value model).systems) text (bytes_in V.disk vols) → IsNotRefused result }

        // A crash at any moment of the call leaves of each volume what was handed in, or what reads as it; from some moment on only the
        // latter. Of one that stood for the empty log it may leave the Genesis of its system alone, but only where the volumes of all
        // systems hold sound logs, and are not refused. Volumes behind those of the systems are not called.
        ensures volumes { V.disk.told → LeavesOpening V.disk (length (arc_value model).systems) text (Some moment) vols (vols_after result)
            (IsNotRefused result × HoldSoundLogs (length (arc_value model).systems) text (bytes_in V.disk vols)) (HasEndedEarly result) }

        // So whatever it leaves of all volumes together holds sound logs, where whatever a crash left of them before the call does.
        ensures opens { OpeningLeavesOpenable V.disk (length (arc_value model).systems) text vols (vols_after result) }
    {
        let systems = model.as_lists().systems.len() as u8;
        let kept = begin_over(alloc, &model, systems, text.as_slice(), Some(moment), vols)?;
        Ok(Landscape::new(alloc, reopened(alloc, kept)))
    }
}

/// Reads the volumes of so many systems as logs that keep the exactly-once law, and begins each system whose log is empty.
fn begin_over<V: Volumes>(
    alloc: Global,
    model: &Arc<Model>,
    systems: u8,
    text: &[u8],
    moment: Option<u64>,
    vols: V,
) -> Result<Kept<V>, OpenEnd<V>>
    requires said { said text.now ≡ Some (arc_value model.now) }
    requires least { 1 ≤ systems }
    requires most { systems ≤ 16 }
    requires short { length text.now ≤ MOST_TEXT }
    ensures begun { IfOk result (λ kept. HaveBegun rules_of systems kept.world) }
    ensures ends { BeginsAs V.disk systems text.now moment vols systems result }
{
    let opening = read_all(alloc, systems, text, moment, vols)?;
    let kept = keep_once(opening, systems, text)?;
    begin_all(alloc, kept, model, systems, text)
}

// ---- the volumes are read

/// Reads the volumes of so many systems.
fn read_all<V: Volumes>(
    alloc: Global,
    systems: u8,
    text: &[u8],
    moment: Option<u64>,
    vols: V,
) -> Result<Read<V>, OpenEnd<V>>
    requires least { 1 ≤ systems }
    requires most { systems ≤ 16 }
    ensures { OpensAs V.disk systems text.now moment vols systems result }
{
    let mut known = Readings::new(alloc);
    let mut opening = Opening::new(alloc, ModelRules::new(systems), moment, vols);
    for number in 0..systems {
        opening = read_next(alloc, &mut known, system_at(number), text, opening)?;
    }
    Ok(opening)
}

/// Reads the volume of the next system, which is up with its log.
fn read_next<V: Volumes>(
    alloc: Global,
    known: &mut Readings,
    system: SystemNo,
    text: &[u8],
    opening: Read<V>,
) -> Result<Read<V>, OpenEnd<V>>
    requires next { length opening.world.systems < opening.world.rules.systems }
    requires number { system ≡ suc (length opening.world.systems) }
    ensures { (set : Option ℕ) (before : V)
        → AreOpened V.disk opening.world.rules.systems text.now set before (length opening.world.systems) opening
        → OpensAs V.disk opening.world.rules.systems text.now set before (suc (length opening.world.systems)) result }
{
    match opening.open_volume() {
        Ok(volume) => up_if_good(alloc, known, system, text, volume),
        Err(NotOpened { why, vols }) => Err(OpenEnd {
            why: why_opened(system, why),
            vols,
        }),
    }
}

/// The system of a volume is up with the log that it holds, or why that is no log of this system.
fn up_if_good<V: Volumes>(
    alloc: Global,
    known: &mut Readings,
    system: SystemNo,
    text: &[u8],
    volume: Volume<V>,
) -> Result<Read<V>, OpenEnd<V>>
    requires number { system ≡ suc (length volume.kept.world.systems) }
    ensures { IsUpBy text.now volume result }
{
    match read_volume(alloc, known, system, text, &volume) {
        Ok(tables) => match volume.up(tables) {
            Ok(next) => Ok(next),
            Err(NotOpened { vols, .. }) => Err(OpenEnd {
                why: OpenWhy::OutOfMemory,
                vols,
            }),
        },
        Err(why) => Err(OpenEnd {
            why,
            vols: volume.refuse(),
        }),
    }
}

/// The tables of the log that a volume holds, or why it is no log of its system.
fn read_volume<V: Volumes>(
    alloc: Global,
    known: &mut Readings,
    system: SystemNo,
    text: &[u8],
    volume: &Volume<V>,
) -> Result<SystemTables<DocumentTables>, OpenWhy>
    requires number { system ≡ suc (length (volume.now).kept.world.systems) }
    ensures { IsReadBy text.now volume.now result }
{
    let application = DocumentTables::new(alloc);
    let read = read_log(
        alloc,
        volume.rules(),
        known,
        system,
        text,
        application,
        volume.moments(),
        volume.log(),
    );
    match read {
        Ok(Ok(its)) => Ok(its.into_tables()),
        Ok(Err(bad)) => Err(OpenWhy::Refused(Refused::Bad { system, bad })),
        Err(_) => Err(OpenWhy::OutOfMemory),
    }
}

// ---- the logs are looked at together

/// The systems of so many, whose logs keep the exactly-once law.
fn keep_once<V: Volumes>(opening: Read<V>, systems: u8, text: &[u8]) -> Result<Kept<V>, OpenEnd<V>>
    requires all { length opening.world.systems ≡ opening.world.rules.systems }
    ensures begun { IfOk result (λ kept. HaveBegun rules_of 0 kept.world) }
    ensures ends { (set : Option ℕ) (before : V)
        → AreOpened V.disk systems text.now set before systems opening
        → BeginsAs V.disk systems text.now set before 0 result }
{
    let _text = text;
    let _systems = systems;
    match opening.breach() {
        Ok(None) => Ok(opening.into_kept()),
        Ok(Some(breach)) => Err(OpenEnd {
            why: OpenWhy::Refused(Refused::Breach(breach)),
            vols: opening.into_volumes(),
        }),
        Err(_) => Err(OpenEnd {
            why: OpenWhy::OutOfMemory,
            vols: opening.into_volumes(),
        }),
    }
}

// ---- the systems begin

/// Each system whose log is empty begins with a Genesis of this text.
fn begin_all<V: Volumes>(
    alloc: Global,
    kept: Kept<V>,
    model: &Arc<Model>,
    systems: u8,
    text: &[u8],
) -> Result<Kept<V>, OpenEnd<V>>
    requires said { said text.now ≡ Some (arc_value model.now) }
    requires most { systems ≤ 16 }
    requires short { length text.now ≤ MOST_TEXT }
    requires all { kept.world.rules.systems ≡ systems }
    requires begun { HaveBegun rules_of 0 kept.world }
    ensures begun { IfOk result (λ kept. HaveBegun rules_of systems kept.world) }
    ensures ends { (set : Option ℕ) (before : V)
        → AreBegunSoFar V.disk systems text.now set before 0 kept
        → BeginsAs V.disk systems text.now set before systems result }
{
    let mut kept = kept;
    for number in 0..systems {
        match begin_next(alloc, &mut kept, model, system_at(number), text) {
            Ok(()) => {}
            Err(why) => {
                return Err(OpenEnd {
                    why,
                    vols: kept.into_volumes(),
                });
            }
        }
    }
    Ok(kept)
}

/// The next system, behind those before it, begins if its log is empty.
fn begin_next<V: Volumes>(
    alloc: Global,
    kept: &mut Kept<V>,
    model: &Arc<Model>,
    system: SystemNo,
    text: &[u8],
) -> Result<(), OpenWhy>
    requires said { said text.now ≡ Some (arc_value model.now) }
    requires short { length text.now ≤ MOST_TEXT }
    requires within { system ≤ kept.old.world.rules.systems }
    requires so_far { HaveBegun rules_of (system - 1) kept.old.world }
    ensures rules { OnOk result (kept.new.world.rules ≡ kept.old.world.rules) }
    ensures begun { OnOk result (HaveBegun rules_of system kept.new.world) }
    ensures ends { (many : ℕ) (set : Option ℕ) (before : V) → system ≤ many
        → AreBegunSoFar V.disk many text.now set before (system - 1) kept.old
        → BeginsNext V.disk many text.now set before system kept.new result }
{
    let _number = system.get();
    if kept.log(system).is_empty() {
        begin_empty(alloc, kept, model, system, text)
    } else {
        Ok(())
    }
}

/// A system whose log is empty begins.
fn begin_empty<V: Volumes>(
    alloc: Global,
    kept: &mut Kept<V>,
    model: &Arc<Model>,
    system: SystemNo,
    text: &[u8],
) -> Result<(), OpenWhy>
    requires said { said text.now ≡ Some (arc_value model.now) }
    requires short { length text.now ≤ MOST_TEXT }
    requires within { system ≤ kept.old.world.rules.systems }
    requires so_far { HaveBegun rules_of (system - 1) kept.old.world }
    requires empty { log_of kept.old.world system ≡ [] }
    ensures rules { OnOk result (kept.new.world.rules ≡ kept.old.world.rules) }
    ensures begun { OnOk result (HaveBegun rules_of system kept.new.world) }
    ensures ends { (many : ℕ) (set : Option ℕ) (before : V) → system ≤ many
        → AreBegunSoFar V.disk many text.now set before (system - 1) kept.old
        → BeginsNext V.disk many text.now set before system kept.new result }
{
    let _number = system.get();
    let Ok(text) = Items::from_slice(alloc, text) else {
        return Err(OpenWhy::OutOfMemory);
    };
    let Ok(model) = Arc::try_clone(model) else {
        return Err(OpenWhy::OutOfMemory);
    };
    begun_as(begin(kept, system, text, Made::Brought(Some(model))))
}

/// That a system has begun, or why no landscape is opened.
fn begun_as(end: Result<(), BeginEnd>) -> Result<(), OpenWhy>
    ensures { result ≡ begun_of end }
{
    match end {
        Ok(()) => Ok(()),
        Err(end) => Err(why_begun(end)),
    }
}

/// The system at a place, counted from 0.
fn system_at(place: u8) -> SystemNo
    requires { place < 16 }
    ensures { result ≡ suc place }
{
    let Some(system) = SystemNo::of(place + 1) else {
        // There are 16 systems at most.
        unreachable!();
    };
    system
}
