//! The command that replaces the model.

ghost use Rattle.std.specs.Prelude.{◌≡◌, ◌≤◌, ℕ, List, Some, [], IfOk, length};
ghost use Rattle.std.specs.Arc.{arc_value};
ghost use Rattle.unit_landscape.specs.declared.beginning.TheConstants.{MOST_TEXT};
ghost use Rattle.said_models.specs.Said.{said};
ghost use Rattle.trfc_protocol.specs.declared.world.SystemState.{SystemState as StateOf};
ghost use Rattle.landscape.specs.Crashes.{GoesSoundly};
ghost use Rattle.model_files.specs.Words.{words_of};
ghost use Rattle.runs.specs.Does.{IsBrought, Remodels, ToldUnread};
ghost use Rattle.runs.specs.Remodels.{RemodelledAs};
ghost use Rattle.runs.specs.Text.{IsPrintable};
ghost use Rattle.runs.specs.Turns.{first_down};

use crate::answered::{plain, refused};
use crate::lengths::first_down;
use crate::{Answered, Halt, Stage};
use ale_base::{Items, SystemNo};
use ale_io::Files;
use ale_volumes::Volumes;
use dist_model::Model;
use landscape::Landscape;
use model_files::{ModelFile, ModelFileEnd, read};
use report_text::Reply;
use script_text::FileName;
use status_log::Refusal;
use std::alloc::Global;
use std::sync::Arc;
use trfc_protocol::Rules;

/// `remodel`: the model that a file says comes into force at all systems. The file is read when the command comes, and only where all
/// systems are up.
pub(super) fn remodel<V: Volumes, F: Files>(
    alloc: Global,
    stage: &mut Stage<V>,
    files: &mut F,
    file: &FileName,
) -> Result<Answered, Halt>
    ensures does { Remodels V.disk stage.old result stage.new (first_down stage.old.landscape.world) (F.told files.old file.now)
        (F.faults files.old) (F.faults files.new) }
    ensures calls { GoesSoundly V.disk stage.old.landscape stage.new.landscape }
    ensures printable { IfOk result IsPrintable }
    ensures kept { (name : List ℕ) → F.told files.new name ≡ F.told files.old name }
    ensures counted { F.faults files.old ≤ F.faults files.new }
{
    if first_down(stage.landscape.world().systems.as_slice()).is_some() {
        return refused(Refusal::N2);
    }
    match read(alloc, file.as_str(), files) {
        Err(why) => unread(alloc, &why),
        Ok(file) => bring(stage, &file),
    }
}

/// It is told why a file says no model.
fn unread(alloc: Global, why: &ModelFileEnd) -> Result<Answered, Halt>
    ensures told { ToldUnread (words_of why.now) result }
    ensures printable { IfOk result IsPrintable }
{
    let words = why.words(alloc)?;
    plain(Reply::Refused(Refusal::N14(Items::from_vec(words))))
}

/// The model of a file comes into force at all systems, once no claim stands.
fn bring<V: Volumes>(stage: &mut Stage<V>, file: &ModelFile) -> Result<Answered, Halt>
    requires says { said file.now.text ≡ Some (arc_value file.now.model) }
    requires short { length file.now.text ≤ MOST_TEXT }
    ensures does { IsBrought V.disk stage.old result stage.new file.now.text (arc_value file.now.model) }
    ensures calls { GoesSoundly V.disk stage.old.landscape stage.new.landscape }
    ensures printable { IfOk result IsPrintable }
{
    let _ = stage.landscape.world();
    stage.landscape.revoke();
    match take_all(&mut stage.landscape, &file.model, file.text.as_slice()) {
        Ok(count) => plain(Reply::Models(count)),
        Err(why) => refused(why),
    }
}

/// A model comes into force at each system at which another text is in force, one after the other. It answers how many there were.
fn take_all<V: Volumes>(
    landscape: &mut Landscape<V>,
    model: &Arc<Model>,
    text: &[u8],
) -> Result<u64, Refusal>
    requires says { said text.now ≡ Some (arc_value model.now) }
    requires short { length text.now ≤ MOST_TEXT }
    requires unclaimed { landscape.old.world.claims ≡ [] }
    ensures ends { RemodelledAs V.disk text.now (arc_value model.now) landscape.old landscape.new result }
    ensures calls { GoesSoundly V.disk landscape.old landscape.new }
{
    landscape.may_remodel(model, text)?;
    let mut count = 0;
    for number in 0..landscape.world().rules.systems() {
        let Some(system) = SystemNo::of(number + 1) else {
            // There are 16 systems at most.
            unreachable!()
        };
        let _ = landscape.world();
        // `may_remodel` said that no system refuses it.
        if landscape.remodel(system, model, text)? {
            count += 1;
        }
    }
    Ok(count)
}
