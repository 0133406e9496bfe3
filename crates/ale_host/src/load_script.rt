//! The script of a load.

ghost use Rattle.std.specs.Prelude.{◌≡◌, ◌<◌, ◌++◌, IfOk, OnOk};
ghost use Rattle.std.specs.Fmt.{decimal};
ghost use Rattle.ale_host.specs.Load.{command, commands, script};

use crate::load_text::{put, put_number};
use ale_base::{Items, OutOfMemory};
use std::alloc::Global;

/// The script of a load of so many masters: each document is sent from CORE once, in order, and then the systems are drained.
pub(crate) fn load_script(alloc: Global, count: u32) -> Result<Items<u8>, OutOfMemory>
    ensures { IfOk result (λ text. text ≡ script count) }
{
    let mut text = Vec::new(alloc);
    put_commands(alloc, &mut text, count)?;
    put(&mut text, b"drain\n")?;
    Ok(Items::from_vec(text))
}

/// Appends the commands that send so many documents.
#[tactic(auto, unfolding(crate::specs::Load::commands))]
fn put_commands(alloc: Global, text: &mut Vec<u8>, count: u32) -> Result<(), OutOfMemory>
    ensures { OnOk result (text.new.items ≡ text.old.items ++ commands count) }
{
    for place in 0..count {
        put_command(alloc, text, place)?;
    }
    Ok(())
}

/// Appends the command that sends the document of a place from 0.
fn put_command(alloc: Global, text: &mut Vec<u8>, place: u32) -> Result<(), OutOfMemory>
    requires { place < u32.MAX }
    ensures { OnOk result (text.new.items ≡ text.old.items ++ command place) }
{
    put(text, b"send CORE ")?;
    put_number(alloc, text, place + 1)?;
    put(text, b"\n")
}
