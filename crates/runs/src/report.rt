//! The text of a command.

ghost use Rattle.std.specs.Prelude.{◌≡◌, ◌++◌, IfOk, OnOk};
ghost use Rattle.runs.specs.Text.{IsListedPrintable, IsPrintable, listed_text, shown};

use crate::lengths::log_lengths;
use crate::{Answered, Stage};
use ale_base::OutOfMemory;
use ale_volumes::Volumes;
use report_text::{listing_lines, reply_line};
use script_text::Command;
use status_log::Listing;
use std::alloc::Global;

/// What is printed of a command that was answered so, and left this.
pub(crate) fn shown<V: Volumes>(
    alloc: Global,
    command: &Command,
    answered: &Answered,
    after: &Stage<V>,
) -> Result<Vec<u8>, OutOfMemory>
    requires { IsPrintable answered.now }
    ensures { IfOk result (λ text. text.items ≡ shown command.now answered.now after.now) }
{
    let world = after.landscape.world();
    let lengths = log_lengths(alloc, world.systems.as_slice())?;
    let mut text = Vec::new(alloc);
    let verb = command.form.verb();
    reply_line(
        alloc,
        command.line,
        verb,
        &answered.reply,
        lengths.as_slice(),
        &mut text,
    )?;
    put_listing(alloc, &answered.listing, &mut text)?;
    Ok(text)
}

/// Appends the lines of a listing, where there is one.
fn put_listing(
    alloc: Global,
    listing: &Option<Listing>,
    text: &mut Vec<u8>,
) -> Result<(), OutOfMemory>
    requires { IsListedPrintable listing.now }
    ensures { OnOk result (text.new.items ≡ text.old.items ++ listed_text listing.now) }
{
    match listing {
        None => Ok(()),
        Some(lines) => listing_lines(alloc, lines, text),
    }
}
