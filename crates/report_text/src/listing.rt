//! The lines of listings.

ghost use Rattle.std.specs.Prelude.{◌≡◌, ◌++◌, OnOk, OnErr, IfOk};
ghost use Rattle.report_text.specs.Listing.{IsPrintable, listing_lines};

use crate::docs::{put_docs, put_document};
use crate::history::put_history;
use crate::objects::put_objects;
use crate::put::put;
use crate::queues::put_queues;
use crate::units::put_units;
use ale_base::OutOfMemory;
use status_log::Listing;
use std::alloc::Global;

/// Appends the lines of a listing, each of which begins with two blanks. The segments of a document are numbered below
/// 1,000,000, and their levels are below 100. The codes of statuses are below 100, or what is printed of them are no
/// digits. After an `Err` nothing was appended.
pub fn listing_lines(
    alloc: Global,
    listing: &Listing,
    into: &mut Vec<u8>,
) -> Result<(), OutOfMemory>
    requires printable { IsPrintable listing.now }
    ensures written { OnOk result (into.new.items ≡ into.old.items ++ listing_lines listing.now) }
    ensures err { OnErr result (into.new.items ≡ into.old.items) }
{
    let text = listing_text(alloc, listing)?;
    put(into, text.as_slice())
}

/// The lines of a listing.
fn listing_text(alloc: Global, listing: &Listing) -> Result<Vec<u8>, OutOfMemory>
    requires { IsPrintable listing.now }
    ensures { IfOk result (λ text. text.items ≡ listing_lines listing.now) }
{
    let mut text = Vec::new(alloc);
    put_listing(alloc, &mut text, listing)?;
    Ok(text)
}

fn put_listing(alloc: Global, text: &mut Vec<u8>, listing: &Listing) -> Result<(), OutOfMemory>
    requires { IsPrintable listing.now }
    ensures { OnOk result (text.new.items ≡ text.old.items ++ listing_lines listing.now) }
{
    match listing {
        Listing::Docs(lines) => put_docs(alloc, text, lines.as_slice()),
        Listing::Doc(control, lines) => put_document(alloc, text, control, lines.as_slice()),
        Listing::History(lines) => put_history(alloc, text, lines.as_slice()),
        Listing::Units(lines) => put_units(text, lines.as_slice()),
        Listing::Queues(lines) => put_queues(alloc, text, lines.as_slice()),
        Listing::Objects(lines) => put_objects(text, lines.as_slice()),
    }
}
