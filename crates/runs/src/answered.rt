//! How commands are answered.

ghost use Rattle.std.specs.Prelude.{◌≡◌, IfOk};
ghost use Rattle.report_text.specs.Listing.{IsPrintable as IsListingPrintable};
ghost use Rattle.report_text.specs.declared.reply.Reply.TheVariants as Reply;
ghost use Rattle.runs.specs.Does.{plain, refused_as, answer_of, count_of, counted_as, listed_as, one_more};
ghost use Rattle.runs.specs.Text.{IsPrintable};

use crate::Halt;
use report_text::Reply;
use status_log::{Listing, Refusal};

/// How a command is answered: its reply, and what it lists.
#[derive(Drop)]
pub struct Answered {
    /// The reply.
    pub reply: Reply,
    /// What is listed, where something is.
    pub listing: Option<Listing>,
}

/// A reply with nothing listed.
pub(crate) fn plain(reply: Reply) -> Result<Answered, Halt>
    ensures { result ≡ plain reply }
{
    Ok(Answered {
        reply,
        listing: None,
    })
}

/// How a refusal is answered: by its number, or as the fault of a volume; with no memory there is no answer.
pub(crate) fn refused(why: Refusal) -> Result<Answered, Halt>
    ensures answer { result ≡ refused_as why }
    ensures printable { IfOk result IsPrintable }
{
    match why {
        Refusal::Volume => plain(Reply::Fault),
        Refusal::OutOfMemory => Err(Halt::OutOfMemory),
        why => plain(Reply::Refused(why)),
    }
}

/// How a command is answered that was carried out with nothing to tell, or refused.
pub(crate) fn carried(done: Result<(), Refusal>) -> Result<Answered, Halt>
    ensures answer { result ≡ answer_of (λ (none : Unit {0}). Reply.Carried) done }
    ensures printable { IfOk result IsPrintable }
{
    match done {
        Ok(()) => plain(Reply::Carried),
        Err(why) => refused(why),
    }
}

/// How a listing is answered: with the count of its lines.
pub(crate) fn listed(lines: Result<Listing, Refusal>) -> Result<Answered, Halt>
    ensures answer { result ≡ listed_as lines }
    ensures printable { IfOk lines IsListingPrintable → IfOk result IsPrintable }
{
    match lines {
        Ok(listing) => counted(listing),
        Err(why) => refused(why),
    }
}

/// A listing with the count of its lines.
fn counted(listing: Listing) -> Result<Answered, Halt>
    ensures answer { result ≡ counted_as listing (count_of listing) }
    ensures printable { IsListingPrintable listing → IfOk result IsPrintable }
{
    match count_of(&listing) {
        None => Err(Halt::OutOfMemory),
        Some(count) => Ok(Answered {
            reply: Reply::Lines(count),
            listing: Some(listing),
        }),
    }
}

/// How many lines a listing has. None where the number has over 64 bits.
fn count_of(listing: &Listing) -> Option<u64>
    ensures { result ≡ count_of listing.now }
{
    match listing {
        Listing::Docs(lines) => Some(lines.len() as u64),
        Listing::Doc(_, lines) => one_more(lines.len() as u64),
        Listing::History(lines) => Some(lines.len() as u64),
        Listing::Units(lines) => Some(lines.len() as u64),
        Listing::Queues(lines) => Some(lines.len() as u64),
        Listing::Objects(lines) => Some(lines.len() as u64),
    }
}

/// One more, where it has 64 bits.
fn one_more(count: u64) -> Option<u64>
    ensures { result ≡ one_more count }
{
    if count == u64::MAX {
        return None;
    }
    Some(count + 1)
}
