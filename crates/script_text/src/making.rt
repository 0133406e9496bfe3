//! What the words of a command say.

ghost use Rattle.std.specs.Prelude.{◌≡◌, ℕ, List, map, drop, IfOk};
ghost use Rattle.script_text.specs.Words.{texts};
ghost use Rattle.script_text.specs.Kinds.{field_value};
ghost use Rattle.script_text.specs.Forms.{word_at, doc_at, change_of, history_said, said, form_of};

use crate::kind::{field_value, number_of};
use crate::shape::Shape;
use crate::{FileName, Form};
use ale_base::{Change, DocNum, FieldValue, Items, OutOfMemory, Tid, Way};
use std::alloc::Global;

/// The command that words are. None exactly where they are none.
pub(crate) fn form_of(alloc: Global, words: &[&[u8]]) -> Result<Option<Form>, OutOfMemory>
    ensures { IfOk result (λ form. form ≡ form_of (texts words.now)) }
{
    match Shape::of(words) {
        Some(shape) => said(alloc, shape, words),
        None => Ok(None),
    }
}

/// What the words of a command of this shape say.
fn said(alloc: Global, shape: Shape, words: &[&[u8]]) -> Result<Option<Form>, OutOfMemory>
    ensures { IfOk result (λ form. form ≡ said shape (texts words.now)) }
{
    match shape {
        Shape::Send => send(alloc, words),
        Shape::Put => put(alloc, words),
        Shape::Gather => gather(alloc, words),
        Shape::Dispatch => dispatch(alloc, words),
        Shape::Drain => Ok(Some(Form::Drain)),
        Shape::Wire => wire(alloc, words),
        Shape::StopOut => stop_out(alloc, words),
        Shape::StopIn => stop_in(alloc, words),
        Shape::StartOut => start_out(alloc, words),
        Shape::StartIn => start_in(alloc, words),
        Shape::Retry => retry(alloc, words),
        Shape::Late => Ok(late(words)),
        Shape::App => app(alloc, words),
        Shape::Repost => repost(alloc, words),
        Shape::Crash => crash(alloc, words),
        Shape::Open => open(alloc, words),
        Shape::Remodel => remodel(alloc, words),
        Shape::ShowDocs => show_docs(alloc, words),
        Shape::ShowDoc => show_doc(alloc, words),
        Shape::ShowHistoryOut => show_history(alloc, Way::Outgoing, words),
        Shape::ShowHistoryIn => show_history(alloc, Way::Incoming, words),
        Shape::ShowUnits => show_units(alloc, words),
        Shape::ShowQueues => show_queues(alloc, words),
        Shape::ShowObjects => show_objects(alloc, words),
    }
}

fn send(alloc: Global, words: &[&[u8]]) -> Result<Option<Form>, OutOfMemory>
    ensures { IfOk result (λ form. form ≡ said Shape.Send (texts words.now)) }
{
    match number_of(word_at(words, 2)) {
        Some(number) => Ok(Some(Form::Send {
            sys: name_at(alloc, words, 1)?,
            number,
        })),
        None => Ok(None),
    }
}

fn put(alloc: Global, words: &[&[u8]]) -> Result<Option<Form>, OutOfMemory>
    ensures { IfOk result (λ form. form ≡ said Shape.Put (texts words.now)) }
{
    let sys = name_at(alloc, words, 1)?;
    let change = change(alloc, words)?;
    Ok(Some(Form::Put { sys, change }))
}

/// The change that a `put` says.
fn change(alloc: Global, words: &[&[u8]]) -> Result<Change, OutOfMemory>
    ensures { IfOk result (λ change. change ≡ change_of (texts words.now)) }
{
    Ok(Change {
        kind: name_at(alloc, words, 2)?,
        key: name_at(alloc, words, 3)?,
        fields: fields(alloc, behind_key(words))?,
    })
}

/// The words behind the first four.
fn behind_key<'a>(words: &'a [&'a [u8]]) -> &'a [&'a [u8]]
    ensures { texts result.now ≡ drop 4 (texts words.now) }
{
    &words[words.len().min(4)..]
}

/// The fields that words say, with their values.
fn fields(alloc: Global, words: &[&[u8]]) -> Result<Items<FieldValue>, OutOfMemory>
    ensures { IfOk result (λ fields. fields ≡ map field_value (texts words.now)) }
{
    let mut fields = Items::new(alloc);
    for word in words {
        fields.push(field_value(alloc, word)?)?;
    }
    Ok(fields)
}

fn gather(alloc: Global, words: &[&[u8]]) -> Result<Option<Form>, OutOfMemory>
    ensures { IfOk result (λ form. form ≡ said Shape.Gather (texts words.now)) }
{
    let sys = name_at(alloc, words, 1)?;
    let message = name_at(alloc, words, 2)?;
    Ok(Some(Form::Gather { sys, message }))
}

fn dispatch(alloc: Global, words: &[&[u8]]) -> Result<Option<Form>, OutOfMemory>
    ensures { IfOk result (λ form. form ≡ said Shape.Dispatch (texts words.now)) }
{
    Ok(Some(Form::Dispatch {
        sys: name_at(alloc, words, 1)?,
    }))
}

fn wire(alloc: Global, words: &[&[u8]]) -> Result<Option<Form>, OutOfMemory>
    ensures { IfOk result (λ form. form ≡ said Shape.Wire (texts words.now)) }
{
    match Tid::read(word_at(words, 1)) {
        Some(tid) => Ok(Some(Form::Wire {
            tid,
            letters: name_at(alloc, words, 2)?,
        })),
        None => Ok(None),
    }
}

fn stop_out(alloc: Global, words: &[&[u8]]) -> Result<Option<Form>, OutOfMemory>
    ensures { IfOk result (λ form. form ≡ said Shape.StopOut (texts words.now)) }
{
    let sys = name_at(alloc, words, 1)?;
    let destination = Some(name_at(alloc, words, 3)?);
    let queue = name_at(alloc, words, 4)?;
    Ok(Some(Form::Stop {
        sys,
        destination,
        queue,
    }))
}

fn stop_in(alloc: Global, words: &[&[u8]]) -> Result<Option<Form>, OutOfMemory>
    ensures { IfOk result (λ form. form ≡ said Shape.StopIn (texts words.now)) }
{
    let sys = name_at(alloc, words, 1)?;
    let queue = name_at(alloc, words, 3)?;
    Ok(Some(Form::Stop {
        sys,
        destination: None,
        queue,
    }))
}

fn start_out(alloc: Global, words: &[&[u8]]) -> Result<Option<Form>, OutOfMemory>
    ensures { IfOk result (λ form. form ≡ said Shape.StartOut (texts words.now)) }
{
    let sys = name_at(alloc, words, 1)?;
    let destination = Some(name_at(alloc, words, 3)?);
    let queue = name_at(alloc, words, 4)?;
    Ok(Some(Form::Start {
        sys,
        destination,
        queue,
    }))
}

fn start_in(alloc: Global, words: &[&[u8]]) -> Result<Option<Form>, OutOfMemory>
    ensures { IfOk result (λ form. form ≡ said Shape.StartIn (texts words.now)) }
{
    let sys = name_at(alloc, words, 1)?;
    let queue = name_at(alloc, words, 3)?;
    Ok(Some(Form::Start {
        sys,
        destination: None,
        queue,
    }))
}

fn retry(alloc: Global, words: &[&[u8]]) -> Result<Option<Form>, OutOfMemory>
    ensures { IfOk result (λ form. form ≡ said Shape.Retry (texts words.now)) }
{
    match Tid::read(word_at(words, 2)) {
        Some(tid) => Ok(Some(Form::Retry {
            sys: name_at(alloc, words, 1)?,
            tid,
        })),
        None => Ok(None),
    }
}

fn late(words: &[&[u8]]) -> Option<Form>
    ensures { result ≡ said Shape.Late (texts words.now) }
{
    match Tid::read(word_at(words, 1)) {
        Some(tid) => Some(Form::Late { tid }),
        None => None,
    }
}

fn app(alloc: Global, words: &[&[u8]]) -> Result<Option<Form>, OutOfMemory>
    ensures { IfOk result (λ form. form ≡ said Shape.App (texts words.now)) }
{
    match doc_at(words, 2) {
        Some(doc) => Ok(Some(Form::App {
            sys: name_at(alloc, words, 1)?,
            doc,
        })),
        None => Ok(None),
    }
}

fn repost(alloc: Global, words: &[&[u8]]) -> Result<Option<Form>, OutOfMemory>
    ensures { IfOk result (λ form. form ≡ said Shape.Repost (texts words.now)) }
{
    match doc_at(words, 2) {
        Some(doc) => Ok(Some(Form::Repost {
            sys: name_at(alloc, words, 1)?,
            doc,
        })),
        None => Ok(None),
    }
}

fn crash(alloc: Global, words: &[&[u8]]) -> Result<Option<Form>, OutOfMemory>
    ensures { IfOk result (λ form. form ≡ said Shape.Crash (texts words.now)) }
{
    Ok(Some(Form::Crash {
        sys: name_at(alloc, words, 1)?,
    }))
}

fn open(alloc: Global, words: &[&[u8]]) -> Result<Option<Form>, OutOfMemory>
    ensures { IfOk result (λ form. form ≡ said Shape.Open (texts words.now)) }
{
    Ok(Some(Form::Open {
        sys: name_at(alloc, words, 1)?,
    }))
}

fn remodel(alloc: Global, words: &[&[u8]]) -> Result<Option<Form>, OutOfMemory>
    ensures { IfOk result (λ form. form ≡ said Shape.Remodel (texts words.now)) }
{
    match FileName::of(alloc, word_at(words, 1))? {
        Some(file) => Ok(Some(Form::Remodel { file })),
        None => Ok(None),
    }
}

fn show_docs(alloc: Global, words: &[&[u8]]) -> Result<Option<Form>, OutOfMemory>
    ensures { IfOk result (λ form. form ≡ said Shape.ShowDocs (texts words.now)) }
{
    Ok(Some(Form::ShowDocs {
        sys: name_at(alloc, words, 2)?,
    }))
}

fn show_doc(alloc: Global, words: &[&[u8]]) -> Result<Option<Form>, OutOfMemory>
    ensures { IfOk result (λ form. form ≡ said Shape.ShowDoc (texts words.now)) }
{
    match doc_at(words, 3) {
        Some(doc) => Ok(Some(Form::ShowDoc {
            sys: name_at(alloc, words, 2)?,
            doc,
        })),
        None => Ok(None),
    }
}

fn show_history(alloc: Global, way: Way, words: &[&[u8]]) -> Result<Option<Form>, OutOfMemory>
    ensures { IfOk result (λ form. form ≡ history_said way (texts words.now)) }
{
    match doc_at(words, 4) {
        Some(doc) => Ok(Some(Form::ShowHistory {
            sys: name_at(alloc, words, 2)?,
            way,
            doc,
        })),
        None => Ok(None),
    }
}

fn show_units(alloc: Global, words: &[&[u8]]) -> Result<Option<Form>, OutOfMemory>
    ensures { IfOk result (λ form. form ≡ said Shape.ShowUnits (texts words.now)) }
{
    Ok(Some(Form::ShowUnits {
        sys: name_at(alloc, words, 2)?,
    }))
}

fn show_queues(alloc: Global, words: &[&[u8]]) -> Result<Option<Form>, OutOfMemory>
    ensures { IfOk result (λ form. form ≡ said Shape.ShowQueues (texts words.now)) }
{
    Ok(Some(Form::ShowQueues {
        sys: name_at(alloc, words, 2)?,
    }))
}

fn show_objects(alloc: Global, words: &[&[u8]]) -> Result<Option<Form>, OutOfMemory>
    ensures { IfOk result (λ form. form ≡ said Shape.ShowObjects (texts words.now)) }
{
    Ok(Some(Form::ShowObjects {
        sys: name_at(alloc, words, 2)?,
    }))
}

/// A copy of the word at a place from 0.
fn name_at(alloc: Global, words: &[&[u8]], at: usize) -> Result<Items<u8>, OutOfMemory>
    ensures { IfOk result (λ name. name ≡ word_at (texts words.now) at) }
{
    Items::from_slice(alloc, word_at(words, at))
}

/// The number of a document at a place from 0. None exactly where there is none.
fn doc_at(words: &[&[u8]], at: usize) -> Option<DocNum>
    ensures { result ≡ doc_at (texts words.now) at }
{
    match number_of(word_at(words, at)) {
        Some(number) => Some(DocNum(number)),
        None => None,
    }
}

/// The word at a place from 0, and no bytes where there is none.
fn word_at<'a>(words: &[&'a [u8]], at: usize) -> &'a [u8]
    ensures { result.now ≡ word_at (texts words.now) at }
{
    match words.get(at) {
        Some(word) => word,
        None => &[],
    }
}
