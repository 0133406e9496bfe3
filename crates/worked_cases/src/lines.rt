//! The lines of a file, as a case writes them.

use crate::records::{control_record, data_record};
use crate::rules;
use ale_base::trimmed;
use case_form::{LineEnd, Texts, first_word, number_of, put_text, put_times};
use std::alloc::Global;

/// What a file of a case holds.
#[derive(Drop)]
pub(crate) struct FileText {
    /// What it holds so far.
    bytes: Vec<u8>,
    /// The repetition that was begun.
    repeat: Option<Repeat>,
}

/// The bytes of a file from `start` on are to be repeated.
#[derive(Clone, Copy, Debug)]
pub(crate) struct Repeat {
    count: u32,
    start: usize,
}

impl FileText {
    /// It holds nothing yet.
    pub(crate) fn new(alloc: Global) -> FileText {
        FileText {
            bytes: Vec::new(alloc),
            repeat: None,
        }
    }

    /// All that it holds, unless a repetition has no end.
    pub(crate) fn whole(self) -> Result<Vec<u8>, LineEnd> {
        let FileText { bytes, repeat } = self;
        match repeat {
            Some(_) => Err(rules::BAD_REPEAT.into()),
            None => Ok(bytes),
        }
    }

    /// Adds what a line of the file's block stands for.
    pub(crate) fn add(&mut self, alloc: Global, texts: &Texts, text: &[u8]) -> Result<(), LineEnd> {
        let (word, rest) = first_word(text);
        if word == b"repeat".as_slice() {
            self.begin_repeat(rest)
        } else if word == b"use".as_slice() {
            self.add_shared(texts, rest)
        } else if text == b"end".as_slice() {
            self.end_repeat(alloc)
        } else {
            self.add_line(alloc, text)
        }
    }

    /// Adds the text of this name that the folder's cases share.
    fn add_shared(&mut self, texts: &Texts, name: &[u8]) -> Result<(), LineEnd> {
        let Some(bytes) = texts.get(name) else {
            return Err(rules::NO_SUCH_TEXT.into());
        };
        self.bytes.extend_from_slice(bytes)?;
        Ok(())
    }

    fn begin_repeat(&mut self, count: &[u8]) -> Result<(), LineEnd> {
        if self.repeat.is_some() {
            return Err(rules::BAD_REPEAT.into());
        }
        self.repeat = Some(Repeat {
            count: number_of(count)?,
            start: self.bytes.len(),
        });
        Ok(())
    }

    fn end_repeat(&mut self, alloc: Global) -> Result<(), LineEnd> {
        let Some(Repeat { count, start }) = self.repeat.take() else {
            return Err(rules::BAD_REPEAT.into());
        };
        let part: Vec<u8> = self.bytes.iter().skip(start).copied().collect(alloc)?;
        self.bytes.truncate(start);
        put_times(&mut self.bytes, part.as_slice(), count)
    }

    /// Adds a line, `COUNT x LINE` so many times.
    fn add_line(&mut self, alloc: Global, text: &[u8]) -> Result<(), LineEnd> {
        let (first, behind) = first_word(text);
        let (count, line) = match behind.strip_prefix(b"x ") {
            Some(line) => (number_of(first)?, line),
            None => (1, text),
        };
        let mut bytes = Vec::new(alloc);
        put_line(alloc, &mut bytes, line)?;
        put_times(&mut self.bytes, bytes.as_slice(), count)
    }
}

/// Appends a line, which ends in LF unless it is `unended`.
fn put_line(alloc: Global, bytes: &mut Vec<u8>, text: &[u8]) -> Result<(), LineEnd> {
    match text.strip_prefix(b"unended ") {
        Some(text) => put_content(alloc, bytes, text),
        None => {
            put_content(alloc, bytes, text)?;
            bytes.push(b'\n')?;
            Ok(())
        }
    }
}

/// Appends what stands in a line.
fn put_content(alloc: Global, bytes: &mut Vec<u8>, text: &[u8]) -> Result<(), LineEnd> {
    let (word, behind) = first_word(text);
    if word == b"line".as_slice() {
        put_text(bytes, behind)
    } else if word == b"full".as_slice() {
        put_full(alloc, bytes, behind)
    } else {
        put_short(alloc, bytes, text)
    }
}

/// A record in full width, of `control FIELDS` or `data FIELDS`.
fn record_of(alloc: Global, text: &[u8]) -> Result<Vec<u8>, LineEnd> {
    let (kind, fields) = first_word(text);
    if kind == b"control".as_slice() {
        control_record(alloc, fields)
    } else if kind == b"data".as_slice() {
        data_record(alloc, fields)
    } else {
        Err(rules::NO_SUCH_LINE.into())
    }
}

/// Appends a record without the blanks at its end.
fn put_short(alloc: Global, bytes: &mut Vec<u8>, text: &[u8]) -> Result<(), LineEnd> {
    let record = record_of(alloc, text)?;
    bytes.extend_from_slice(trimmed(record.as_slice()))?;
    Ok(())
}

/// Appends a record in full width.
fn put_full(alloc: Global, bytes: &mut Vec<u8>, text: &[u8]) -> Result<(), LineEnd> {
    let record = record_of(alloc, text)?;
    bytes.extend_from_slice(record.as_slice())?;
    Ok(())
}
