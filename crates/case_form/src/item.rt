//! The items of a case file and their blocks.

ghost use Rattle.std.specs.Prelude.{◌≡◌, ◌≤◌, [], ◌∷◌, ◌++◌, length, map, drop, Ok, IfOk, OnOk, IfErr};
ghost use Rattle.case_form.specs.Rules.{IsBroken, IsFaultOf, at_line};
ghost use Rattle.case_form.specs.Text.{before, behind, parts, both};
ghost use Rattle.case_form.specs.Items.{file_read, lines_read, line_read, without_end, kind_of, follow_read, with_line, extend_last, seen};

use crate::line::{Kind, Place, kind_of};
use crate::rule::{CaseFault, LineEnd, not_named_case};
use crate::text::{first_part, first_word, put_text};
use ale_base::OutOfMemory;
use std::alloc::Global;

/// An item of a case: a line that begins at its first byte, and the lines of its block.
#[derive(Drop)]
pub struct Item {
    /// The number of its line, from 1.
    pub line: u32,
    /// Whether it is marked: what it expects is wrong on purpose, and the case passes only where it differs.
    pub differs: bool,
    /// Its first word.
    pub word: Vec<u8>,
    /// What stands behind that word.
    pub rest: Vec<u8>,
    /// The lines of its block.
    pub block: Vec<BlockLine>,
}

/// A line of a block, without the blanks before it.
#[derive(Drop)]
pub struct BlockLine {
    /// Its number, from 1.
    pub line: u32,
    pub text: Vec<u8>,
}

impl Item {
    ghost use Rattle.std.specs.Prelude.{◌≡◌, Ok, IfOk, IfErr};
    ghost use Rattle.case_form.specs.Rules.{IsFaultOf};
    ghost use Rattle.case_form.specs.Items.{block_read};

    /// The text of the block: what each line stands for, with LF behind it. Or the first line that breaks a rule.
    pub fn text(&self, alloc: Global) -> Result<Vec<u8>, CaseFault>
        ensures text { IfOk result (λ text. block_read self.now.block.items ≡ Ok text.items) }
        ensures fault { IfErr result (IsFaultOf (block_read self.now.block.items)) }
    {
        let mut text = Vec::new(alloc);
        for line in &self.block {
            put_line(&mut text, line)?;
        }
        Ok(text)
    }
}

/// Appends what a line of a block stands for, with LF behind it.
fn put_line(text: &mut Vec<u8>, line: &BlockLine) -> Result<(), CaseFault>
    ensures read { OnOk result (both (Ok text.old.items) (line_read line.now) ≡ Ok text.new.items) }
    ensures fault { IfErr result (IsFaultOf (line_read line.now)) }
{
    match put_text(text, line.text.as_slice()) {
        Ok(()) => {
            text.push(b'\n')?;
            Ok(())
        }
        Err(end) => Err(end.at(line.line)),
    }
}

/// The items of the case file of this name, without its title, or the first line that breaks a rule.
pub fn read_items(alloc: Global, file: &str, bytes: &[u8]) -> Result<Vec<Item>, CaseFault>
    ensures items { IfOk result (λ items. file_read file.now bytes.now ≡ Ok (map seen items.items)) }
    ensures fault { IfErr result (IsFaultOf (file_read file.now bytes.now)) }
{
    if !file.as_bytes().ends_with(b".case") {
        return Err(LineEnd::Broken(not_named_case()).at(1));
    }
    read_lines(alloc, without_end(bytes))
}

/// The bytes of a file without the LF at its end.
fn without_end(bytes: &[u8]) -> &[u8]
    ensures { result.now ≡ without_end bytes.now }
{
    match bytes.strip_suffix(b"\n") {
        Some(front) => front,
        None => bytes,
    }
}

/// The items of lines, or the first one that breaks a rule.
fn read_lines(alloc: Global, text: &[u8]) -> Result<Vec<Item>, CaseFault>
    ensures items { IfOk result (λ items. lines_read (parts 10 text.now) ≡ Ok (map seen items.items)) }
    ensures fault { IfErr result (IsFaultOf (lines_read (parts 10 text.now))) }
{
    let mut items = Vec::new(alloc);
    let mut place = Place::Start;
    let mut number: u32 = 0;
    let mut left = Some(text);
    while let Some(rest) = left {
        let (line, behind) = first_part(rest, b'\n');
        number = number.saturating_add(1);
        place = read_line(alloc, &mut items, place, number, line)?;
        left = behind;
    }
    match place.ended() {
        Ok(()) => Ok(items),
        Err(end) => Err(end.at(number)),
    }
}

/// Reads the line of this number: the place behind it, and the items with what it adds to them.
fn read_line(
    alloc: Global,
    items: &mut Vec<Item>,
    place: Place,
    number: u32,
    line: &[u8],
) -> Result<Place, CaseFault>
    ensures place { IfOk result (λ next. follow_read place (kind_of line.now) ≡ Ok next) }
    ensures items { OnOk result (map seen items.new.items ≡ with_line place number line.now (map seen items.old.items)) }
    ensures fault { IfErr result (IsFaultOf (at_line number (follow_read place (kind_of line.now)))) }
{
    match placed(place, line) {
        Ok((kind, next)) => {
            match kind {
                Kind::Head => add_item(alloc, items, place.is_marked(), number, line)?,
                Kind::Indented => add_block_line(alloc, items, number, line)?,
                Kind::Skipped | Kind::Title | Kind::Mark => {}
            }
            Ok(next)
        }
        Err(end) => Err(end.at(number)),
    }
}

/// What a line is, and the place behind it.
fn placed(place: Place, line: &[u8]) -> Result<(Kind, Place), LineEnd>
    ensures kind { IfOk result (λ found. kind_of line.now ≡ Ok found.0) }
    ensures place { IfOk result (λ found. follow_read place (kind_of line.now) ≡ Ok found.1) }
    ensures fault { IfErr result (IsBroken (follow_read place (kind_of line.now))) }
{
    let kind = kind_of(line)?;
    let next = place.behind(kind)?;
    Ok((kind, next))
}

/// Adds an item with no line in its block.
fn add_item(
    alloc: Global,
    items: &mut Vec<Item>,
    differs: bool,
    number: u32,
    line: &[u8],
) -> Result<(), OutOfMemory>
    ensures { OnOk result (map seen items.new.items ≡ map seen items.old.items ++ record {
      line = number;
      differs = differs;
      word = before 32 line.now;
      rest = behind 32 line.now;
      block = [];
    } ∷ []) }
{
    let (word, rest) = first_word(line);
    let item = Item {
        line: number,
        differs,
        word: Vec::from_slice(alloc, word)?,
        rest: Vec::from_slice(alloc, rest)?,
        block: Vec::new(alloc),
    };
    items.push(item)?;
    Ok(())
}

/// Adds a line to the block of the last item.
fn add_block_line(
    alloc: Global,
    items: &mut Vec<Item>,
    number: u32,
    line: &[u8],
) -> Result<(), OutOfMemory>
    ensures { OnOk result (map seen items.new.items ≡ extend_last (record { number = number; text = drop 2 line.now } ∷ []) (map seen items.old.items)) }
{
    let text = Vec::from_slice(alloc, indented(line))?;
    // The item is taken out and put back, so that its clause is that of a push.
    if let Some(mut item) = items.pop() {
        item.block.push(BlockLine { line: number, text })?;
        items.push(item)?;
    }
    Ok(())
}

/// What stands behind the two blanks of an indented line.
fn indented(line: &[u8]) -> &[u8]
    ensures { result.now ≡ drop 2 line.now }
{
    if line.len() < 2 {
        return &[];
    }
    &line[2..]
}
