//! Case files as cases.

use crate::begun::BegunRun;
use crate::case::{Case, Output, Part, Start, Words};
use crate::lines::FileText;
use crate::random::{Throws, put_line};
use crate::rules;
use ale_base::{Items, OutOfMemory};
use ale_io::StoredFile;
use case_form::{
    CaseFault, CaseFile, Item, LineEnd, Relation, Rule, Texts, first_word, meaning_of, number_of,
    put_text, read_items,
};
use std::alloc::Global;
use std::str;

/// The case that the file of this name holds, beside these texts, or the first line that breaks a rule.
pub(crate) fn read_case(
    alloc: Global,
    texts: &Texts,
    file: &str,
    bytes: &[u8],
) -> Result<Case, CaseFault> {
    let mut reader = Reader::new(alloc);
    for item in read_items(alloc, file, bytes)? {
        reader.line = item.line;
        reader.read_item(texts, item)?;
    }
    let (files, parts) = reader.finish()?;
    let texts = copied(alloc, texts)?;
    Ok(Case {
        files,
        texts,
        parts,
    })
}

/// A copy of texts.
fn copied(alloc: Global, texts: &Texts) -> Result<Texts, OutOfMemory> {
    let mut files = Vec::new(alloc);
    for file in &texts.files {
        files.push(CaseFile {
            name: String::from_str(alloc, file.name.as_str())?,
            file: String::from_str(alloc, file.file.as_str())?,
            bytes: Vec::from_slice(alloc, file.bytes.as_slice())?,
        })?;
    }
    Ok(Texts { files })
}

/// What an item is about.
#[derive(Clone, Copy)]
enum ItemKind {
    File,
    Text,
    Use,
    Random,
    Front,
    Refused,
    Accepted,
    Unread,
    Gate,
    Run,
    Start(Start),
    Holds,
    Clock,
    Failing,
    Status,
    Prints,
    Law,
    Ended,
    Broken,
}

/// The first words of items.
const ITEMS: [(&'static [u8], ItemKind); 21] = [
    (b"file", ItemKind::File),
    (b"text", ItemKind::Text),
    (b"use", ItemKind::Use),
    (b"random", ItemKind::Random),
    (b"front", ItemKind::Front),
    (b"refused", ItemKind::Refused),
    (b"accepted", ItemKind::Accepted),
    (b"unread", ItemKind::Unread),
    (b"gate", ItemKind::Gate),
    (b"run", ItemKind::Run),
    (b"wordless", ItemKind::Run),
    (b"anew", ItemKind::Start(Start::Anew)),
    (b"crashed", ItemKind::Start(Start::Crashed)),
    (b"holds", ItemKind::Holds),
    (b"clock", ItemKind::Clock),
    (b"failing", ItemKind::Failing),
    (b"status", ItemKind::Status),
    (b"prints", ItemKind::Prints),
    (b"law", ItemKind::Law),
    (b"ended", ItemKind::Ended),
    (b"broken", ItemKind::Broken),
];

/// How a text that is printed is told.
const RELATIONS: [(&'static [u8], Relation); 4] = [
    (b"", Relation::Whole),
    (b"a front of", Relation::FrontOf),
    (b"first", Relation::First),
    (b"last", Relation::Last),
];

/// What was read of a case.
#[derive(Drop)]
struct Reader {
    alloc: Global,
    files: Items<StoredFile>,
    parts: Vec<Part>,
    /// The front of the models of `refused` items.
    front: Vec<u8>,
    /// How many works meet at the gate that the last item set up.
    gate: Option<u8>,
    run: Option<BegunRun>,
    /// The line of the last item.
    line: u32,
}

impl Reader {
    /// Nothing was read.
    fn new(alloc: Global) -> Reader {
        Reader {
            alloc,
            files: Items::new(alloc),
            parts: Vec::new(alloc),
            front: Vec::new(alloc),
            gate: None,
            run: None,
            line: 1,
        }
    }

    fn read_item(&mut self, texts: &Texts, item: Item) -> Result<(), CaseFault> {
        if self.gate.is_some() && item.word.as_slice() != b"run".as_slice() {
            return Err(broken(item.line, rules::BAD_GATE));
        }
        match meaning_of(&ITEMS, item.word.as_slice()) {
            Some(ItemKind::File) => self.read_file(texts, &item),
            Some(ItemKind::Text) => self.read_text(&item),
            Some(ItemKind::Use) => self.read_use(texts, &item),
            Some(ItemKind::Random) => self.read_random(&item),
            Some(ItemKind::Front) => self.read_front(&item),
            Some(ItemKind::Refused) => self.read_refused(&item),
            Some(ItemKind::Accepted) => self.read_accepted(&item),
            Some(ItemKind::Unread) => self.read_unread(&item),
            Some(ItemKind::Gate) => self.read_gate(&item),
            Some(ItemKind::Run) => self.begin_run(&item),
            Some(ItemKind::Start(start)) => self.read_start(&item, start),
            Some(ItemKind::Holds) => self.read_holds(&item),
            Some(ItemKind::Clock) => self.read_clock(&item),
            Some(ItemKind::Failing) => self.read_failing(&item),
            Some(ItemKind::Status) => self.read_status(&item),
            Some(ItemKind::Prints) => self.read_prints(&item),
            Some(ItemKind::Law) => self.read_law(&item),
            Some(ItemKind::Ended) => self.read_ended(&item),
            Some(ItemKind::Broken) => self.read_broken(item),
            None => Err(broken(item.line, rules::NO_SUCH_ITEM)),
        }
    }

    /// `file NAME`: its block has the lines of the file.
    fn read_file(&mut self, texts: &Texts, item: &Item) -> Result<(), CaseFault> {
        let alloc = self.alloc;
        let mut text = FileText::new(alloc);
        for line in &item.block {
            text.add(alloc, texts, line.text.as_slice())
                .map_err(|end| end.at(line.line))?;
        }
        let bytes = text.whole().map_err(|end| end.at(item.line))?;
        self.add_file(item, item.rest.as_slice(), bytes)
    }

    /// `text NAME`: its block is the file, as it stands.
    fn read_text(&mut self, item: &Item) -> Result<(), CaseFault> {
        let bytes = raw_text(self.alloc, item)?;
        self.add_file(item, item.rest.as_slice(), bytes)
    }

    /// `use NAME`: the file is a text that the folder's cases share.
    fn read_use(&mut self, texts: &Texts, item: &Item) -> Result<(), CaseFault> {
        unblocked(item)?;
        let Some(bytes) = texts.get(item.rest.as_slice()) else {
            return Err(broken(item.line, rules::NO_SUCH_TEXT));
        };
        let bytes = Vec::from_slice(self.alloc, bytes)?;
        self.add_file(item, item.rest.as_slice(), bytes)
    }

    /// `random NAME SEED COUNT`: the file is a script of so many commands of the block, by dice.
    fn read_random(&mut self, item: &Item) -> Result<(), CaseFault> {
        let (name, words) = first_word(item.rest.as_slice());
        let script = Throws::of(words)
            .and_then(|throws| throws.script(self.alloc, item.block.as_slice()))
            .map_err(|end| end.at(item.line))?;
        self.add_file(item, name, script)
    }

    /// `front`: its block is the front of the models of `refused` items behind it, as it stands.
    fn read_front(&mut self, item: &Item) -> Result<(), CaseFault> {
        self.end_run()?;
        unmarked(item)?;
        self.front = raw_text(self.alloc, item)?;
        Ok(())
    }

    /// `refused TEXT`: a run over the model of the block, behind the front, refuses it so.
    fn read_refused(&mut self, item: &Item) -> Result<(), CaseFault> {
        let model = self.model_of(item)?;
        let words = self.words_over(item, [b"", b"-", b"-"], model)?;
        self.add_judged(item, words, 2, b"model refused: ", item.rest.as_slice())
    }

    /// `accepted`: a run over the model of the block, behind the front, gets as far as the documents, which are not there.
    fn read_accepted(&mut self, item: &Item) -> Result<(), CaseFault> {
        let model = self.model_of(item)?;
        let words = self.words_over(item, [b"", b"-", b"-"], model)?;
        self.add_judged(item, words, 5, b"cannot read -: missing", b"")
    }

    /// `unread N`: a run over the files M and D refuses line N of the script in the block.
    fn read_unread(&mut self, item: &Item) -> Result<(), CaseFault> {
        let script = item.text(self.alloc)?;
        let words = self.words_over(item, [b"M", b"D", b""], script)?;
        self.add_judged(item, words, 4, b"script refused: ", item.rest.as_slice())
    }

    /// The model of a block, behind the front.
    fn model_of(&self, item: &Item) -> Result<Vec<u8>, CaseFault> {
        let mut model = self.front.clone()?;
        model.extend_from_slice(raw_text(self.alloc, item)?.as_slice())?;
        Ok(model)
    }

    /// The words of a run over files of these names, of which the nameless one is a new file that holds these bytes.
    fn words_over(
        &mut self,
        item: &Item,
        names: [&'static [u8]; 3],
        bytes: Vec<u8>,
    ) -> Result<Vec<String>, CaseFault> {
        let alloc = self.alloc;
        let line = item.line;
        let own = format!(in alloc; "the file of line {line}")?;
        self.files.push(StoredFile {
            name: Items::from_slice(alloc, own.as_bytes())?,
            bytes: Items::from_vec(bytes),
        })?;
        let mut words = Vec::new(alloc);
        words.push(String::from_str(alloc, "run")?)?;
        for name in names {
            let name = if name.is_empty() {
                own.as_bytes()
            } else {
                name
            };
            words.push(word_of(alloc, name).map_err(|end| end.at(line))?)?;
        }
        words.push(String::from_str(alloc, "1")?)?;
        Ok(words)
    }

    /// Adds a run of these words that ends with this status, and prints these two texts as its one line.
    fn add_judged(
        &mut self,
        item: &Item,
        words: Vec<String>,
        status: u8,
        front: &[u8],
        rest: &[u8],
    ) -> Result<(), CaseFault> {
        self.end_run()?;
        let alloc = self.alloc;
        let mut text = Vec::from_slice(alloc, front)?;
        put_line(&mut text, rest).map_err(|end| end.at(item.line))?;
        let mut run = BegunRun::of(alloc, item, Words::Given(words), None);
        run.status = Some(status);
        run.outputs.push(Output {
            relation: Relation::Whole,
            text,
        })?;
        self.parts.push(Part::Run(run.whole(alloc)?))?;
        Ok(())
    }

    /// Adds a file of this name, which is a word, given once.
    fn add_file(&mut self, item: &Item, word: &[u8], bytes: Vec<u8>) -> Result<(), CaseFault> {
        self.end_run()?;
        unmarked(item)?;
        let mut name = Vec::new(self.alloc);
        put_text(&mut name, word).map_err(|end| end.at(item.line))?;
        if name.is_empty() || word.contains(&b' ') || self.has_file(name.as_slice()) {
            return Err(broken(item.line, rules::ONE_FILE));
        }
        self.files.push(StoredFile {
            name: Items::from_vec(name),
            bytes: Items::from_vec(bytes),
        })?;
        Ok(())
    }

    fn has_file(&self, name: &[u8]) -> bool {
        self.files.iter().any(|file| file.name.as_slice() == name)
    }

    fn read_gate(&mut self, item: &Item) -> Result<(), CaseFault> {
        self.end_run()?;
        unmarked(item)?;
        unblocked(item)?;
        let works = number_of(item.rest.as_slice()).map_err(|end| end.at(item.line))?;
        if works < 1 || works > 16 {
            return Err(broken(item.line, rules::BAD_GATE));
        }
        self.gate = Some(works as u8);
        Ok(())
    }

    fn begin_run(&mut self, item: &Item) -> Result<(), CaseFault> {
        self.end_run()?;
        unblocked(item)?;
        let alloc = self.alloc;
        let words = if item.word.as_slice() == b"run".as_slice() {
            Words::Given(words_of(alloc, item.rest.as_slice()).map_err(|end| end.at(item.line))?)
        } else {
            Words::Wanting
        };
        let gate = self.gate.take();
        self.run = Some(BegunRun::of(alloc, item, words, gate));
        Ok(())
    }

    /// Adds the run that was begun, if there is one.
    fn end_run(&mut self) -> Result<(), CaseFault> {
        if let Some(run) = self.run.take() {
            self.parts.push(Part::Run(run.whole(self.alloc)?))?;
        }
        Ok(())
    }

    /// The run that an item belongs to, whose status was read or not.
    fn run(&mut self, item: &Item, has_status: bool) -> Result<&mut BegunRun, CaseFault> {
        unmarked(item)?;
        match self.run.as_mut() {
            Some(run) if run.status.is_some() == has_status => Ok(run),
            _ => Err(broken(item.line, rules::OUT_OF_ORDER)),
        }
    }

    fn read_start(&mut self, item: &Item, start: Start) -> Result<(), CaseFault> {
        unblocked(item)?;
        self.run(item, false)?.read_start(item, start)
    }

    fn read_holds(&mut self, item: &Item) -> Result<(), CaseFault> {
        let alloc = self.alloc;
        self.run(item, false)?.read_holds(alloc, item)
    }

    fn read_clock(&mut self, item: &Item) -> Result<(), CaseFault> {
        unblocked(item)?;
        let alloc = self.alloc;
        let run = self.run(item, false)?;
        if !run.moments.is_empty() {
            return Err(broken(item.line, rules::ONE_CLOCK));
        }
        run.moments = moments_of(alloc, item.rest.as_slice()).map_err(|end| end.at(item.line))?;
        Ok(())
    }

    fn read_failing(&mut self, item: &Item) -> Result<(), CaseFault> {
        unblocked(item)?;
        self.run(item, false)?.read_failing(item)
    }

    fn read_status(&mut self, item: &Item) -> Result<(), CaseFault> {
        unblocked(item)?;
        let run = self.run(item, false)?;
        let number = number_of(item.rest.as_slice()).map_err(|end| end.at(item.line))?;
        match u8::try_from(number) {
            Ok(status) => {
                run.status = Some(status);
                Ok(())
            }
            Err(_) => Err(broken(item.line, rules::STATUS_AND_PRINTS)),
        }
    }

    fn read_prints(&mut self, item: &Item) -> Result<(), CaseFault> {
        let text = item.text(self.alloc)?;
        let run = self.run(item, true)?;
        let Some(relation) = meaning_of(&RELATIONS, item.rest.as_slice()) else {
            return Err(broken(item.line, rules::NO_SUCH_PRINTS));
        };
        run.outputs.push(Output { relation, text })?;
        Ok(())
    }

    fn read_law(&mut self, item: &Item) -> Result<(), CaseFault> {
        let text = item.text(self.alloc)?;
        let run = self.run(item, true)?;
        if run.outputs.is_empty() || run.law.is_some() || run.ended || !item.rest.is_empty() {
            return Err(broken(item.line, rules::OUT_OF_ORDER));
        }
        run.law = Some(Items::from_vec(text));
        Ok(())
    }

    fn read_ended(&mut self, item: &Item) -> Result<(), CaseFault> {
        unblocked(item)?;
        let run = self.run(item, true)?;
        if run.outputs.is_empty() || run.ended || !item.rest.is_empty() {
            return Err(broken(item.line, rules::OUT_OF_ORDER));
        }
        run.ended = true;
        Ok(())
    }

    fn read_broken(&mut self, item: Item) -> Result<(), CaseFault> {
        self.end_run()?;
        let (line, _) = first_word(item.rest.as_slice());
        number_of(line).map_err(|end| end.at(item.line))?;
        let _ = item.text(self.alloc)?;
        self.parts.push(Part::Broken(item))?;
        Ok(())
    }

    fn finish(mut self) -> Result<(Items<StoredFile>, Vec<Part>), CaseFault> {
        if self.run.is_none() && !self.ends_here() {
            return Err(broken(self.line, rules::NO_RUN));
        }
        self.end_run()?;
        let Reader { files, parts, .. } = self;
        Ok((files, parts))
    }

    /// Whether the last item is a part of its own: a model that is refused, or a text that is no case.
    fn ends_here(&self) -> bool {
        match self.parts.last() {
            Some(Part::Run(run)) => run.line == self.line,
            Some(Part::Broken(item)) => item.line == self.line,
            None => false,
        }
    }
}

/// The lines of a block as they stand.
fn raw_text(alloc: Global, item: &Item) -> Result<Vec<u8>, CaseFault> {
    let mut text = Vec::new(alloc);
    for line in &item.block {
        put_line(&mut text, line.text.as_slice()).map_err(|end| end.at(line.line))?;
    }
    Ok(text)
}

/// The moments of a clock, between blanks, one at least.
fn moments_of(alloc: Global, text: &[u8]) -> Result<Items<u64>, LineEnd> {
    let mut moments = Items::new(alloc);
    for moment in text
        .split(|byte| *byte == b' ')
        .filter(|moment| !moment.is_empty())
    {
        moments.push(u64::from(number_of(moment)?))?;
    }
    if moments.is_empty() {
        return Err(rules::ONE_CLOCK.into());
    }
    Ok(moments)
}

/// A line breaks a rule.
fn broken(line: u32, rule: Rule) -> CaseFault {
    LineEnd::Broken(rule).at(line)
}

/// Sees that an item is not marked.
fn unmarked(item: &Item) -> Result<(), CaseFault> {
    if item.differs {
        return Err(broken(item.line, rules::NO_MARK));
    }
    Ok(())
}

/// Sees that an item has no block.
fn unblocked(item: &Item) -> Result<(), CaseFault> {
    match item.block.first() {
        Some(line) => Err(broken(line.line, Rule::NO_BLOCK)),
        None => Ok(()),
    }
}

/// The words of a command line, between blanks. `""` is the empty word.
fn words_of(alloc: Global, text: &[u8]) -> Result<Vec<String>, LineEnd> {
    let mut words = Vec::new(alloc);
    for word in text
        .split(|byte| *byte == b' ')
        .filter(|word| !word.is_empty())
    {
        let mut bytes = Vec::new(alloc);
        if word != b"\"\"".as_slice() {
            put_text(&mut bytes, word)?;
        }
        words.push(word_of(alloc, bytes.as_slice())?)?;
    }
    Ok(words)
}

/// A word, which is UTF-8.
fn word_of(alloc: Global, bytes: &[u8]) -> Result<String, LineEnd> {
    match str::from_utf8(bytes) {
        Ok(word) => Ok(String::from_str(alloc, word)?),
        Err(_) => Err(rules::NOT_UTF8.into()),
    }
}
