//! A run whose items are being read.

use crate::case::{Failing, Output, Run, Start, Words};
use crate::failing::{Each, failing_call};
use crate::held::Holding;
use crate::holding::holding_of;
use crate::rules;
use ale_base::Items;
use case_form::{CaseFault, Item, LineEnd};
use std::alloc::Global;

/// A run whose items are being read.
#[derive(Drop)]
pub(crate) struct BegunRun {
    pub(crate) line: u32,
    pub(crate) differs: bool,
    pub(crate) start: Option<Start>,
    pub(crate) holds: Items<Holding>,
    pub(crate) gate: Option<u8>,
    pub(crate) words: Words,
    /// The calls that fail each time that it is made.
    pub(crate) failing: Failing,
    /// The calls of which one more fails each time.
    pub(crate) each: Option<Each>,
    pub(crate) moments: Items<u64>,
    pub(crate) status: Option<u8>,
    pub(crate) outputs: Items<Output>,
    pub(crate) law: Option<Items<u8>>,
    pub(crate) ended: bool,
}

impl BegunRun {
    /// A run of these words, of which nothing more is said.
    pub(crate) fn of(alloc: Global, item: &Item, words: Words, gate: Option<u8>) -> BegunRun {
        BegunRun {
            line: item.line,
            differs: item.differs,
            start: None,
            holds: Items::new(alloc),
            gate,
            words,
            failing: Failing::none(alloc),
            each: None,
            moments: Items::new(alloc),
            status: None,
            outputs: Items::new(alloc),
            law: None,
            ended: false,
        }
    }

    /// `anew` or `crashed`.
    pub(crate) fn read_start(&mut self, item: &Item, start: Start) -> Result<(), CaseFault> {
        if self.start.is_some() || !self.holds.is_empty() || !item.rest.is_empty() {
            return Err(LineEnd::Broken(rules::OUT_OF_ORDER).at(item.line));
        }
        self.start = Some(start);
        Ok(())
    }

    /// `holds I` or `holds I first COUNT`.
    pub(crate) fn read_holds(&mut self, alloc: Global, item: &Item) -> Result<(), CaseFault> {
        self.holds.push(holding_of(alloc, item)?)?;
        Ok(())
    }

    /// `failing WORD K` or `failing WORD K to L`.
    pub(crate) fn read_failing(&mut self, item: &Item) -> Result<(), CaseFault> {
        let each = failing_call(item.rest.as_slice()).map_err(|end| end.at(item.line))?;
        if each.is_one() {
            each.call.add(&mut self.failing, each.first)?;
        } else if self.each.is_none() {
            self.each = Some(each);
        } else {
            return Err(LineEnd::Broken(rules::NO_SUCH_CALL).at(item.line));
        }
        Ok(())
    }

    /// The run, or the rule that it breaks.
    pub(crate) fn whole(self, alloc: Global) -> Result<Run, CaseFault> {
        let BegunRun {
            line,
            differs,
            start,
            holds,
            gate,
            words,
            failing,
            each,
            moments,
            status,
            outputs,
            law,
            ended,
        } = self;
        match status {
            Some(status) if !outputs.is_empty() => Ok(Run {
                line,
                differs,
                start: start.unwrap_or(Start::Left),
                holds,
                gate,
                words,
                failing: Each::choices(each, alloc, failing)?,
                moments,
                status,
                outputs,
                law,
                ended,
            }),
            _ => Err(LineEnd::Broken(rules::STATUS_AND_PRINTS).at(line)),
        }
    }
}
