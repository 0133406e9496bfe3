//! The queues as an operator lists them, in the order of the table of names.

ghost use Rattle.std.specs.Prelude.{◌≡◌, ◌<◌, None, length, IfOk};
ghost use Rattle.std.specs.List.{filter_map};
ghost use Rattle.std.specs.BTreeMap.{get, values, IsOrdered};
ghost use Rattle.multi_queue.specs.Counted.{IsKept};
ghost use Rattle.multi_queue.specs.Seen.{IsNamed, names_cmp};
ghost use Rattle.multi_queue.specs.Listed.{line_at};

use crate::counting::Counting;
use crate::names::Name;
use ale_base::{Items, OutOfMemory};
use plain_queues::QueueCount;
use std::alloc::Global;
use std::collections::BTreeMap;

impl Counting {
    /// The lines of all queues that hold a unit, in the order of their names.
    pub(crate) fn lines(
        &self,
        alloc: Global,
        names: &BTreeMap<Name, usize>,
    ) -> Result<Items<QueueCount>, OutOfMemory>
        requires kept { IsKept None self.now }
        requires named { IsNamed self.now.lanes (get names_cmp names.now) }
        ensures ordered { IsOrdered names_cmp names.now }
        ensures lines { IfOk result (λ lines. lines ≡ filter_map (line_at self.now.units self.now.lanes self.now.board.heads) (values names.now)) }
    {
        let mut lines = Items::new(alloc);
        for queue in names.values() {
            if let Some(line) = self.line_at(*queue) {
                lines.push(line)?;
            }
        }
        Ok(lines)
    }

    /// The line of the queue of a number. None exactly where it holds no unit.
    fn line_at(&self, queue: usize) -> Option<QueueCount>
        requires kept { IsKept None self.now }
        requires within { queue < length self.now.lanes }
        ensures { result ≡ line_at self.now.units self.now.lanes self.now.board.heads queue }
    {
        match self.status_at(queue) {
            Some(status) => {
                let lane = &self.lanes[queue];
                Some(QueueCount {
                    key: lane.key,
                    count: lane.line.len() as u64,
                    status,
                })
            }
            None => None,
        }
    }
}
