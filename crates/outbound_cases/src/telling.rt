//! What is found, as a text: segments, the fields of a control record, and names of queues.

use ale_base::{NameFault, OutOfMemory, QueueName};
use case_form::{LineEnd, Text};
use idoc_record::{Control, ControlField};
use idoc_tree::Node;
use outbound_build::QueueLists;
use segment_defs::{Definitions, TypeNo, VersionNo};
use std::alloc::Global;

/// Segments, and all below them: a line each.
pub(crate) fn nodes_text(
    alloc: Global,
    definitions: &Definitions,
    nodes: &[Node],
) -> Result<Vec<u8>, LineEnd> {
    let mut text = Text::new(alloc);
    put_nodes(&mut text, definitions, nodes, 0)?;
    or_nothing(alloc, text)
}

/// Puts the lines of segments, and of all below them: two blanks for each level above, the name of the definition, and the data, if
/// there are any.
pub(crate) fn put_nodes(
    text: &mut Text,
    definitions: &Definitions,
    nodes: &[Node],
    level: usize,
) -> Result<(), OutOfMemory> {
    for node in nodes {
        put_level(text, level)?;
        text.put(name_of(definitions, node.segment, node.version))?;
        if !node.sdata.is_empty() {
            text.put_word(node.sdata.as_slice())?;
        }
        text.end_line()?;
        put_nodes(
            text,
            definitions,
            node.children.as_slice(),
            level.saturating_add(1),
        )?;
    }
    Ok(())
}

/// Puts two blanks for each level.
fn put_level(text: &mut Text, level: usize) -> Result<(), OutOfMemory> {
    for _ in 0..level {
        text.put(b"  ")?;
    }
    Ok(())
}

/// The name of a definition.
fn name_of(definitions: &Definitions, segment: TypeNo, version: VersionNo) -> &[u8] {
    let number = segment.0;
    let place = version.0;
    match definitions.types.get(usize::from(number)) {
        None => b"no type",
        Some(ty) => match ty.versions.get(usize::from(place)) {
            None => b"no definition",
            Some(definition) => definition.name.as_slice(),
        },
    }
}

/// Puts a line for each field of a control record that is not blank.
pub(crate) fn put_control(text: &mut Text, control: &Control) -> Result<(), OutOfMemory> {
    for field in ControlField::ALL {
        let value = control.get(field);
        if !value.is_empty() {
            text.put(field.name().as_bytes())?;
            text.put_word(value)?;
            text.end_line()?;
        }
    }
    Ok(())
}

/// The names of queues, a line each.
pub(crate) fn queues_text(alloc: Global, queues: &QueueLists) -> Result<Vec<u8>, LineEnd> {
    let mut text = Text::new(alloc);
    put_queues(&mut text, b"out", queues.outq.as_slice())?;
    put_queues(&mut text, b"in", queues.inq.as_slice())?;
    or_nothing(alloc, text)
}

/// Puts a line for each queue.
fn put_queues(text: &mut Text, way: &[u8], queues: &[QueueName]) -> Result<(), OutOfMemory> {
    for queue in queues {
        text.put(way)?;
        text.put_word(queue.bytes())?;
        text.end_line()?;
    }
    Ok(())
}

/// Why a rule makes no name.
pub(crate) fn fault_text(alloc: Global, fault: NameFault) -> Result<Vec<u8>, LineEnd> {
    let text: &[u8] = match fault {
        NameFault::TooLong => b"too long\n",
        NameFault::BadByte(_) => b"bad byte\n",
        NameFault::Empty => b"no byte\n",
    };
    Ok(Vec::from_slice(alloc, text)?)
}

/// The text, or `nothing` where it has no line.
fn or_nothing(alloc: Global, text: Text) -> Result<Vec<u8>, LineEnd> {
    if text.is_empty() {
        return nothing(alloc);
    }
    Ok(text.into_bytes())
}

/// The text of what is not there.
pub(crate) fn nothing(alloc: Global) -> Result<Vec<u8>, LineEnd> {
    Ok(Vec::from_slice(alloc, b"nothing\n")?)
}
