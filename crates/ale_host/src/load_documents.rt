//! The documents of a load.

ghost use Rattle.std.specs.Prelude.{◌≡◌, ◌<◌, ◌≤◌, ◌+◌, ◌*◌, ◌++◌, length, IfOk, OnOk};
ghost use Rattle.ale_host.specs.Load.{document, documents, front, type_of};

use crate::load_text::{put, put_six_digits};
use ale_base::{Items, OutOfMemory};
use std::alloc::Global;

/// What stands before the number of a document: its control line, with the message type ZMAT, and the begin of its data line, which names the
/// segment type Z1MAT and begins with the letter of its key.
const FRONT: &[u8] =
    b"EDI_DC40                                                                                           ZMAT\n\
    Z1MAT                                                          M";

/// What stands behind it: the blanks of the key, the material's type, and its unit of measure.
const FERT: &[u8] = b"           FERTST\n";

const ROH: &[u8] = b"           ROH ST\n";

/// The documents of a load of so many masters, one behind the other. Document k, from 1, is of the message type ZMAT and has the material `M`
/// and k in six digits, whose type is FERT for odd k and ROH for even k, with the unit ST.
#[tactic(auto, unfolding(crate::specs::Load::documents))]
pub(crate) fn load_documents(alloc: Global, count: u32) -> Result<Items<u8>, OutOfMemory>
    ensures documents { IfOk result (λ text. text ≡ documents count) }
    ensures short { IfOk result (λ text. length text ≤ 200 * count) }
{
    let mut text = Vec::new(alloc);
    for place in 0..count {
        put_document(&mut text, place)?;
    }
    Ok(Items::from_vec(text))
}

/// Appends the document of a place from 0.
fn put_document(text: &mut Vec<u8>, place: u32) -> Result<(), OutOfMemory>
    requires { place < u32.MAX }
    ensures document { OnOk result (text.new.items ≡ text.old.items ++ document place) }
    ensures short { OnOk result (length text.new.items ≤ length text.old.items + 200) }
{
    put(text, front())?;
    put_six_digits(text, place + 1)?;
    put(text, type_of(place))
}

/// What stands before the number of each document.
fn front() -> &'static [u8]
    ensures bytes { result.now ≡ front }
    ensures short { length result.now ≤ 170 }
{
    FRONT
}

/// What stands behind the number of the document of a place: the type of a material is FERT and ROH in turn.
fn type_of(place: u32) -> &'static [u8]
    ensures bytes { result.now ≡ type_of place }
    ensures short { length result.now ≤ 20 }
{
    if place % 2 == 0 { FERT } else { ROH }
}
