//! The control record of what is sent.

ghost use Rattle.std.specs.Prelude.{◌≡◌, ◌≤◌, ◌+◌, ◌∷◌, [], length, Some, Contains};
ghost use Rattle.idoc_record.specs.Control.{control_with};
ghost use Rattle.idoc_record.specs.Digits.{decimal_digits};
ghost use Rattle.dist_model.specs.Model.{IsModel};
ghost use Rattle.outbound_build.specs.steps.Texts.{written_all};
ghost use Rattle.dist_model.specs.Named.{system_at};
ghost use Rattle.outbound_build.specs.ControlRecord.{HasBlanks, control_text, sent_name};

use ale_base::{DocNum, SystemNo};
use dist_model::{Lists, Outbound, System, idoc_type_name_of, message_name, reduced_name};
use idoc_record::{Control, ControlField};

/// The control record of a document of this number that a profile of a model makes of a master with this control record.
pub(crate) fn control_of(
    lists: &Lists,
    profile: &Outbound,
    number: DocNum,
    master: &Control,
) -> Control
    requires model { IsModel lists.now }
    requires profile { Contains lists.now.outbound profile.now }
    ensures texts { result ≡ control_with (control_text lists.now profile.now number.0 master.now) }
    ensures blank { HasBlanks result }
{
    let digits = last_digits(number.0);
    let mode = [b'0' + profile.outmod];
    let fields = ControlField::ALL;
    with_texts(lists, profile, number, &digits, &mode, master, &fields)
}

/// The control record that has the texts of these fields, where the digits are those of the number. All else is blank.
fn with_texts(
    lists: &Lists,
    profile: &Outbound,
    number: DocNum,
    digits: &[u8; 16],
    mode: &[u8; 1],
    master: &Control,
    fields: &[ControlField],
) -> Control
    requires model { IsModel lists.now }
    requires profile { Contains lists.now.outbound profile.now }
    requires digits { digits.now ≡ decimal_digits 16 number.0 }
    requires mode { mode.now ≡ (48 + profile.now.outmod) ∷ [] }
    ensures { result ≡ control_with (written_all (control_text lists.now profile.now number.0 master.now) fields.now) }
{
    let mut control = Control::blank();
    for field in fields {
        let text = text_of(lists, profile, number, digits, mode, master, *field);
        control.set(*field, text);
    }
    control
}

/// The text of a field, where the digits are those of the number.
fn text_of<'a>(
    lists: &'a Lists,
    profile: &'a Outbound,
    number: DocNum,
    digits: &'a [u8; 16],
    mode: &'a [u8; 1],
    master: &'a Control,
    field: ControlField,
) -> &'a [u8]
    requires model { IsModel lists.now }
    requires profile { Contains lists.now.outbound profile.now }
    requires digits { digits.now ≡ decimal_digits 16 number.0 }
    requires mode { mode.now ≡ (48 + profile.now.outmod) ∷ [] }
    ensures { result.now ≡ control_text lists.now profile.now number.0 master.now field }
{
    match field {
        ControlField::Tabnam => b"EDI_DC40",
        ControlField::Mandt => &system_at(lists, profile.sender).client,
        ControlField::Docnum => digits,
        ControlField::Status => b"30",
        ControlField::Direct => b"1",
        ControlField::Outmod => mode,
        ControlField::Idoctyp => idoc_type_name_of(lists, profile.message),
        ControlField::Mestyp => sent_name(lists, profile),
        ControlField::Sndprt | ControlField::Rcvprt => b"LS",
        ControlField::Sndprn => system_at(lists, profile.sender).name.as_slice(),
        ControlField::Rcvpor => profile.port.as_slice(),
        ControlField::Rcvprn => system_at(lists, profile.receiver).name.as_slice(),
        ControlField::Mescod
        | ControlField::Mesfct
        | ControlField::Credat
        | ControlField::Cretim
        | ControlField::Refint
        | ControlField::Refgrp
        | ControlField::Refmes
        | ControlField::Arckey
        | ControlField::Serial => master.get(field),
        _ => b"",
    }
}

/// The system of a number.
fn system_at(lists: &Lists, system: SystemNo) -> &System
    requires { system ≤ length lists.now.systems }
    ensures { Some result.now ≡ system_at lists.now system }
{
    &lists.systems[usize::from(system.get()) - 1]
}

/// The name of what a profile sends.
fn sent_name<'a>(lists: &'a Lists, profile: &Outbound) -> &'a [u8]
    ensures { result.now ≡ sent_name lists.now profile.now }
{
    match profile.reduced {
        Some(place) => reduced_name(lists, place),
        None => message_name(lists, profile.message),
    }
}

/// The last 16 decimal digits of a number, with leading zeros.
#[tactic(auto, unfolding(idoc_record::specs::Digits::decimal_digits))]
fn last_digits(number: u64) -> [u8; 16]
    ensures { result ≡ decimal_digits 16 number }
{
    let mut digits = [b'0'; 16];
    put_digits(&mut digits, number);
    digits
}

/// Fills the slice with the lowest digits of the number, the highest of them first.
#[tactic(auto, unfolding(idoc_record::specs::Digits::decimal_digits))]
fn put_digits(into: &mut [u8], number: u64)
    ensures { into.new ≡ decimal_digits (length into.old) number }
{
    let mut number = number;
    let mut at = into.len();
    while at > 0 {
        at -= 1;
        into[at] = b'0' + (number % 10) as u8;
        number /= 10;
    }
}
