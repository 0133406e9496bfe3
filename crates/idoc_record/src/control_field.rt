//! The fields of the control record, their names and places.

use crate::Span;

/// A field of the control record EDI_DC40, in the order of the record. Source: SAP Library, IDoc interface, control
/// record.
#[derive(Clone, Copy, Debug, PartialEq, Eq)]
pub enum ControlField {
    /// Name of the table structure, `EDI_DC40`
    Tabnam,
    /// Client
    Mandt,
    /// Number of the IDoc
    Docnum,
    /// SAP release of the IDoc
    Docrel,
    /// Status of the IDoc
    Status,
    /// Direction: 1 outbound, 2 inbound
    Direct,
    /// Output mode: 2 transfer immediately, 4 collect
    Outmod,
    /// Overriding in inbound processing
    Exprss,
    /// Test flag
    Test,
    /// Basic type
    Idoctyp,
    /// Extension
    Cimtyp,
    /// Message type
    Mestyp,
    /// Message variant
    Mescod,
    /// Message function
    Mesfct,
    /// EDI standard
    Std,
    /// Version of the EDI standard
    Stdvrs,
    /// EDI message type
    Stdmes,
    /// Port of the sender
    Sndpor,
    /// Partner type of the sender
    Sndprt,
    /// Partner function of the sender
    Sndpfc,
    /// Partner number of the sender
    Sndprn,
    /// SADR address of the sender
    Sndsad,
    /// Logical address of the sender
    Sndlad,
    /// Port of the receiver
    Rcvpor,
    /// Partner type of the receiver
    Rcvprt,
    /// Partner function of the receiver
    Rcvpfc,
    /// Partner number of the receiver
    Rcvprn,
    /// SADR address of the receiver
    Rcvsad,
    /// Logical address of the receiver
    Rcvlad,
    /// Date of creation
    Credat,
    /// Time of creation
    Cretim,
    /// Reference to the interchange file
    Refint,
    /// Reference to the message group
    Refgrp,
    /// Reference to the message
    Refmes,
    /// Key of the EDI archive
    Arckey,
    /// Serialisation
    Serial,
}

impl ControlField {
    ghost use Rattle.std.specs.Prelude.{◌≡◌, ◌+◌, ◌≤◌};
    ghost use Rattle.idoc_record.specs.declared.control.TheConstants.{CONTROL_LEN};
    ghost use Rattle.idoc_record.specs.ControlField.{span_of, name_of};

    /// All fields, in the order of the record.
    pub const ALL: [ControlField; 36] = [
        ControlField::Tabnam,
        ControlField::Mandt,
        ControlField::Docnum,
        ControlField::Docrel,
        ControlField::Status,
        ControlField::Direct,
        ControlField::Outmod,
        ControlField::Exprss,
        ControlField::Test,
        ControlField::Idoctyp,
        ControlField::Cimtyp,
        ControlField::Mestyp,
        ControlField::Mescod,
        ControlField::Mesfct,
        ControlField::Std,
        ControlField::Stdvrs,
        ControlField::Stdmes,
        ControlField::Sndpor,
        ControlField::Sndprt,
        ControlField::Sndpfc,
        ControlField::Sndprn,
        ControlField::Sndsad,
        ControlField::Sndlad,
        ControlField::Rcvpor,
        ControlField::Rcvprt,
        ControlField::Rcvpfc,
        ControlField::Rcvprn,
        ControlField::Rcvsad,
        ControlField::Rcvlad,
        ControlField::Credat,
        ControlField::Cretim,
        ControlField::Refint,
        ControlField::Refgrp,
        ControlField::Refmes,
        ControlField::Arckey,
        ControlField::Serial,
    ];

    /// The name of the field, in upper case, as `DOCNUM`.
    pub fn name(self) -> &'static str
        ensures { result.now ≡ name_of self }
    {
        match self {
            ControlField::Tabnam => "TABNAM",
            ControlField::Mandt => "MANDT",
            ControlField::Docnum => "DOCNUM",
            ControlField::Docrel => "DOCREL",
            ControlField::Status => "STATUS",
            ControlField::Direct => "DIRECT",
            ControlField::Outmod => "OUTMOD",
            ControlField::Exprss => "EXPRSS",
            ControlField::Test => "TEST",
            ControlField::Idoctyp => "IDOCTYP",
            ControlField::Cimtyp => "CIMTYP",
            ControlField::Mestyp => "MESTYP",
            ControlField::Mescod => "MESCOD",
            ControlField::Mesfct => "MESFCT",
            ControlField::Std => "STD",
            ControlField::Stdvrs => "STDVRS",
            ControlField::Stdmes => "STDMES",
            ControlField::Sndpor => "SNDPOR",
            ControlField::Sndprt => "SNDPRT",
            ControlField::Sndpfc => "SNDPFC",
            ControlField::Sndprn => "SNDPRN",
            ControlField::Sndsad => "SNDSAD",
            ControlField::Sndlad => "SNDLAD",
            ControlField::Rcvpor => "RCVPOR",
            ControlField::Rcvprt => "RCVPRT",
            ControlField::Rcvpfc => "RCVPFC",
            ControlField::Rcvprn => "RCVPRN",
            ControlField::Rcvsad => "RCVSAD",
            ControlField::Rcvlad => "RCVLAD",
            ControlField::Credat => "CREDAT",
            ControlField::Cretim => "CRETIM",
            ControlField::Refint => "REFINT",
            ControlField::Refgrp => "REFGRP",
            ControlField::Refmes => "REFMES",
            ControlField::Arckey => "ARCKEY",
            ControlField::Serial => "SERIAL",
        }
    }

    /// Where the field stands in the record.
    pub fn span(self) -> Span
        ensures place { result ≡ span_of self }
        ensures within { result.offset + result.length ≤ CONTROL_LEN }
    {
        let (offset, length) = match self {
            ControlField::Tabnam => (0, 10),
            ControlField::Mandt => (10, 3),
            ControlField::Docnum => (13, 16),
            ControlField::Docrel => (29, 4),
            ControlField::Status => (33, 2),
            ControlField::Direct => (35, 1),
            ControlField::Outmod => (36, 1),
            ControlField::Exprss => (37, 1),
            ControlField::Test => (38, 1),
            ControlField::Idoctyp => (39, 30),
            ControlField::Cimtyp => (69, 30),
            ControlField::Mestyp => (99, 30),
            ControlField::Mescod => (129, 3),
            ControlField::Mesfct => (132, 3),
            ControlField::Std => (135, 1),
            ControlField::Stdvrs => (136, 6),
            ControlField::Stdmes => (142, 6),
            ControlField::Sndpor => (148, 10),
            ControlField::Sndprt => (158, 2),
            ControlField::Sndpfc => (160, 2),
            ControlField::Sndprn => (162, 10),
            ControlField::Sndsad => (172, 21),
            ControlField::Sndlad => (193, 70),
            ControlField::Rcvpor => (263, 10),
            ControlField::Rcvprt => (273, 2),
            ControlField::Rcvpfc => (275, 2),
            ControlField::Rcvprn => (277, 10),
            ControlField::Rcvsad => (287, 21),
            ControlField::Rcvlad => (308, 70),
            ControlField::Credat => (378, 8),
            ControlField::Cretim => (386, 6),
            ControlField::Refint => (392, 14),
            ControlField::Refgrp => (406, 14),
            ControlField::Refmes => (420, 14),
            ControlField::Arckey => (434, 70),
            ControlField::Serial => (504, 20),
        };
        Span { offset, length }
    }
}
