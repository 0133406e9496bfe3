//! Whether names, fields, definitions and segment types keep their rules.

ghost use Rattle.std.specs.Prelude.{◌≡◌, ◌≤◌, ◌↔◌, false, length, map, AllPairs, IsTrue};
ghost use Rattle.std.specs.List.{AllByRecursion, IsDistinct, list_all};
ghost use Rattle.ale_base.specs.Text.{is_text};
ghost use Rattle.segment_defs.specs.Name.{is_name_byte, is_name_within, is_segment_name, IsName, IsSegmentName};
ghost use Rattle.segment_defs.specs.Version.{width_of, AreLaidOut, IsField, AreFields, IsVersion};
ghost use Rattle.segment_defs.specs.SegmentType.{Continues};

use crate::limits::{LONGEST_NAME, MOST_BYTES, MOST_FIELDS, MOST_VERSIONS};
use crate::{Field, SegmentType, Version};
use ale_base::Items;

/// Whether these bytes are a name: from 1 to 30 letters, digits, `_` and `/`.
#[tactic(auto, using(crate::proofs::NameLemmas::IsName_decided))]
pub fn is_name(name: &[u8]) -> bool
    ensures { IsTrue result ↔ IsName name.now }
{
    is_name_within(LONGEST_NAME, name)
}

/// Whether these bytes are a name of at most so many bytes.
pub fn is_name_within(longest: usize, name: &[u8]) -> bool
    ensures { result ≡ is_name_within longest name.now }
{
    !name.is_empty() && name.len() <= longest && are_name_bytes(name)
}

fn are_name_bytes(name: &[u8]) -> bool
    ensures { result ≡ list_all is_name_byte name.now }
{
    name.iter().all(|byte| is_name_byte(*byte))
}

fn is_name_byte(byte: u8) -> bool
    ensures { result ≡ is_name_byte byte }
{
    byte.is_ascii_alphanumeric() || byte == b'_' || byte == b'/'
}

/// Whether these bytes are a name of a segment type or of a definition: a name that does not begin with `EDI_`.
#[tactic(auto, using(crate::proofs::NameLemmas::IsName_decided))]
pub fn is_segment_name(name: &[u8]) -> bool
    ensures named { IsTrue result ↔ IsSegmentName name.now }
    ensures decided { result ≡ is_segment_name name.now }
{
    is_name(name) && !name.starts_with(b"EDI_")
}

impl Field {
    ghost use Rattle.std.specs.Prelude.{◌↔◌, IsTrue};
    ghost use Rattle.segment_defs.specs.Version.{IsField};

    /// Whether the field keeps its rules: it has a name, and from 1 to 1,000 bytes.
    pub fn is_valid(&self) -> bool
        ensures { IsTrue result ↔ IsField self.now }
    {
        is_name(self.name.as_slice()) && self.length >= 1 && usize::from(self.length) <= MOST_BYTES
    }
}

impl Version {
    ghost use Rattle.std.specs.Prelude.{◌↔◌, IsTrue};
    ghost use Rattle.segment_defs.specs.Version.{IsVersion};

    /// Whether the definition keeps its rules: it has a name that does not begin with `EDI_`, and at most 200 fields,
    /// each of them valid, which stand side by side from offset 0, have different names and take at most 1,000 bytes
    /// together.
    pub fn is_valid(&self) -> bool
        ensures { IsTrue result ↔ IsVersion self.now }
    {
        is_segment_name(self.name.as_slice()) && are_fields(self.fields.as_slice())
    }
}

fn are_fields(fields: &[Field]) -> bool
    ensures { IsTrue result ↔ AreFields fields.now }
{
    fields.len() <= MOST_FIELDS
        && are_valid_fields(fields)
        && are_laid_out(fields)
        && are_narrow(fields)
        && fields_differ(fields)
}

fn are_valid_fields(fields: &[Field]) -> bool
    ensures { IsTrue result ↔ AllByRecursion IsField fields.now }
{
    fields.iter().all(|field| field.is_valid())
}

/// Whether the fields stand one behind another from offset 0.
fn are_laid_out(fields: &[Field]) -> bool
    ensures { IsTrue result ↔ AreLaidOut 0 fields.now }
{
    let mut offset = 0;
    for field in fields {
        if u32::from(field.offset) != offset {
            return false;
        }
        offset += u32::from(field.length);
    }
    true
}

/// Whether the fields take at most 1,000 bytes together.
fn are_narrow(fields: &[Field]) -> bool
    requires { length fields.now ≤ MOST_FIELDS }
    ensures { IsTrue result ↔ (width_of fields.now ≤ MOST_BYTES) }
{
    let width: u32 = fields.iter().map(|field| u32::from(field.length)).sum();
    width as usize <= MOST_BYTES
}

/// Whether no two of the fields have one name.
fn fields_differ(fields: &[Field]) -> bool
    ensures { IsTrue result ↔ IsDistinct is_text (map (λ field. field.name) fields.now) }
{
    for (place, field) in fields.iter().enumerate() {
        if !is_no_field(&field.name, &fields[place + 1..]) {
            return false;
        }
    }
    true
}

/// Whether none of the fields has this name.
fn is_no_field(name: &Items<u8>, fields: &[Field]) -> bool
    ensures { IsTrue result
        ↔ AllByRecursion (λ other. is_text name.now other ≡ false) (map (λ field. field.name) fields.now) }
{
    fields.iter().all(|field| *name != field.name)
}

impl SegmentType {
    ghost use Rattle.std.specs.Prelude.{◌↔◌, IsTrue};
    ghost use Rattle.segment_defs.specs.SegmentType.{IsSegmentType};

    /// Whether the segment type keeps its rules: it has a name that does not begin with `EDI_`, and from 1 to 32
    /// definitions, each of them valid, and each later one with a later release and the fields of those before, perhaps
    /// with others behind them.
    pub fn is_valid(&self) -> bool
        ensures { IsTrue result ↔ IsSegmentType self.now }
    {
        is_segment_name(self.name.as_slice()) && are_versions(self.versions.as_slice())
    }
}

/// Whether there are from 1 to 32 definitions, each of them valid, that continue each other.
fn are_versions(versions: &[Version]) -> bool
    ensures { IsTrue result ↔ ((1 ≤ length versions.now) × (length versions.now ≤ MOST_VERSIONS)
        × AllByRecursion IsVersion versions.now × AllPairs Continues versions.now) }
{
    !versions.is_empty()
        && versions.len() <= MOST_VERSIONS
        && are_valid_versions(versions)
        && continue_each_other(versions)
}

fn are_valid_versions(versions: &[Version]) -> bool
    ensures { IsTrue result ↔ AllByRecursion IsVersion versions.now }
{
    versions.iter().all(|version| version.is_valid())
}

/// Whether each definition continues those before it.
fn continue_each_other(versions: &[Version]) -> bool
    ensures { IsTrue result ↔ AllPairs Continues versions.now }
{
    for place in 1..versions.len() {
        if !continues(&versions[place - 1], &versions[place]) {
            return false;
        }
    }
    true
}

/// Whether a definition has a later release than another, and its fields with perhaps others behind them.
fn continues(earlier: &Version, newer: &Version) -> bool
    ensures { IsTrue result ↔ Continues earlier.now newer.now }
{
    earlier.release < newer.release
        && newer
            .fields
            .as_slice()
            .starts_with(earlier.fields.as_slice())
}
