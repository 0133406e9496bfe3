//! Texts that the cases of a folder share.

ghost use Rattle.std.specs.Prelude.{◌≡◌};

use crate::judging::CaseFile;

/// Texts that the cases of a folder share: its files `NAME.text`, each under its name.
#[derive(Drop)]
pub struct Texts {
    /// The files, with their names as they are asked for.
    pub files: Vec<CaseFile>,
}

impl Texts {
    ghost use Rattle.std.specs.Prelude.{◌≡◌};
    ghost use Rattle.std.specs.Option.{option_map};
    ghost use Rattle.case_form.specs.Texts.{text_of};

    /// The bytes of the text of this name. None exactly where there is none.
    pub fn get(&self, name: &[u8]) -> Option<&[u8]>
        ensures { option_map (λ text. text.now) result ≡ text_of self.now name.now }
    {
        let file = self.files.iter().find(|file| file.name.as_bytes() == name)?;
        Some(file.bytes.as_slice())
    }
}
