//! The forms of the words of a command line.

ghost use Rattle.std.specs.Prelude.{◌≡◌, ◌<◌, ◌≤◌, map, string_bytes, IfSome};
ghost use Rattle.ale_base.specs.Text.{is_text};
ghost use Rattle.ale_host.specs.Words.{form_of, pass_form, load_form, run_form, count_in, is_count, workers_in, IsFew};

/// What the words of a command line ask for.
#[derive(Clone, Copy, PartialEq, Eq)]
pub(crate) enum Form {
    /// `pass DOCS`
    Pass,
    /// `run MODEL DOCS SCRIPT WORKERS`
    Run,
    /// `load N WORKERS`, with this number of masters
    Load(u32),
}

/// The most masters of a load.
pub(crate) const MAX_MASTERS: u32 = 4_096;

/// The most workers.
pub(crate) const MAX_WORKERS: u32 = 16;

/// The form that the words have. None where they have none of the three.
#[tactic(auto, using(crate::proofs::WordsLemmas::four_words))]
pub(crate) fn form_of(words: &[String]) -> Option<Form>
    ensures form { result ≡ form_of (map string_bytes words.now) }
    ensures few { IfSome result IsFew }
{
    match words {
        [command, _] => pass_form(command),
        [command, masters, workers] => load_form(command, masters, workers),
        [command, _, _, _, workers] => run_form(command, workers),
        _ => None,
    }
}

fn pass_form(command: &String) -> Option<Form>
    ensures form { result ≡ pass_form (string_bytes command.now) }
    ensures few { IfSome result IsFew }
{
    is_text(command, b"pass").then_some(Form::Pass)
}

fn load_form(command: &String, masters: &String, workers: &String) -> Option<Form>
    ensures form { result ≡ load_form (string_bytes command.now) (string_bytes masters.now) (string_bytes workers.now) }
    ensures few { IfSome result IsFew }
{
    if !is_text(command, b"load") || !is_count(workers.as_bytes(), MAX_WORKERS) {
        return None;
    }
    match count_in(masters.as_bytes(), MAX_MASTERS) {
        Some(masters) => Some(Form::Load(masters)),
        None => None,
    }
}

fn run_form(command: &String, workers: &String) -> Option<Form>
    ensures form { result ≡ run_form (string_bytes command.now) (string_bytes workers.now) }
    ensures few { IfSome result IsFew }
{
    let is_run = is_text(command, b"run") && is_count(workers.as_bytes(), MAX_WORKERS);
    is_run.then_some(Form::Run)
}

/// How many workers the last word asks for, from 1 to 16; one where it asks for none.
pub(crate) fn workers_of(words: &[String]) -> u8
    ensures said { result ≡ workers_in (map string_bytes words.now) }
    ensures range { (1 ≤ result) × (result ≤ 16) }
{
    match words.last() {
        None => 1,
        Some(word) => match count_in(word.as_bytes(), MAX_WORKERS) {
            Some(count) if count >= 1 && count <= MAX_WORKERS => count as u8,
            Some(_) | None => 1,
        },
    }
}

fn is_text(word: &String, other: &[u8]) -> bool
    ensures { result ≡ is_text (string_bytes word.now) other.now }
{
    word.as_bytes() == other
}

/// Whether the text is a decimal from 1 to `most`, without sign or leading zero.
fn is_count(text: &[u8], most: u32) -> bool
    ensures { result ≡ is_count most text.now }
{
    count_in(text, most).is_some()
}

/// The number that the text says as a decimal from 1 to `most`, without sign or leading zero. None exactly where it is none.
fn count_in(text: &[u8], most: u32) -> Option<u32>
    ensures count { result ≡ count_in most text.now }
    ensures few { IfSome result (λ number. number ≤ most) }
{
    if text.is_empty() || text.len() > 4 || text[0] == b'0' {
        return None;
    }
    let mut number: u32 = 0;
    for digit in text {
        if !digit.is_ascii_digit() {
            return None;
        }
        number = number * 10 + u32::from(*digit - b'0');
    }
    (number <= most).then_some(number)
}
