//! What is sent: kinds of business objects, message types, reduced ones, and filters.

ghost use Rattle.std.specs.Prelude.{◌≡◌, ◌≤◌, ◌++◌, List, IfOk, length};
ghost use Rattle.std.specs.List.{IsDistinct};
ghost use Rattle.toml.specs.View.{table_view};
ghost use Rattle.ale_base.specs.Text.{is_text};
ghost use Rattle.dist_model.specs.declared.kind.Kind.{Kind};
ghost use Rattle.dist_model.specs.declared.limits.TheConstants.{MOST_MESSAGES};
ghost use Rattle.dist_model.specs.Kind.{kind_names, AreKinds};
ghost use Rattle.dist_model.specs.Message.{message_names, reduced_names, AreMessages};
ghost use Rattle.model_keys.specs.Finding.{Gives};
ghost use Rattle.model_messages.specs.Kinds.{kinds_at};
ghost use Rattle.model_messages.specs.Messages.{messages_at};
ghost use Rattle.model_messages.specs.Reduced.{reduced_at};
ghost use Rattle.model_text.specs.Model.{subjects, subjects_of, subjects_on};
ghost use Rattle.model_text.specs.Rules.{IsBasics};

use crate::basics::Basics;
use crate::listed::{Listed, as_named};
use ale_base::Items;
use dist_model::{Filter, Kind, Message, Names, Reduced};
use model_keys::ReadError;
use model_messages::{Named, filters_at, kinds_at, messages_at, reduced_at};
use std::alloc::Global;
use toml::Table;

/// Kinds, message types, reduced ones and filters, with tables of the names of what is sent.
#[derive(Drop)]
pub(crate) struct Subjects {
    pub(crate) kinds: Items<Kind>,
    pub(crate) messages: Items<Message>,
    pub(crate) message_names: Names,
    pub(crate) reduced: Items<Reduced>,
    /// The names of the message types, and behind them those of the reduced ones.
    pub(crate) all_names: Names,
    pub(crate) filters: Items<Filter>,
}

/// The sections on what is sent.
#[tactic(auto, unfolding(crate::specs::Model::subjects_of))]
pub(crate) fn subjects_of(alloc: Global, on: &Basics, table: &Table) -> Result<Subjects, ReadError>
    requires { IsBasics on.now }
    ensures { Gives (λ subjects. subjects) result (subjects_of on.now (table_view table.now)) }
{
    let kinds = kinds_listed(alloc, on, table)?;
    let messages = messages_listed(alloc, on, &kinds, table)?;
    match variants_of(alloc, on, &messages, table) {
        Err(error) => Err(error),
        Ok(variants) => Ok(together(kinds, messages, variants)),
    }
}

/// The kinds.
fn kinds_listed(alloc: Global, on: &Basics, table: &Table) -> Result<Listed<Kind>, ReadError>
    requires { IsBasics on.now }
    ensures given { Gives (λ listed. listed.things) result (kinds_at on.now.definitions (table_view table.now)) }
    ensures named { IfOk result (λ listed. listed.names ≡ kind_names listed.things) }
    ensures kept { IfOk result (λ listed. AreKinds on.now.definitions listed.things) }
{
    let mut names = Names::new(alloc);
    let things = kinds_at(alloc, &on.definitions, &on.segment_names, &mut names, table)?;
    Ok(Listed { things, names })
}

/// The message types over these kinds.
fn messages_listed(
    alloc: Global,
    on: &Basics,
    kinds: &Listed<Kind>,
    table: &Table,
) -> Result<Listed<Message>, ReadError>
    requires on { IsBasics on.now }
    requires kinds { AreKinds on.now.definitions kinds.now.things }
    requires named { kinds.now.names ≡ kind_names kinds.now.things }
    ensures given { Gives (λ listed. listed.things) result
        (messages_at on.now.definitions on.now.types kinds.now.things (table_view table.now)) }
    ensures named { IfOk result (λ listed. listed.names ≡ message_names listed.things) }
    ensures kept { IfOk result (λ listed. AreMessages on.now.definitions on.now.types kinds.now.things listed.things) }
{
    let types = Named {
        things: on.types.as_slice(),
        names: &on.type_names,
    };
    let mut names = Names::new(alloc);
    let things = messages_at(
        alloc,
        &on.definitions,
        &types,
        &as_named(kinds),
        &mut names,
        table,
    )?;
    Ok(Listed { things, names })
}

/// Reduced message types and filters. The names are those of the message types, and behind them those of the reduced ones.
#[derive(Drop)]
struct Variants {
    reduced: Listed<Reduced>,
    filters: Items<Filter>,
}

/// The sections on the variants of these message types, whatever their kinds are.
#[tactic(auto, unfolding(crate::specs::Model::subjects_on))]
fn variants_of(
    alloc: Global,
    on: &Basics,
    messages: &Listed<Message>,
    table: &Table,
) -> Result<Variants, ReadError>
    requires on { IsBasics on.now }
    requires named { messages.now.names ≡ message_names messages.now.things }
    requires few { length messages.now.things ≤ MOST_MESSAGES }
    requires apart { IsDistinct is_text (message_names messages.now.things) }
    ensures given { (kinds : List Kind) → Gives
        (λ variants. subjects kinds messages.now.things variants.reduced.things variants.filters) result
        (subjects_on on.now kinds messages.now.things (table_view table.now)) }
    ensures named { IfOk result (λ variants.
        variants.reduced.names ≡ message_names messages.now.things ++ reduced_names variants.reduced.things) }
{
    let named = as_named(messages);
    let reduced = reduced_listed(alloc, on, &named, table)?;
    let filters = filters_at(
        alloc,
        &on.definitions,
        &on.segment_names,
        on.types.as_slice(),
        &named,
        table,
    )?;
    Ok(Variants { reduced, filters })
}

/// The reduced message types of these message types, with the names of both.
fn reduced_listed(
    alloc: Global,
    on: &Basics,
    messages: &Named<'_, Message>,
    table: &Table,
) -> Result<Listed<Reduced>, ReadError>
    requires on { IsBasics on.now }
    requires named { messages.now.names.now ≡ message_names messages.now.things.now }
    requires few { length messages.now.things.now ≤ MOST_MESSAGES }
    requires apart { IsDistinct is_text (message_names messages.now.things.now) }
    ensures given { Gives (λ listed. listed.things) result
        (reduced_at on.now.definitions on.now.types messages.now.things.now (table_view table.now)) }
    ensures named { IfOk result (λ listed.
        listed.names ≡ message_names messages.now.things.now ++ reduced_names listed.things) }
{
    let mut names = Names::new(alloc);
    let things = reduced_at(
        alloc,
        &on.definitions,
        &on.segment_names,
        on.types.as_slice(),
        messages,
        &mut names,
        table,
    )?;
    Ok(Listed { things, names })
}

/// All of them together.
fn together(kinds: Listed<Kind>, messages: Listed<Message>, variants: Variants) -> Subjects
    requires messages { messages.names ≡ message_names messages.things }
    requires reduced { variants.reduced.names ≡ message_names messages.things ++ reduced_names variants.reduced.things }
    ensures { result ≡ subjects kinds.things messages.things variants.reduced.things variants.filters }
{
    let reduced = variants.reduced;
    Subjects {
        kinds: kinds.things,
        messages: messages.things,
        message_names: messages.names,
        reduced: reduced.things,
        all_names: reduced.names,
        filters: variants.filters,
    }
}
