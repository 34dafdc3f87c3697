//! JSON objects: an object is a list of members, which one function writes.

ghost use Rattle.std.specs.Prelude.{◌≡◌, ◌++◌, OnOk, map};
ghost use Rattle.scrub_report.specs.Json.{with_keys};
ghost use Rattle.scrub_report.specs.steps.Tokens.{members_tokens, value_tokens};

use crate::items::write_items;
use crate::json_values::{WriteJson, write_list};
use json::Writer;
use scrub_check::{Owner, RunState, Status};
use scrub_disk::OutOfMemory;
use scrub_found::texts::{owner_text, state_text, status_text};
use scrub_scan::Item;
use std::alloc::Global;
use uuid::Uuid;

/// The length of a UUID's text, in bytes.
const UUID_TEXT_BYTES: usize = 36;

/// The value of a member.
#[derive(Clone, Copy)]
pub(crate) enum Value<'a> {
    /// A number.
    Number(u64),
    /// A number, or null.
    Optional(Option<u64>),
    /// A number of 32 bits, or null.
    Optional32(Option<u32>),
    /// `true` or `false`.
    Flag(bool),
    /// The owner of a locator.
    Owner(Owner),
    /// The status of a locator.
    Status(Status),
    /// What became of an index run.
    State(RunState),
    /// A UUID as RFC 9562 writes it, in lower case.
    Uuid(Uuid),
    /// A list of numbers.
    Numbers(&'a [u32]),
    /// A list of items, each by its line.
    Items(&'a [Item]),
}

impl WriteJson for Value<'_> {
    ghost use Rattle.scrub_report.specs.steps.Values.{value_data};

    ghost shown = { value_data };

    fn write_json(&self, alloc: Global, out: &mut Writer) -> Result<(), OutOfMemory> {
        match self {
            Value::Number(number) => out.u64(*number),
            Value::Optional(number) => number.write_json(alloc, out),
            Value::Optional32(number) => number.write_json(alloc, out),
            Value::Flag(flag) => out.boolean(*flag),
            Value::Owner(owner) => {
                let text = owner_text(alloc, *owner)?;
                out.string(&text)
            }
            Value::Status(status) => out.string(status_text(*status)),
            Value::State(state) => out.string(state_text(*state)),
            Value::Uuid(uuid) => {
                let mut buffer = [0; UUID_TEXT_BYTES];
                out.string(uuid.hyphenated().encode_lower(&mut buffer))
            }
            Value::Numbers(numbers) => write_list(alloc, out, numbers),
            Value::Items(items) => write_items(alloc, out, items),
        }
    }
}

/// Writes members of an object, without its braces.
pub(crate) fn write_members<V: WriteJson>(
    alloc: Global,
    out: &mut Writer,
    members: &[(&str, V)],
) -> Result<(), OutOfMemory>
    ensures tokens { OnOk result (out.new.tokens ≡ out.old.tokens ++
        members_tokens (map (λ m. (m.0.now, V.shown m.1)) members.now)) }
    ensures before { out.new.before ≡ out.old.before }
{
    for (key, value) in members {
        out.key(key)?;
        value.write_json(alloc, out)?;
    }
    Ok(())
}

/// Writes an object with these members.
pub(crate) fn write_object<V: WriteJson>(
    alloc: Global,
    out: &mut Writer,
    members: &[(&str, V)],
) -> Result<(), OutOfMemory>
    ensures tokens { OnOk result (out.new.tokens ≡ out.old.tokens ++
        value_tokens (with_keys (map (λ m. (m.0.now, V.shown m.1)) members.now))) }
    ensures before { out.new.before ≡ out.old.before }
{
    out.begin_object()?;
    write_members(alloc, out, members)?;
    out.end_object()
}
