//! Texts of the report and of lines: identifiers, owners and statuses of locators, and what became of a run.

ghost use Rattle.std.specs.Prelude.{◌≡◌, IfOk, string_bytes};
ghost use Rattle.hex.specs.Hex.{encode_lower};
ghost use Rattle.scrub_found.specs.Texts.{owner_text, state_text, status_text};

use scrub_check::{Owner, RunState, Status};
use scrub_disk::OutOfMemory;
use scrub_run::ShardId;
use std::alloc::Global;

/// A shard's identifier, as 32 lower-case hexadecimal digits.
pub fn id_text(alloc: Global, id: ShardId) -> Result<String, OutOfMemory>
    ensures { IfOk result (λ text. string_bytes text ≡ encode_lower id.0) }
{
    hex::encode(alloc, id.0)
}

/// The owner of a locator: `run K` or `shard IDENTIFIER`.
pub fn owner_text(alloc: Global, owner: Owner) -> Result<String, OutOfMemory>
    ensures { IfOk result (λ text. string_bytes text ≡ owner_text owner) }
{
    match owner {
        Owner::Run(number) => format!(in alloc; "run {number}"),
        Owner::Shard(id) => {
            let id = id_text(alloc, id)?;
            format!(in alloc; "shard {id}")
        }
    }
}

/// The word for a locator's status. The report has it for dangling locators and for lost runs.
pub fn status_text(status: Status) -> &'static str
    ensures { result.now ≡ status_text status }
{
    match status {
        Status::OutOfRange => "out_of_range",
        Status::Retired => "retired",
        Status::PastPointer => "past_pointer",
        Status::Unreadable => "unreadable",
        Status::NoFrame => "no_frame",
        Status::WrongUuid => "wrong_uuid",
        Status::WrongLength => "wrong_length",
        Status::WrongDigest => "wrong_digest",
        Status::Hidden => "hidden",
        Status::Sound => "sound",
    }
}

/// The word for what became of an index run.
pub fn state_text(state: RunState) -> &'static str
    ensures { result.now ≡ state_text state }
{
    match state {
        RunState::Read => "read",
        RunState::BadChunk(status) => status_text(status),
        RunState::NotARun => "not_a_run",
    }
}
