//! A disk's sizes and its superblock, as the report has them.

ghost use Rattle.std.specs.Prelude.{◌≡◌, ◌++◌, OnOk, option_map};
ghost use Rattle.scrub_report.specs.steps.Tokens.{value_tokens};
ghost use Rattle.scrub_report.specs.steps.Values.{geometry_data, super_data};

use crate::object::{Value, write_object};
use json::Writer;
use scrub_disk::{Geometry, OutOfMemory};
use scrub_super::Chosen;
use std::alloc::Global;

/// Writes `geometry`.
pub(crate) fn write_geometry(
    alloc: Global,
    out: &mut Writer,
    geometry: Geometry,
) -> Result<(), OutOfMemory>
    ensures tokens { OnOk result (out.new.tokens ≡ out.old.tokens ++ value_tokens (geometry_data geometry)) }
    ensures before { out.new.before ≡ out.old.before }
{
    write_object(
        alloc,
        out,
        &[
            ("extents", Value::Number(u64::from(geometry.extents()))),
            ("page", Value::Number(u64::from(geometry.page()))),
            ("pages", Value::Number(u64::from(geometry.pages()))),
        ],
    )
}

/// The generation of the superblock, if there is one.
fn generation_of(chosen: &Chosen) -> Option<u64>
    ensures { result ≡ option_map (λ s. s.generation) chosen.now.superblock }
{
    chosen
        .superblock()
        .map(|superblock| superblock.generation())
}

/// Writes `super`.
pub(crate) fn write_super(
    alloc: Global,
    out: &mut Writer,
    chosen: &Chosen,
) -> Result<(), OutOfMemory>
    ensures tokens { OnOk result (out.new.tokens ≡ out.old.tokens ++ value_tokens (super_data chosen.now)) }
    ensures before { out.new.before ≡ out.old.before }
{
    write_object(
        alloc,
        out,
        &[
            ("bad", Value::Numbers(chosen.bad_pages())),
            ("generation", Value::Optional(generation_of(chosen))),
            ("page", Value::Optional32(chosen.page())),
            ("records", Value::Number(u64::from(chosen.records()))),
            ("tie", Value::Flag(chosen.tie())),
        ],
    )
}
