//! Numbers, shards and lists as JSON. Objects are in `object`.

ghost use Rattle.std.specs.Prelude.{◌≡◌, ◌++◌, OnOk, map};
ghost use Rattle.serde_json.specs.Data.{Data};
ghost use Rattle.scrub_report.specs.Json.{list};
ghost use Rattle.scrub_report.specs.steps.Tokens.{shown_tokens, value_tokens};

use json::Writer;
use scrub_disk::OutOfMemory;
use scrub_found::texts::id_text;
use scrub_run::ShardId;
use std::alloc::Global;

/// A type that the report has as a JSON value.
pub(crate) trait WriteJson {
    /// Which value it is.
    ghost shown: { Self → Data };

    /// Writes the value.
    fn write_json(&self, alloc: Global, out: &mut Writer) -> Result<(), OutOfMemory>
        ensures tokens { OnOk result (out.new.tokens ≡ out.old.tokens ++ value_tokens (shown self.now)) }
        ensures before { out.new.before ≡ out.old.before };
}

/// Writes these elements one after another, without the brackets of a list.
pub(crate) fn write_elements<T: WriteJson>(
    alloc: Global,
    out: &mut Writer,
    items: &[T],
) -> Result<(), OutOfMemory>
    ensures tokens { OnOk result (out.new.tokens ≡ out.old.tokens ++ shown_tokens T.shown items.now) }
    ensures before { out.new.before ≡ out.old.before }
{
    for item in items {
        item.write_json(alloc, out)?;
    }
    Ok(())
}

/// Writes these elements as a list.
pub(crate) fn write_list<T: WriteJson>(
    alloc: Global,
    out: &mut Writer,
    items: &[T],
) -> Result<(), OutOfMemory>
    ensures tokens { OnOk result (out.new.tokens ≡ out.old.tokens ++
        value_tokens (list (map T.shown items.now))) }
    ensures before { out.new.before ≡ out.old.before }
{
    out.begin_array()?;
    write_elements(alloc, out, items)?;
    out.end_array()
}

impl WriteJson for u32 {
    ghost use Rattle.scrub_report.specs.Json.{natural};

    ghost shown = { natural };

    fn write_json(&self, _alloc: Global, out: &mut Writer) -> Result<(), OutOfMemory> {
        out.u64(u64::from(*self))
    }
}

/// The number, or null.
impl WriteJson for Option<u32> {
    ghost use Rattle.scrub_report.specs.Json.{natural_or_null};

    ghost shown = { natural_or_null };

    fn write_json(&self, _alloc: Global, out: &mut Writer) -> Result<(), OutOfMemory> {
        match self {
            Some(number) => out.u64(u64::from(*number)),
            None => out.null(),
        }
    }
}

/// The number, or null.
impl WriteJson for Option<u64> {
    ghost use Rattle.scrub_report.specs.Json.{natural_or_null};

    ghost shown = { natural_or_null };

    fn write_json(&self, _alloc: Global, out: &mut Writer) -> Result<(), OutOfMemory> {
        match self {
            Some(number) => out.u64(*number),
            None => out.null(),
        }
    }
}

impl WriteJson for ShardId {
    ghost use Rattle.serde_json.specs.Data.{string};
    ghost use Rattle.hex.specs.Hex.{encode_lower};

    ghost shown = { λ id. string (encode_lower id.0) };

    fn write_json(&self, alloc: Global, out: &mut Writer) -> Result<(), OutOfMemory> {
        let id = id_text(alloc, *self)?;
        out.string(&id)
    }
}
