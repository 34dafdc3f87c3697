//! An index run, as the report has it.

use crate::json_values::WriteJson;
use crate::object::{Value, write_object};
use json::Writer;
use scrub_disk::OutOfMemory;
use scrub_found::RunRow;
use std::alloc::Global;

/// One of `runs`.
impl WriteJson for RunRow {
    ghost use Rattle.scrub_report.specs.steps.Values.{row_data};

    ghost shown = { row_data };

    fn write_json(&self, alloc: Global, out: &mut Writer) -> Result<(), OutOfMemory> {
        write_object(
            alloc,
            out,
            &[
                ("entries", Value::Optional(self.entries)),
                ("extent", Value::Number(u64::from(self.locator.extent))),
                ("offset", Value::Number(u64::from(self.locator.offset))),
                ("state", Value::State(self.state)),
            ],
        )
    }
}
