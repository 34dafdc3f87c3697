//! The named locators that aren't sound, as the report has them.

ghost use Rattle.scrub_report.specs.Report.{locator_data};

use crate::json_values::WriteJson;
use crate::object::{Value, write_object};
use json::Writer;
use scrub_check::Checked;
use scrub_disk::OutOfMemory;
use std::alloc::Global;

/// One of `hidden`, or of `dangling`, which has its status as `reason` too.
impl WriteJson for Checked {
    ghost shown = { locator_data };

    fn write_json(&self, alloc: Global, out: &mut Writer) -> Result<(), OutOfMemory> {
        let place = &self.locator;
        if self.status.is_hidden() {
            return write_object(
                alloc,
                out,
                &[
                    ("extent", Value::Number(u64::from(place.extent))),
                    ("length", Value::Number(u64::from(place.length))),
                    ("offset", Value::Number(u64::from(place.offset))),
                    ("owner", Value::Owner(self.owner)),
                    ("uuid", Value::Uuid(place.uuid)),
                ],
            );
        }
        write_object(
            alloc,
            out,
            &[
                ("extent", Value::Number(u64::from(place.extent))),
                ("length", Value::Number(u64::from(place.length))),
                ("offset", Value::Number(u64::from(place.offset))),
                ("owner", Value::Owner(self.owner)),
                ("reason", Value::Status(self.status)),
                ("uuid", Value::Uuid(place.uuid)),
            ],
        )
    }
}
