//! Chunks at their places, and the extents that can be reclaimed, as the report has them.

ghost use Rattle.scrub_report.specs.Report.{place_data};
ghost use Rattle.scrub_report.specs.steps.Values.{candidate_data, shared_data};

use crate::json_values::WriteJson;
use crate::object::{Value, write_object};
use json::Writer;
use scrub_check::{Candidate, Place, SharedPlace};
use scrub_disk::OutOfMemory;
use std::alloc::Global;

/// Room for a chunk at its place: 107 bytes at most, and a comma.
pub(crate) const PLACE_ROOM: usize = 108;

/// One of `orphans`, or of `twins`.
impl WriteJson for Place {
    ghost shown = { place_data };

    fn write_json(&self, alloc: Global, out: &mut Writer) -> Result<(), OutOfMemory> {
        write_object(
            alloc,
            out,
            &[
                ("extent", Value::Number(u64::from(self.extent))),
                ("length", Value::Number(u64::from(self.length))),
                ("offset", Value::Number(u64::from(self.offset))),
                ("uuid", Value::Uuid(self.uuid)),
            ],
        )
    }
}

/// One of `shared`.
impl WriteJson for SharedPlace {
    ghost shown = { shared_data };

    fn write_json(&self, alloc: Global, out: &mut Writer) -> Result<(), OutOfMemory> {
        write_object(
            alloc,
            out,
            &[
                ("count", Value::Number(self.count as u64)),
                ("extent", Value::Number(u64::from(self.extent))),
                ("offset", Value::Number(u64::from(self.offset))),
            ],
        )
    }
}

/// One of `candidates`.
impl WriteJson for Candidate {
    ghost shown = { candidate_data };

    fn write_json(&self, alloc: Global, out: &mut Writer) -> Result<(), OutOfMemory> {
        write_object(
            alloc,
            out,
            &[
                ("extent", Value::Number(u64::from(self.extent()))),
                ("free", Value::Number(u64::from(self.free()))),
                ("keep", Value::Numbers(self.keep())),
            ],
        )
    }
}
