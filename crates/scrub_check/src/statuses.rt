//! The status of a locator: by the findings, by what is claimed at its place, or by what is read there.

pub(crate) mod by_place;
pub mod checked;
pub mod chunk_form;
pub(crate) mod counted_items;
pub(crate) mod extents;
pub(crate) mod nearby;
pub(crate) mod open_place;
pub mod searching;
pub(crate) mod sound_and_others;
pub mod status;
pub(crate) mod whole_scan;
