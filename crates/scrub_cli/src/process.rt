//! What a run needs of its process: images and maps by name, and for each fault and each outcome
//! its line on the error stream and its status.

pub(crate) mod decimal;
pub(crate) mod fault;
pub(crate) mod files;
pub(crate) mod images;
pub(crate) mod outcome;
