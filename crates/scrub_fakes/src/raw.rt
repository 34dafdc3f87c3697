//! A raw image over borrowed bytes.

ghost use Rattle.std.specs.Prelude.{◌≡◌, ◌≤◌, ◌<◌, ◌↔◌, Some, IsTrue, nat_lt};

use scrub_disk::{RawFault, RawImage};

/// A raw image of these bytes. A read gives a limited number of bytes, and some reads fail.
#[derive(Drop)]
pub struct RawBytes<'a> {
    /// All its bytes.
    pub bytes: &'a [u8],
    /// The maximum number of bytes that one read gives.
    pub most: usize,
    /// The first read that may fail, counted from 0.
    pub failing: u64,
    /// The number of reads that fail.
    pub faults: u64,
    /// The number of reads that were made.
    pub reads: u64,
    /// The number of these that failed.
    pub failures: u64,
    pub ghost gives: { 1 ≤ most },
    pub ghost counted: { failures ≤ reads },
    pub ghost bounded: { failures ≤ faults },
}

impl<'a> RawBytes<'a> {
    /// A raw image whose reads give all that there is, and never fail.
    pub fn new(bytes: &'a [u8]) -> RawBytes<'a>
        ensures bytes { result.bytes.now ≡ bytes.now }
        ensures faults { result.faults ≡ 0 }
        ensures unread { (result.reads ≡ 0) × (result.failures ≡ 0) }
    {
        RawBytes::failing(bytes, usize::MAX, 0, 0)
    }

    /// A raw image whose reads give at most `most` bytes. From read number `failing` on, counted from 0,
    /// `faults` reads fail.
    pub fn failing(bytes: &'a [u8], most: usize, failing: u64, faults: u64) -> RawBytes<'a>
        requires { 1 ≤ most }
        ensures bytes { result.bytes.now ≡ bytes.now }
        ensures sizes { (result.most ≡ most) × (result.failing ≡ failing) }
        ensures faults { result.faults ≡ faults }
        ensures unread { (result.reads ≡ 0) × (result.failures ≡ 0) }
    {
        RawBytes {
            bytes,
            most,
            failing,
            faults,
            reads: 0,
            failures: 0,
        }
    }

    /// Whether the next read fails.
    pub fn fails_next(&self) -> bool
        ensures { IsTrue result ↔
            (self.now.failing ≤ self.now.reads) × (self.now.failures < self.now.faults) }
    {
        self.reads >= self.failing && self.failures < self.faults
    }
}

impl RawImage for RawBytes<'_> {
    ghost bytes = { λ image. Some image.bytes.now };

    ghost fails = { λ image _ _. nat_lt 0 image.faults };

    ghost reads = { λ image. image.reads };

    ghost failures = { λ image. image.failures };

    ghost most_failures = { λ image. image.faults };

    ghost failures_are_reads = { λ image. image.counted };

    ghost failures_are_bounded = { λ image. image.bounded };

    fn read_at(&mut self, offset: u64, out: &mut [u8]) -> Result<usize, RawFault> {
        let fails = self.fails_next();
        self.reads += 1;
        if fails {
            self.failures += 1;
            return Err(RawFault);
        }
        let start = self.bytes.len().min(offset as usize);
        let count = out.len().min(self.most).min(self.bytes.len() - start);
        out[..count].copy_from_slice(&self.bytes[start..start + count]);
        Ok(count)
    }
}
