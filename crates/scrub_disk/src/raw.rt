//! Raw images: the bytes of a whole disk, as a file gives them, in pieces and with failures. `loading` cuts
//! them into pages.

ghost use Rattle.std.specs.Prelude.{◌≡◌, ◌≤◌, ◌+◌, ◌<◌, ◌^◌, ℕ, Bool, IsTrue, List, Option, IfOk};
ghost use Rattle.std.specs.Prelude.{OnErr, if◌then◌else◌, is_ok, length};
ghost use Rattle.scrub_disk.specs.Raw.{IsRead};

use thiserror::Error;

/// A read of a raw image failed.
#[derive(Debug, Clone, Copy, PartialEq, Eq, Error)]
#[error("the raw image could not be read")]
pub struct RawFault;

/// The bytes of a whole disk, which never change. A read may give fewer bytes than were asked for, and it may
/// fail. The counts exist in contracts only.
pub trait RawImage {
    /// Its bytes, or None if they aren't known, as with a file.
    ghost bytes: { Self → Option (List ℕ) };
    /// Whether a read of so many bytes from a byte offset on may fail: the offset first. No read changes it.
    ghost fails: { Self → ℕ → ℕ → Bool };
    /// How many reads were made. It is bounded so that an implementation may count in 64 bits.
    ghost reads: { Self → ℕ };
    /// How many of them failed.
    ghost failures: { Self → ℕ };
    /// A bound on how many of its reads ever fail. No read changes it, so a caller knows it beforehand.
    ghost most_failures: { Self → ℕ };

    /// Reads bytes from a byte offset on into the front of `out`, and returns how many. If the bytes of the
    /// image are known, that is 0 only if `out` is empty, or if the offset is at the end or past it. The rest
    /// of `out` may then hold anything, and so may all of it after a failure.
    fn read_at(&mut self, offset: u64, out: &mut [u8]) -> Result<usize, RawFault>
        requires { reads self.old < 2 ^ 63 }
        ensures same_bytes { bytes self.new ≡ bytes self.old }
        ensures same_fails { fails self.new ≡ fails self.old }
        ensures same_bound { most_failures self.new ≡ most_failures self.old }
        ensures one_read { reads self.new ≡ reads self.old + 1 }
        ensures one_failure { failures self.new ≡
            (if is_ok result then failures self.old else failures self.old + 1) }
        ensures failed { OnErr result (IsTrue (fails self.old offset (length out.old))) }
        ensures read { IfOk result (λ n. IsRead (bytes self.old) offset out.new n) };

    /// A failure is a failed read.
    ghost failures_are_reads: { (image : Self) → failures image ≤ reads image };

    /// No more reads fail than the bound allows.
    ghost failures_are_bounded: { (image : Self) → failures image ≤ most_failures image };
}
