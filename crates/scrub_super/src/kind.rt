//! The kinds of record, and the four bytes that a record of each begins with.

ghost use Rattle.std.specs.Prelude.{◌≡◌, IfNone, IfSome, take};
ghost use Rattle.scrub_super.specs.Pages.{magic_of};
ghost use Rattle.scrub_super.specs.steps.RecordRead.{kind_by};
ghost use Rattle.scrub_super.specs.declared.kind.RecordKind.{RecordKind};

/// The kind of a record, by its first four bytes.
#[derive(Debug, Clone, Copy, PartialEq, Eq)]
pub enum RecordKind {
    /// `SSB1`: it has no list of retired extents.
    Ssb1,
    /// `SSB2`: it has such a list, which may be empty.
    Ssb2,
}

impl RecordKind {
    /// The four letters that a record of this kind begins with.
    pub fn letters(self) -> &'static str
        ensures { result.now ≡ magic_of self }
    {
        match self {
            RecordKind::Ssb1 => "SSB1",
            RecordKind::Ssb2 => "SSB2",
        }
    }

    /// The kind of the record that the bytes begin with, if they begin with the letters of one.
    pub(crate) fn at(bytes: &[u8]) -> Option<RecordKind>
        ensures found { IfSome result (λ kind. take 4 bytes.now ≡ magic_of kind) }
        ensures none { IfNone result ((kind : RecordKind) → ¬ (take 4 bytes.now ≡ magic_of kind)) }
    {
        if bytes.starts_with(RecordKind::Ssb1.letters().as_bytes()) {
            return Some(RecordKind::Ssb1);
        }
        if bytes.starts_with(RecordKind::Ssb2.letters().as_bytes()) {
            return Some(RecordKind::Ssb2);
        }
        None
    }

    /// The kind of a record with so many retired extents, if they are listed.
    pub(crate) fn of(retired: Option<usize>) -> RecordKind
        ensures { result ≡ kind_by retired }
    {
        match retired {
            None => RecordKind::Ssb1,
            Some(_) => RecordKind::Ssb2,
        }
    }
}
