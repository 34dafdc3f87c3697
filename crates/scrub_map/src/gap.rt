//! Gaps between the bytes that were rescued.

ghost use Rattle.std.specs.Prelude.{◌≡◌, ◌≤◌, ◌<◌, ◌+◌, ◌*◌, ◌^◌, length};

/// Bytes that no rescued block covers: from `from` up to but not including `to`.
#[derive(Clone, Copy)]
pub(crate) struct Gap {
    pub(crate) from: u64,
    pub(crate) to: u64,
    ghost has_a_byte: { from < to },
}

impl Gap {
    ghost use Rattle.scrub_map.specs.steps.Gaps.{MarksGap};

    /// Marks each block of `size` bytes that has a byte of the gap before `end`.
    pub(crate) fn mark(self, marks: &mut [bool], size: u32, end: u64)
        requires { 0 < size }
        ensures { MarksGap self size end marks.old marks.new }
    {
        if end <= self.from {
            return;
        }
        let size = u64::from(size);
        let behind = ((self.to.min(end) - 1) / size + 1).min(marks.len() as u64);
        for number in self.from / size..behind {
            marks[number as usize] = true;
        }
    }
}
