//! Where raw images and the maps of rescues come from, by name. For the pages of an image see `scrub_disk`,
//! and for the lines of a map `scrub_map`.

ghost use Rattle.std.specs.Prelude.{◌≡◌, ◌≤◌, ◌<◌, ◌^◌, ℕ, All, Err, List, IfNone, IfOk, IfSome, IsTrue};
ghost use Rattle.std.specs.Prelude.{sum_by, vec_len};
ghost use Rattle.scrub_cli.specs.KnownFiles.{KnownMaps, KnownRaw};

use scrub_disk::{OutOfMemory, RawImage};
use std::alloc::Global;

/// Why the text of a map can't be read.
#[derive(Debug, Clone, Copy, PartialEq, Eq)]
pub enum MapReadFault {
    /// The map can't be opened, or a read of it failed.
    NotOpened,
    /// Memory ran out.
    OutOfMemory,
}

/// Raw images and maps by name. Contracts see what is known of them before they are opened: of an image its
/// bytes, if they are known, which of its reads may fail, and how many fail at most; of a map its text, if
/// that is known; and of each whether it may fail to open. Of files neither bytes nor text are known, each
/// may fail to open, and so may each read.
pub trait Images {
    type Image: RawImage + Send + Drop;

    ghost known: { Self → List ℕ → KnownRaw };

    ghost known_map: { Self → KnownMaps };

    /// The raw image of this name, before any read of it, or `None` if it can't be opened.
    fn image(&mut self, name: &str) -> Option<Self::Image>
        ensures known { IfSome result (λ image. Self.Image.bytes image ≡ (known self.old name.now).bytes) }
        ensures faults { IfSome result (λ image. Self.Image.fails image ≡ (known self.old name.now).fails) }
        ensures bounded { IfSome result (λ image. Self.Image.most_failures image ≡
            (known self.old name.now).most_failures) }
        ensures unread { IfSome result (λ image. Self.Image.reads image ≡ 0) }
        ensures unopened { IfNone result (IsTrue (known self.old name.now).fails_to_open) }
        ensures same_images { known self.new ≡ known self.old }
        ensures same_maps { known_map self.new ≡ known_map self.old };

    /// Readers of an image that was opened, to be used side by side: at least one, and at most `most`. All of
    /// them read this image. Here it is the only one.
    fn beside(
        &mut self,
        alloc: Global,
        image: Self::Image,
        most: usize,
    ) -> Result<Vec<Self::Image>, OutOfMemory>
        requires some { 0 < most }
        requires few { most ≤ 64 }
        requires few_reads { Self.Image.reads image < 2 ^ 62 }
        ensures some { IfOk result (λ readers. 0 < vec_len readers) }
        ensures few { IfOk result (λ readers. vec_len readers ≤ most) }
        ensures known { IfOk result
            (λ readers. All (λ r. Self.Image.bytes r ≡ Self.Image.bytes image) readers.items) }
        ensures faults { IfOk result
            (λ readers. All (λ r. Self.Image.fails r ≡ Self.Image.fails image) readers.items) }
        ensures bounded { IfOk result (λ readers.
            sum_by (λ r. Self.Image.most_failures r) readers.items ≤ Self.Image.most_failures image) }
        ensures few_reads { IfOk result (λ readers. All (λ r. Self.Image.reads r < 2 ^ 62) readers.items) }
        ensures same_images { known self.new ≡ known self.old }
        ensures same_maps { known_map self.new ≡ known_map self.old }
    {
        let mut readers = Vec::new(alloc);
        readers.push(image)?;
        Ok(readers)
    }

    /// The whole text of the map of this name.
    fn map(&mut self, alloc: Global, name: &str) -> Result<Vec<u8>, MapReadFault>
        ensures known { IfOk result (λ text. IfSome (known_map self.old name.now).text
            (λ bytes. text.items ≡ bytes)) }
        ensures unopened { result ≡ Err MapReadFault.NotOpened →
            IsTrue (known_map self.old name.now).fails_to_open }
        ensures same_images { known self.new ≡ known self.old }
        ensures same_maps { known_map self.new ≡ known_map self.old };
}
