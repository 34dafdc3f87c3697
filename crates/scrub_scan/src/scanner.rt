//! Finds the item at a place of an extent, reading one page at a time. `tiling` decides which places to look
//! at.

ghost use Rattle.std.specs.Prelude.{◌≡◌, ◌+◌, ◌-◌, ◌*◌, ◌/◌, ◌^◌, ◌<◌, ◌≤◌, ◌↔◌, ◌++◌, ◌∷◌, [], ℕ, List};
ghost use Rattle.std.specs.Prelude.{true, false, None, Some, IsTrue, IfOk, IfSome, Option, min};
ghost use Rattle.std.specs.Prelude.{MatchBool, MatchOption, IsSomeAnd};
ghost use Rattle.std.specs.Prelude.{length, take, slice_index, slice_range, option_map};
ghost use Rattle.scrub_disk.specs.Limits.{max_extent_bytes};
ghost use Rattle.scrub_disk.specs.Image.{Image, image_byte, extent_bytes, AreBytesAt};
ghost use Rattle.scrub_frame.specs.declared.form.Form.{Form};
ghost use Rattle.scrub_frame.specs.Frame.{magic, frame_overhead};
ghost use Rattle.scrub_frame.specs.Matching.{left};
ghost use Rattle.scrub_scan.specs.declared.item.Item.{Item};
ghost use Rattle.scrub_scan.specs.declared.pages.Target.{Target};
ghost use Rattle.scrub_scan.specs.Extent.{Extent, NoFrameAt, HasGap, bound_above};
ghost use Rattle.scrub_scan.specs.Item.{start_of, stop_of, IsItem};
ghost use Rattle.scrub_scan.specs.steps.Pages.{HoldBoth, IsTarget, target_of, Scans, IsFound, Passes};
ghost use Rattle.scrub_scan.specs.steps.Pages.{IsPassed, HasRead, HasLoaded, IsNear, ReadsFar, ReadsFrame};
ghost use Rattle.scrub_scan.specs.steps.Pages.{ReadsFrameAt, ReadsItem, KeepsReads, last_page, found_by};
ghost use Rattle.scrub_scan.specs.Standing.{IsClaimedAt};
ghost use Rattle.scrub_scan.specs.steps.Gathering.{IsGathered, IsScannedFrame, IsScannedItem};
ghost use Rattle.sha_lanes.specs.Gathered.{Gathers};

use crate::counted_source::{CountedSource, PagesAsked};
use crate::found_frame::FoundFrame;
use crate::item::Item;
use crate::pages::{PageMemory, Target, TwoPages};
use scrub_disk::{OutOfMemory, PageSource, is_zero};
use scrub_frame::{
    CLOSE_BYTES, DIGEST_BYTES, Fed, Form, HEAD_BYTES, Head, LEAST_OVERHEAD, Matcher, put_part,
    read_head,
};
use sha_lanes::Batch;

/// The longest payload that is gathered in a batch, to be hashed beside others; a longer one is hashed at
/// once.
pub(crate) const LONGEST_GATHERED: u32 = 4_194_304;

/// An item that was found, and whether its payload is in the batch: then it has no digest yet, or its seal
/// for one.
#[derive(Clone, Copy)]
pub(crate) struct ScannedItem {
    pub item: Item,
    pub is_gathered: bool,
}

/// A frame that was found, and whether its payload is in the batch: then it has no digest yet, or its seal
/// for one.
#[derive(Clone, Copy)]
pub(crate) struct ScannedFrame {
    pub found: FoundFrame,
    pub is_gathered: bool,
}

/// Reads an extent page by page. It keeps two pages, the running digest of the current frame, and the number
/// of one unreadable page.
#[derive(Drop)]
pub(crate) struct Scanner {
    pub pages: TwoPages,
    matcher: Matcher,
    /// The last unreadable page that cut off a frame. Other frames that claim it are refused without being
    /// read.
    gap: Option<u32>,
}

/// Whether a part begins with the magic of one of the forms.
fn has_magic(part: &[u8]) -> bool
    ensures found { IsTrue result → (2 ≤ length part.now) ×
        ((f : Form) × (slice_index part.now 0 ∷ slice_index part.now 1 ∷ [] ≡ magic f)) }
    ensures none { result ≡ false → 2 ≤ length part.now → (f : Form) →
        ¬ (slice_index part.now 0 ∷ slice_index part.now 1 ∷ [] ≡ magic f) }
{
    part.len() >= 2 && Form::with_magic(part[0], part[1]).is_some()
}

/// The item of a readable part: it begins at a place with no frame, and goes up to the next bound.
fn readable_item(part: &[u8], start: u32, stop: u32) -> Item
    requires some { start < stop }
    requires whole { start + length part.now ≡ stop }
    ensures start { start_of result ≡ start }
    ensures stop { stop_of result ≡ stop }
    ensures item { (x : Extent) → start < x.pointer → stop ≡ bound_above x start → NoFrameAt x start →
        AreBytesAt x.byte start part.now → IsItem x result }
{
    if is_zero(part) {
        Item::Pad { start, stop }
    } else if has_magic(part) {
        Item::Torn { start, stop }
    } else {
        Item::Noise { start, stop }
    }
}

/// The bytes of a part that are between two places of the extent. The part begins at `place`.
fn bytes_between(part: &[u8], place: usize, first: usize, last: usize) -> &[u8]
    requires order { first ≤ last }
    requires small { place + length part.now ≤ max_extent_bytes }
    ensures { result.now ≡ slice_range part.now (min (length part.now) (first - place))
        (min (length part.now) (last - place)) }
{
    let from = first.saturating_sub(place).min(part.len());
    let to = last.saturating_sub(place).min(part.len());
    &part[from..to]
}

/// Puts the bytes of a part that are between two places of the extent after those that `out` has from
/// before. The part begins at `place`.
fn put_between(out: &mut [u8], part: &[u8], place: usize, first: usize, last: usize)
    requires order { first ≤ last }
    requires room { last ≤ first + length out.old }
    requires small { place + length part.now ≤ max_extent_bytes }
    ensures size { length out.new ≡ length out.old }
    ensures put { (at : ℕ → Option ℕ) → AreBytesAt at place part.now →
        AreBytesAt at first (take (min place last - first) out.old) →
        AreBytesAt at first (take (min (place + length part.now) last - first) out.new) }
{
    let done = place.min(last).saturating_sub(first);
    put_part(out, done, bytes_between(part, place, first, last));
}

/// Whether the payload of a frame with this head is added to a batch. That of a sealed frame is if its seal
/// is trusted.
fn gathers(head: &Head, trusts: bool) -> bool
    ensures { result ≡ true → trusts ≡ false → head.now.form ≡ Form.Plain }
{
    head.length <= LONGEST_GATHERED && (trusts || head.form == Form::Plain)
}

impl Scanner {
    /// A scanner that has read nothing.
    pub fn new(memory: PageMemory, page: usize, asked: PagesAsked) -> Result<Scanner, OutOfMemory>
        requires page { 0 < page }
        requires none { asked ≡ 0 }
        ensures scans { (image : Image) (t : Target) → page ≡ image.geometry.page →
            IfOk result (Scans image t) }
        ensures asked { IfOk result (λ s. s.pages.asked ≡ 0) }
        ensures read { IfOk result (λ s. HasRead s.pages 0) }
    {
        let pages = TwoPages::new(memory, page, asked)?;
        Ok(Scanner {
            pages,
            matcher: Matcher::new(1),
            gap: None,
        })
    }

    /// The memory of its buffers and the count of its reads, when it is done.
    pub fn into_parts(self) -> (PageMemory, PagesAsked)
        ensures { result.1 ≡ self.pages.asked }
    {
        let Scanner { pages, .. } = self;
        pages.into_parts()
    }

    /// Whether the tiling could go back to a page after one more item, and go on from there without asking
    /// for more pages than a tiling may: for each page, one call for each page of the extent and five more.
    pub fn may_return<D: PageSource>(&self, disk: &CountedSource<'_, D>, page: usize) -> bool
        requires { page ≤ max_extent_bytes }
        ensures { result ≡ true → self.now.pages.asked + 4 + (D.image disk.now).geometry.pages ≤
            page * ((D.image disk.now).geometry.pages + 5) }
    {
        let pages = disk.geometry().pages() as u64;
        self.pages.asked.count().saturating_add(pages + 4) <= page as u64 * (pages + 5)
    }

    /// The item that begins at a place below the pointer. If it is a chunk, its payload may be added to the
    /// batch in place of being hashed; that of a sealed chunk only if seals are trusted.
    pub fn item_at<D: PageSource>(
        &mut self,
        disk: &CountedSource<'_, D>,
        target: &Target,
        start: usize,
        trusts: bool,
        batch: &mut Batch,
    ) -> Result<ScannedItem, OutOfMemory>
        requires target { IsTarget (D.image disk.now) target.now }
        requires scans { Scans (D.image disk.now) target.now self.old }
        requires below { start < target.now.pointer }
        ensures scans { IfOk result (λ _. Scans (D.image disk.now) target.now self.new) }
        ensures spans { IfOk result (λ r. (start_of r.item ≡ start) × (start < stop_of r.item) ×
            (stop_of r.item ≤ target.now.pointer)) }
        ensures item { (messages : List (List ℕ)) → Gathers batch.old messages [] →
            IfOk result (λ r.
            IsScannedItem (target_of (D.image disk.now) target.now) trusts r messages batch.new) }
        ensures reads { IfOk result (λ r. ReadsItem (D.image disk.now) target.now start (stop_of r.item)
            self.old.pages self.new.pages) }
    {
        let met = self.scan_frame(disk, target, start, trusts, batch)?;
        match met {
            Some(met) => {
                Ok(ScannedItem {
                    item: self.chunk_of(target, start, met.found),
                    is_gathered: met.is_gathered,
                })
            }
            None => {
                Ok(ScannedItem {
                    item: self.unframed_at(target, start),
                    is_gathered: false,
                })
            }
        }
    }

    /// The frame at a place below the pointer, if there is one. The page of the place becomes the near one. A
    /// short payload is added to the batch in place of being hashed, unless it is of a sealed frame and seals
    /// aren't trusted: if one is wrong, there is no frame.
    fn scan_frame<D: PageSource>(
        &mut self,
        disk: &CountedSource<'_, D>,
        target: &Target,
        start: usize,
        trusts: bool,
        batch: &mut Batch,
    ) -> Result<Option<ScannedFrame>, OutOfMemory>
        requires target { IsTarget (D.image disk.now) target.now }
        requires scans { Scans (D.image disk.now) target.now self.old }
        requires below { start < target.now.pointer }
        ensures scans { IfOk result (λ _. Scans (D.image disk.now) target.now self.new) }
        ensures found { (messages : List (List ℕ)) → Gathers batch.old messages [] → IfOk result (λ found.
            MatchOption found
            (NoFrameAt (target_of (D.image disk.now) target.now) start × Gathers batch.new messages [])
            (λ m. IsScannedFrame (target_of (D.image disk.now) target.now) start trusts m messages
            batch.new)) }
        ensures fits { IfOk result (λ found. IfSome found (λ m.
            start + m.found.length + frame_overhead m.found.form ≤ target.now.pointer)) }
        ensures reads { IfOk result (λ found. ReadsFrameAt (D.image disk.now) target.now start
            (option_map (λ m. m.found) found) self.old.pages self.new.pages) }
    {
        self.pages
            .load_near(disk, target.extent, (start / target.page) as u32);
        let Some(head) = self.claimed_head(disk, target, start) else {
            return Ok(None);
        };
        if !gathers(&head, trusts) {
            return match self.match_frame(disk, target, start) {
                Some(found) => {
                    Ok(Some(ScannedFrame {
                        found,
                        is_gathered: false,
                    }))
                }
                None => Ok(None),
            };
        }
        let Some(digest) = self.gather_frame(disk, target, start, &head, batch)? else {
            return Ok(None);
        };
        Ok(Some(ScannedFrame {
            found: FoundFrame {
                form: head.form,
                uuid: head.uuid,
                length: head.length,
                digest,
            },
            is_gathered: true,
        }))
    }

    /// The frame at a place below the pointer, if there is one. The page of the place becomes the near one.
    pub fn frame_at<D: PageSource>(
        &mut self,
        disk: &CountedSource<'_, D>,
        target: &Target,
        start: usize,
    ) -> Option<FoundFrame>
        requires target { IsTarget (D.image disk.now) target.now }
        requires scans { Scans (D.image disk.now) target.now self.old }
        requires below { start < target.now.pointer }
        ensures scans { Scans (D.image disk.now) target.now self.new }
        ensures found { MatchOption result (NoFrameAt (target_of (D.image disk.now) target.now) start)
            (IsFound (target_of (D.image disk.now) target.now) start) }
        ensures reads { ReadsFrameAt (D.image disk.now) target.now start result
            self.old.pages self.new.pages }
    {
        self.pages
            .load_near(disk, target.extent, (start / target.page) as u32);
        match self.claimed_head(disk, target, start) {
            Some(_) => self.match_frame(disk, target, start),
            None => None,
        }
    }

    /// The chunk of a frame that was found at a place. If the next item begins on the far page, that becomes
    /// the near one.
    fn chunk_of(&mut self, target: &Target, start: usize, found: FoundFrame) -> Item
        requires below { start < target.now.pointer }
        requires fits { start + found.length + frame_overhead found.form ≤ target.now.pointer }
        ensures scans { (image : Image) → Scans image target.now self.old → Scans image target.now self.new }
        ensures chunk { result ≡ Item.Chunk found.form start
            (start + found.length + frame_overhead found.form) found.uuid found.length found.digest }
        ensures kept { KeepsReads ((start + found.length + frame_overhead found.form) / target.now.page)
            self.old.pages self.new.pages }
    {
        let stop = start + found.length as usize + found.form.overhead();
        self.pages.swap_if_far_is((stop / target.page) as u32);
        found.into_chunk(start as u32, stop as u32)
    }

    /// The item at a place on the near page with no frame: it goes up to the next bound.
    fn unframed_at(&self, target: &Target, start: usize) -> Item
        requires below { start < target.now.pointer }
        requires page { self.now.pages.page ≡ target.now.page }
        requires near { self.now.pages.near.number ≡ Some (start / target.now.page) }
        ensures start { start_of result ≡ start }
        ensures stop { (image : Image) → IsTarget image target.now →
            stop_of result ≡ bound_above (target_of image target.now) start }
        ensures item { (image : Image) → IsTarget image target.now →
            HoldBoth image target.now.extent self.now.pages →
            NoFrameAt (target_of image target.now) start → IsItem (target_of image target.now) result }
    {
        let stop = target.bound(start);
        match self.pages.part(start, stop) {
            Some(part) => readable_item(part, start as u32, stop as u32),
            None => Item::Lost {
                start: start as u32,
                stop: stop as u32,
            },
        }
    }

    /// The head of the frame that is claimed at a place: it is there, the frame doesn't contain the page
    /// known to be unreadable, and what closes it is there. This is checked before anything is hashed, so a
    /// head without its far end costs at most three page reads.
    pub fn claimed_head<D: PageSource>(
        &mut self,
        disk: &CountedSource<'_, D>,
        target: &Target,
        start: usize,
    ) -> Option<Head>
        requires target { IsTarget (D.image disk.now) target.now }
        requires scans { Scans (D.image disk.now) target.now self.old }
        requires below { start < target.now.pointer }
        ensures scans { Scans (D.image disk.now) target.now self.new }
        ensures claimed { MatchOption result (NoFrameAt (target_of (D.image disk.now) target.now) start)
            (IsClaimedAt (target_of (D.image disk.now) target.now) start) }
        ensures reads { ReadsFar 4 (IsSomeAnd result (λ h.
            (last_page target.now start h.form h.length ≤ start / target.now.page) ×
            (self.old.pages.near.number ≡ Some (start / target.now.page)))) self.old.pages self.new.pages }
    {
        let room = target.pointer - start;
        if room < LEAST_OVERHEAD {
            return None;
        }
        let mut bytes = [0; HEAD_BYTES];
        if !self.fill(disk, target, start, &mut bytes) {
            return None;
        }
        let Some(head) = read_head(&bytes) else {
            return None;
        };
        let size = head.frame_bytes() as usize;
        if room < size || self.has_gap(start / target.page, (start + size - 1) / target.page) {
            return None;
        }
        let close = head.form.close_bytes();
        if !self.has_bytes(
            disk,
            target,
            start + size - close,
            &head.form.close(&head.uuid)[..close],
        ) {
            return None;
        }
        Some(head)
    }

    /// Whether the known unreadable page is one of these.
    fn has_gap(&self, first: usize, last: usize) -> bool
        ensures found { IsTrue result → (q : ℕ) × (self.now.gap ≡ Some q) × (first ≤ q) × (q ≤ last) }
        ensures none { result ≡ false → (q : ℕ) → self.now.gap ≡ Some q → first ≤ q → last < q }
    {
        match self.gap {
            Some(gap) => first <= gap as usize && gap as usize <= last,
            None => false,
        }
    }

    /// Whether these bytes, at most as many as close a frame, are at a place.
    fn has_bytes<D: PageSource>(
        &mut self,
        disk: &CountedSource<'_, D>,
        target: &Target,
        place: usize,
        wanted: &[u8],
    ) -> bool
        requires target { IsTarget (D.image disk.now) target.now }
        requires scans { Scans (D.image disk.now) target.now self.old }
        requires within { place + length wanted.now ≤ target.now.pointer }
        requires short { length wanted.now ≤ 18 }
        ensures scans { Scans (D.image disk.now) target.now self.new }
        ensures found { IsTrue result ↔
            AreBytesAt (target_of (D.image disk.now) target.now).byte place wanted.now }
        ensures reads { ReadsFar 2 (IsNear target.now self.old.pages place (length wanted.now))
            self.old.pages self.new.pages }
    {
        let mut bytes = [0; CLOSE_BYTES];
        let found = &mut bytes[..wanted.len()];
        if !self.fill(disk, target, place, found) {
            return false;
        }
        *found == *wanted
    }

    /// Fills `out` with the bytes from a place on. False if one of them is unreadable.
    fn fill<D: PageSource>(
        &mut self,
        disk: &CountedSource<'_, D>,
        target: &Target,
        place: usize,
        out: &mut [u8],
    ) -> bool
        requires target { IsTarget (D.image disk.now) target.now }
        requires scans { Scans (D.image disk.now) target.now self.old }
        requires within { place + length out.old ≤ target.now.pointer }
        requires short { length out.old ≤ 64 }
        ensures scans { Scans (D.image disk.now) target.now self.new }
        ensures filled { MatchBool result
            (AreBytesAt (target_of (D.image disk.now) target.now).byte place out.new)
            (HasGap (target_of (D.image disk.now) target.now).byte place (length out.old)) }
        ensures reads { ReadsFar 2 (IsNear target.now self.old.pages place (length out.old))
            self.old.pages self.new.pages }
    {
        let mut done = 0;
        while done < out.len() {
            let from = place + done;
            let stop = target.bound(from).min(place + out.len());
            self.pages
                .load_far(disk, target.extent, (from / target.page) as u32);
            let Some(part) = self.pages.part(from, stop) else {
                return false;
            };
            put_part(out, done, part);
            done = stop - place;
        }
        true
    }

    /// The frame at a place, if there is one. Its payload is hashed page by page.
    fn match_frame<D: PageSource>(
        &mut self,
        disk: &CountedSource<'_, D>,
        target: &Target,
        start: usize,
    ) -> Option<FoundFrame>
        requires target { IsTarget (D.image disk.now) target.now }
        requires scans { Scans (D.image disk.now) target.now self.old }
        requires below { start < target.now.pointer }
        ensures scans { Scans (D.image disk.now) target.now self.new }
        ensures found { MatchOption result (NoFrameAt (target_of (D.image disk.now) target.now) start)
            (IsFound (target_of (D.image disk.now) target.now) start) }
        ensures reads { ReadsFrame (D.image disk.now) target.now start result self.old.pages self.new.pages }
    {
        self.matcher = Matcher::new((target.pointer - start) as u64);
        let mut place = start;
        while place < target.pointer {
            match self.feed_page(disk, target, place) {
                Fed::More => place = target.bound(place),
                Fed::Whole {
                    form,
                    uuid,
                    length,
                    digest,
                    ..
                } => {
                    return Some(FoundFrame {
                        form,
                        uuid,
                        length,
                        digest,
                    });
                }
                Fed::No => return None,
            }
        }
        None
    }

    /// Feeds the matcher the bytes from a place up to the next bound. `No` if they are unreadable.
    fn feed_page<D: PageSource>(
        &mut self,
        disk: &CountedSource<'_, D>,
        target: &Target,
        place: usize,
    ) -> Fed
        requires target { IsTarget (D.image disk.now) target.now }
        requires scans { Scans (D.image disk.now) target.now self.old }
        requires below { place < target.now.pointer }
        requires left { left self.old.matcher ≡ target.now.pointer - place }
        ensures scans { Scans (D.image disk.now) target.now self.new }
        ensures answer { (start : ℕ) →
            Passes (target_of (D.image disk.now) target.now) start place self.old.matcher →
            IsPassed (target_of (D.image disk.now) target.now) start
            (bound_above (target_of (D.image disk.now) target.now) place) self.new.matcher result }
        ensures reads { ReadsFar 1 (self.old.pages.near.number ≡ Some (place / target.now.page))
            self.old.pages self.new.pages }
        ensures loaded { HasLoaded self.new.pages (place / target.now.page) }
    {
        let stop = target.bound(place);
        let page = (place / target.page) as u32;
        self.pages.load_far(disk, target.extent, page);
        let Some(part) = self.pages.part(place, stop) else {
            self.gap = Some(page);
            return Fed::No;
        };
        self.matcher.feed(part)
    }

    /// Passes a frame that its head claims, if all its bytes can be read, and adds its payload to the batch.
    /// Returns the seal of a sealed frame, which stands if that is the payload's digest; for a plain one,
    /// which stands, zeros. `None` if a byte can't be read.
    fn gather_frame<D: PageSource>(
        &mut self,
        disk: &CountedSource<'_, D>,
        target: &Target,
        start: usize,
        head: &Head,
        batch: &mut Batch,
    ) -> Result<Option<[u8; DIGEST_BYTES]>, OutOfMemory>
        requires target { IsTarget (D.image disk.now) target.now }
        requires scans { Scans (D.image disk.now) target.now self.old }
        requires claimed { IsClaimedAt (target_of (D.image disk.now) target.now) start head.now }
        ensures scans { IfOk result (λ _. Scans (D.image disk.now) target.now self.new) }
        ensures found { (messages : List (List ℕ)) → Gathers batch.old messages [] → IfOk result (λ found.
            MatchOption found
            (NoFrameAt (target_of (D.image disk.now) target.now) start × Gathers batch.new messages [])
            (λ seal.
            IsGathered (target_of (D.image disk.now) target.now) start head.now seal messages batch.new)) }
        ensures reads { IfOk result (λ found. ReadsFrame (D.image disk.now) target.now start
            (option_map (found_by head.now) found) self.old.pages self.new.pages) }
    {
        let sealed = start + HEAD_BYTES;
        let first = start + head.form.payload_start();
        let last = first + head.length as usize;
        let end = start + head.frame_bytes() as usize;
        let mut seal = [0; DIGEST_BYTES];
        let mut place = start;
        while place < end {
            let stop = target.bound(place);
            let page = (place / target.page) as u32;
            self.pages.load_far(disk, target.extent, page);
            let Some(part) = self.pages.part(place, stop) else {
                self.gap = Some(page);
                batch.cancel();
                return Ok(None);
            };
            put_between(&mut seal, part, place, sealed, first);
            batch.append(bytes_between(part, place, first, last))?;
            if end <= stop {
                batch.end()?;
                return Ok(Some(seal));
            }
            place = stop;
        }
        Ok(None)
    }
}
