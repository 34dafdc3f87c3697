//! Loads a raw image into memory by several readers of it, each on a thread of its own. For one reader see
//! `loading`.

ghost use Rattle.std.specs.Thread.{IsSync};
ghost use Rattle.std.specs.Prelude.{◌≡◌, ◌≤◌, ◌+◌, ◌-◌, ◌*◌, ◌<◌, ◌^◌, ◌++◌, [], ℕ, Bool, List, Option, All};
ghost use Rattle.std.specs.Prelude.{IfOk, IfSome, OnOk, Err, length, sum_by, vec_len};
ghost use Rattle.scrub_disk.specs.steps.Ahead.{IsReadFrom};
ghost use Rattle.scrub_disk.specs.Image.{disk_bytes};
ghost use Rattle.scrub_disk.specs.Joined.{AreBlocks, first_page, joined};
ghost use Rattle.scrub_disk.specs.Parted.{image_of};
ghost use Rattle.scrub_disk.specs.Raw.{IsLoadedWith, IsReadOn};
ghost use Rattle.scrub_disk.specs.Stored.{HasPages, block_text};

use crate::OutOfMemory;
use crate::blocks::Block;
use crate::geometry::Geometry;
use crate::loading::{LoadFault, has_byte_at};
use crate::marking::mark_named;
use crate::parts::PartedDisk;
use crate::raw::RawImage;
use crate::reading::read_pages;
use std::alloc::Global;
use std::thread::{Threads, join};

/// The most bytes that one read asks for.
const MOST_AT_ONCE: usize = 1 << 18;

/// One read asks for at most a disk's pages divided by this.
const PART_AT_ONCE: usize = 64;

/// The most bytes that the pages of a block have: so many that its room is mapped by itself, and can get huge
/// pages.
const MOST_BLOCK_BYTES: usize = 1 << 26;

/// The most pages that a block has: as many as there are numbers of stored pages.
const MOST_BLOCK_PAGES: usize = 1 << 16;

/// How many pages one read asks for: a small part of the disk.
fn at_once(geometry: Geometry) -> usize
    ensures some { 1 ≤ result }
    ensures few { result ≤ 4096 }
{
    let pages = geometry.pages() as usize * geometry.extents() as usize;
    (pages / PART_AT_ONCE)
        .min(MOST_AT_ONCE / geometry.page() as usize)
        .max(1)
}

/// How many pages a block has at most.
fn most_pages(geometry: Geometry) -> usize
    ensures some { 1 ≤ result }
    ensures few { result ≤ 2 ^ 16 }
{
    MOST_BLOCK_PAGES.min(MOST_BLOCK_BYTES / geometry.page() as usize)
}

/// How the pages of a disk are divided into blocks, and these among readers.
#[derive(Clone, Copy)]
struct Division {
    geometry: Geometry,
    /// How many pages one read asks for.
    at_once: usize,
    /// How many pages a block has; the last one may have fewer.
    stride: usize,
    /// How many blocks a reader reads. Those after the last page have none.
    share: usize,
    ghost reads_some: { 1 ≤ at_once },
    ghost reads_few: { at_once ≤ 4096 },
    ghost some: { 1 ≤ stride },
    ghost few: { stride ≤ 2 ^ 16 },
}

/// As many blocks for each reader as it takes to read all pages.
fn divide(geometry: Geometry, readers: usize) -> Division
    requires some { 0 < readers }
    requires few { readers < 2 ^ 32 }
    ensures geometry { result.geometry ≡ geometry }
    ensures enough { geometry.pages * geometry.extents ≤ readers * result.share * result.stride }
    ensures in_range { readers * result.share * result.stride < 2 ^ 62 }
{
    let pages = geometry.pages() as usize * geometry.extents() as usize;
    let each = pages.div_ceil(readers);
    let share = each.div_ceil(most_pages(geometry));
    Division {
        geometry,
        at_once: at_once(geometry),
        stride: each.div_ceil(share),
        share,
    }
}

/// Blocks that follow one another, filled by reads, and a mark for each of their pages.
#[derive(Drop)]
struct Part {
    filled: Vec<Block>,
    marks: Vec<bool>,
}

impl Part {
    /// No block yet.
    fn new(alloc: Global) -> Part
        ensures blocks { result.filled.items ≡ [] }
        ensures marks { result.marks.items ≡ [] }
    {
        Part {
            filled: Vec::new(alloc),
            marks: Vec::new(alloc),
        }
    }

    /// More blocks, which follow these.
    fn add(&mut self, mut next: Part) -> Result<(), OutOfMemory>
        ensures blocks { OnOk result (self.new.filled.items ≡ self.old.filled.items ++ next.filled.items) }
        ensures marks { OnOk result (self.new.marks.items ≡ self.old.marks.items ++ next.marks.items) }
    {
        self.marks.extend_from_slice(&next.marks)?;
        self.filled.append(&mut next.filled)?;
        Ok(())
    }
}

/// Reads `count` pages into a block, from page `first` of the disk on, by reads of as many pages as `buffer`
/// has room for. Returns a mark for each page, too.
fn read_into_block<R: RawImage>(
    alloc: Global,
    raw: &mut R,
    division: Division,
    first: usize,
    count: usize,
    buffer: &mut [u8],
) -> Result<(Block, Vec<bool>), OutOfMemory>
    requires few_reads { R.reads raw.old < 2 ^ 62 + 2 ^ 33 }
    requires few { count ≤ 2 ^ 16 }
    requires in_disk { first + count ≤ division.geometry.pages * division.geometry.extents }
    requires room { length buffer.old ≡ division.geometry.page * division.at_once }
    ensures pages { IfOk result (λ r. HasPages division.geometry.page r.0) }
    ensures size { IfOk result
        (λ r. length (block_text division.geometry.page r.0) ≡ count * division.geometry.page) }
    ensures each_page { IfOk result (λ r. length r.1.items ≡ count) }
    ensures read { IfOk result (λ r. IsReadFrom (R.bytes raw.old) (R.fails raw.old) first
        division.geometry.page (R.failures raw.new - R.failures raw.old)
        (block_text division.geometry.page r.0) r.1.items) }
    ensures image { IsReadOn R.bytes R.fails R.most_failures R.failures raw.old raw.new }
    ensures reads { R.reads raw.new ≤ R.reads raw.old + (division.geometry.page + 1) * count }
{
    let page = division.geometry.page() as usize;
    let mut block = Block::with_room(alloc, page, count)?;
    let mut marks = Vec::with_capacity(alloc, count)?;
    let mut stored = 0;
    while marks.len() < count {
        let pages = division.at_once.min(count - marks.len());
        let bytes = &mut buffer[..pages * page];
        let mut unreadable = vec![in alloc; false; pages]?;
        read_pages(raw, first + marks.len(), page, bytes, &mut unreadable);
        stored = block.add_pages(stored, page, bytes, &unreadable)?;
        marks.extend_from_slice(&unreadable)?;
    }
    block.give_back();
    Ok((block, marks))
}

/// Reads block `number` of the disk, as a raw image has it. `buffer` has room for the bytes of one read.
fn read_block<R: RawImage>(
    alloc: Global,
    raw: &mut R,
    division: Division,
    number: usize,
    buffer: &mut [u8],
) -> Result<Part, OutOfMemory>
    requires few_reads { R.reads raw.old < 2 ^ 62 + 2 ^ 33 }
    requires in_range { number * division.stride + division.stride < 2 ^ 63 }
    requires room { length buffer.old ≡ division.geometry.page * division.at_once }
    ensures shape { IfOk result
        (λ p. AreBlocks division.geometry division.stride number 1 p.filled.items p.marks.items) }
    ensures read { IfOk result (λ p. IsReadFrom (R.bytes raw.old) (R.fails raw.old)
        (first_page division.geometry division.stride number) division.geometry.page
        (R.failures raw.new - R.failures raw.old) (joined division.geometry.page p.filled.items)
        p.marks.items) }
    ensures image { IsReadOn R.bytes R.fails R.most_failures R.failures raw.old raw.new }
    ensures reads { R.reads raw.new ≤ R.reads raw.old + (division.geometry.page + 1)
        * (first_page division.geometry division.stride (number + 1) -
        first_page division.geometry division.stride number) }
{
    let geometry = division.geometry;
    let pages = geometry.pages() as usize * geometry.extents() as usize;
    let first = pages.min(number * division.stride);
    let count = division.stride.min(pages - first);
    let (block, marks) = read_into_block(alloc, raw, division, first, count, buffer)?;
    Ok(Part {
        filled: Vec::from_array(alloc, [block])?,
        marks,
    })
}

/// Reads a reader's share of blocks, from block `first` of the disk on, one after another by the same buffer.
fn read_share<R: RawImage>(
    alloc: Global,
    raw: &mut R,
    division: Division,
    first: usize,
) -> Result<Part, OutOfMemory>
    requires few_reads { R.reads raw.old < 2 ^ 62 }
    requires in_range { (first + division.share) * division.stride < 2 ^ 62 }
    ensures shape { IfOk result
        (λ p. AreBlocks division.geometry division.stride first division.share p.filled.items p.marks.items) }
    ensures read { IfOk result (λ p. IsReadFrom (R.bytes raw.old) (R.fails raw.old)
        (first_page division.geometry division.stride first) division.geometry.page
        (R.failures raw.new - R.failures raw.old) (joined division.geometry.page p.filled.items)
        p.marks.items) }
    ensures image { IsReadOn R.bytes R.fails R.most_failures R.failures raw.old raw.new }
    ensures reads { R.reads raw.new ≤ R.reads raw.old + 2 ^ 33 }
{
    let mut buffer = vec![in alloc; 0u8; division.geometry.page() as usize * division.at_once]?;
    let mut part = Part::new(alloc);
    for number in first..first + division.share {
        part.add(read_block(alloc, raw, division, number, &mut buffer)?)?;
    }
    Ok(part)
}

/// Reads share `number` of the blocks, and gives the reader back.
fn read_number<R: RawImage>(
    alloc: Global,
    mut raw: R,
    division: Division,
    number: usize,
) -> (Result<Part, OutOfMemory>, R)
    requires few_reads { R.reads raw < 2 ^ 62 }
    requires in_range { (number + 1) * division.share * division.stride < 2 ^ 62 }
    ensures shape { IfOk result.0 (λ p.
        AreBlocks division.geometry division.stride (number * division.share) division.share p.filled.items
        p.marks.items) }
    ensures read { IfOk result.0
        (λ p. IsReadFrom (R.bytes raw) (R.fails raw)
        (first_page division.geometry division.stride (number * division.share)) division.geometry.page
        (R.most_failures raw) (joined division.geometry.page p.filled.items) p.marks.items) }
    ensures same_bytes { R.bytes result.1 ≡ R.bytes raw }
    ensures same_fails { R.fails result.1 ≡ R.fails raw }
    ensures same_bound { R.most_failures result.1 ≡ R.most_failures raw }
    ensures few_reads { R.reads result.1 < 2 ^ 63 }
{
    let part = read_share(alloc, &mut raw, division, number * division.share);
    (part, raw)
}

/// Reads the first shares by as many readers, which begin on a new thread, and the share after them by one
/// more reader, at the same time.
#[cycle(parts)]
fn read_beside<T: Threads + Sync, R: RawImage + Send + Drop>(
    rt: &T,
    alloc: Global,
    readers: Vec<R>,
    last: R,
    division: Division,
) -> (Result<Part, OutOfMemory>, (Result<Part, OutOfMemory>, R))
    requires few_reads { All (λ r. R.reads r < 2 ^ 62) readers.items }
    requires few_reads_of_last { R.reads last < 2 ^ 62 }
    requires in_range { (vec_len readers + 1) * division.share * division.stride < 2 ^ 62 }
    ensures shape { IfOk result.0 (λ p.
        AreBlocks division.geometry division.stride 0 (vec_len readers * division.share) p.filled.items
        p.marks.items) }
    ensures read { IfOk result.0
        (λ p. (known : Option (List ℕ)) → All (λ r. R.bytes r ≡ known) readers.items →
        (fails : ℕ → ℕ → Bool) → All (λ r. R.fails r ≡ fails) readers.items →
        IsReadFrom known fails 0 division.geometry.page (sum_by (λ r. R.most_failures r) readers.items)
        (joined division.geometry.page p.filled.items) p.marks.items) }
    ensures part_shape { IfOk result.1.0 (λ p.
        AreBlocks division.geometry division.stride (vec_len readers * division.share) division.share
        p.filled.items p.marks.items) }
    ensures part_read { IfOk result.1.0
        (λ p. IsReadFrom (R.bytes last) (R.fails last)
        (first_page division.geometry division.stride (vec_len readers * division.share))
        division.geometry.page (R.most_failures last) (joined division.geometry.page p.filled.items)
        p.marks.items) }
    ensures same_bytes { R.bytes result.1.1 ≡ R.bytes last }
    ensures same_fails { R.fails result.1.1 ≡ R.fails last }
    ensures same_bound { R.most_failures result.1.1 ≡ R.most_failures last }
    ensures few_reads { R.reads result.1.1 < 2 ^ 63 }
{
    let number = readers.len();
    if readers.is_empty() {
        let none = read_parts(rt, alloc, readers, division);
        return (none, read_number(alloc, last, division, number));
    }
    join(
        rt,
        move || -> Result<Part, OutOfMemory>
            requires sync { IsSync T.row }
            requires few_reads { All (λ r. R.reads r < 2 ^ 62) readers.items }
            requires in_range { vec_len readers * division.share * division.stride < 2 ^ 62 }
            ensures shape { IfOk result (λ p.
                AreBlocks division.geometry division.stride 0 (vec_len readers * division.share)
                p.filled.items p.marks.items) }
            ensures read { IfOk result
                (λ p. (known : Option (List ℕ)) → All (λ r. R.bytes r ≡ known) readers.items →
                (fails : ℕ → ℕ → Bool) → All (λ r. R.fails r ≡ fails) readers.items →
                IsReadFrom known fails 0 division.geometry.page
                (sum_by (λ r. R.most_failures r) readers.items) (joined division.geometry.page p.filled.items)
                p.marks.items) }
        { read_parts(rt, alloc, readers, division) },
        move || -> (Result<Part, OutOfMemory>, R)
            requires few_reads { R.reads last < 2 ^ 62 }
            requires in_range { (number + 1) * division.share * division.stride < 2 ^ 62 }
            ensures shape { IfOk result.0 (λ p.
                AreBlocks division.geometry division.stride (number * division.share) division.share
                p.filled.items p.marks.items) }
            ensures read { IfOk result.0
                (λ p. IsReadFrom (R.bytes last) (R.fails last)
                (first_page division.geometry division.stride (number * division.share))
                division.geometry.page (R.most_failures last) (joined division.geometry.page p.filled.items)
                p.marks.items) }
            ensures same_bytes { R.bytes result.1 ≡ R.bytes last }
            ensures same_fails { R.fails result.1 ≡ R.fails last }
            ensures same_bound { R.most_failures result.1 ≡ R.most_failures last }
            ensures few_reads { R.reads result.1 < 2 ^ 63 }
        { read_number(alloc, last, division, number) },
    )
}

/// Reads all these shares, each by its reader, on a thread of its own, and gives the last reader back.
#[cycle(parts)]
fn read_all<T: Threads + Sync, R: RawImage + Send + Drop>(
    rt: &T,
    alloc: Global,
    mut readers: Vec<R>,
    division: Division,
) -> Result<(Part, R), OutOfMemory>
    requires some { 0 < vec_len readers }
    requires few_reads { All (λ r. R.reads r < 2 ^ 62) readers.items }
    requires in_range { vec_len readers * division.share * division.stride < 2 ^ 62 }
    ensures shape { IfOk result (λ p.
        AreBlocks division.geometry division.stride 0 (vec_len readers * division.share) p.0.filled.items
        p.0.marks.items) }
    ensures read { IfOk result (λ p. (known : Option (List ℕ)) → All (λ r. R.bytes r ≡ known) readers.items →
        (fails : ℕ → ℕ → Bool) → All (λ r. R.fails r ≡ fails) readers.items →
        IsReadFrom known fails 0 division.geometry.page (sum_by (λ r. R.most_failures r) readers.items)
        (joined division.geometry.page p.0.filled.items) p.0.marks.items) }
    ensures same_bytes { IfOk result
        (λ p. (known : Option (List ℕ)) → All (λ r. R.bytes r ≡ known) readers.items →
        R.bytes p.1 ≡ known) }
    ensures same_fails { IfOk result
        (λ p. (fails : ℕ → ℕ → Bool) → All (λ r. R.fails r ≡ fails) readers.items →
        R.fails p.1 ≡ fails) }
    ensures within { IfOk result (λ p. R.most_failures p.1 ≤ sum_by (λ r. R.most_failures r) readers.items) }
    ensures few_reads { IfOk result (λ p. R.reads p.1 < 2 ^ 63) }
{
    let Some(last) = readers.pop() else {
        unreachable!()
    };
    let (parts, (part, last)) = read_beside(rt, alloc, readers, last, division);
    let mut parts = parts?;
    parts.add(part?)?;
    Ok((parts, last))
}

/// Reads the first shares by as many readers, each on a thread of its own.
#[cycle(parts)]
fn read_parts<T: Threads + Sync, R: RawImage + Send + Drop>(
    rt: &T,
    alloc: Global,
    readers: Vec<R>,
    division: Division,
) -> Result<Part, OutOfMemory>
    requires few_reads { All (λ r. R.reads r < 2 ^ 62) readers.items }
    requires in_range { vec_len readers * division.share * division.stride < 2 ^ 62 }
    ensures shape { IfOk result (λ p.
        AreBlocks division.geometry division.stride 0 (vec_len readers * division.share) p.filled.items
        p.marks.items) }
    ensures read { IfOk result (λ p. (known : Option (List ℕ)) → All (λ r. R.bytes r ≡ known) readers.items →
        (fails : ℕ → ℕ → Bool) → All (λ r. R.fails r ≡ fails) readers.items →
        IsReadFrom known fails 0 division.geometry.page (sum_by (λ r. R.most_failures r) readers.items)
        (joined division.geometry.page p.filled.items) p.marks.items) }
{
    if readers.is_empty() {
        return Ok(Part::new(alloc));
    }
    let (parts, _last) = read_all(rt, alloc, readers, division)?;
    Ok(parts)
}

/// Loads an image of this geometry from raw bytes by readers of them, each on a thread of its own. With N
/// pages an extent and P bytes a page, page q of extent e begins at byte (e × N + q) × P. A page is
/// unreadable if a read of it alone failed, if the bytes end before it does, or if `bad` names it, by its
/// extent and its number there.
///
/// Faults, in this order: `OutOfMemory`; `TooLong` if a byte follows the last page (if the read for it fails,
/// that isn't a fault). Either may come after the raw image was read.
pub fn load_in_parts<T: Threads + Sync, R: RawImage + Send + Drop>(
    rt: &T,
    alloc: Global,
    readers: Vec<R>,
    geometry: Geometry,
    bad: &[(u32, u32)],
) -> Result<PartedDisk, LoadFault>
    requires some { 0 < vec_len readers }
    requires few { vec_len readers < 2 ^ 32 }
    requires few_reads { All (λ r. R.reads r < 2 ^ 62) readers.items }
    requires in_range { All (λ at. (at.0 < geometry.extents) × (at.1 < geometry.pages)) bad.now }
    ensures loaded { IfOk result
        (λ disk. (known : Option (List ℕ)) → All (λ r. R.bytes r ≡ known) readers.items →
        (fails : ℕ → ℕ → Bool) → All (λ r. R.fails r ≡ fails) readers.items →
        IsLoadedWith known fails (sum_by (λ r. R.most_failures r) readers.items) geometry bad.now
        (image_of disk)) }
    ensures too_long { result ≡ Err LoadFault.TooLong → (known : Option (List ℕ)) →
        All (λ r. R.bytes r ≡ known) readers.items →
        IfSome known (λ text. disk_bytes geometry < length text) }
{
    let division = divide(geometry, readers.len());
    let (parts, mut last) = match read_all(rt, alloc, readers, division) {
        Ok(read) => read,
        Err(OutOfMemory) => return Err(LoadFault::OutOfMemory),
    };
    let end = geometry.extent_bytes() as u64 * geometry.extents() as u64;
    if has_byte_at(&mut last, end) {
        return Err(LoadFault::TooLong);
    }
    let mut disk = PartedDisk::from_blocks(geometry, division.stride, parts.filled, parts.marks);
    mark_named(&mut disk, bad);
    Ok(disk)
}
