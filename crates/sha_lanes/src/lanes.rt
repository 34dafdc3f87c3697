//! Hashes the blocks of several messages side by side. A lane that has ended takes the next message.

ghost use Rattle.std.specs.Prelude.{◌≡◌, ◌≢◌, ◌+◌, ◌-◌, ◌*◌, ◌<◌, ◌≤◌, ℕ, List, All, Contains, IfOk, length};
ghost use Rattle.std.specs.Prelude.{map, slice_index, slice_index_or, []};
ghost use Rattle.sha2.specs.Sha256.{digest_bytes, hash_after, initial_hash_256};
ghost use Rattle.sha_lanes.specs.Lanes.{AreLanes, Carries, IsWithin, digest_of, lane};
ghost use Rattle.sha_lanes.specs.declared.lanes.Span.{Span};

use crate::block::{LANES, compress};
use crate::consts::H256;
use std::alloc::{AllocError, Global};

/// The most spans that are put in order by their lengths.
const MOST_SORTED: usize = 64;

/// Some blocks of 64 bytes, one after another: a message with its padding.
#[derive(Clone, Copy)]
pub(crate) struct Span {
    /// The byte at which the first begins.
    pub start: usize,
    /// How many there are.
    pub blocks: usize,
    /// The bytes of the message, without its padding.
    pub length: usize,
}

/// What the lanes do.
#[derive(Drop)]
struct Lanes {
    /// The hash values: row i has word i of each lane.
    state: [[u32; LANES]; 8],
    /// Where the next block of each lane begins.
    place: [usize; LANES],
    /// How many blocks each lane has left.
    left: [usize; LANES],
    /// The number of the span that each lane hashes.
    index: [usize; LANES],
}

/// The hash value of a lane.
fn lane_of(state: &[[u32; LANES]; 8], l: usize) -> [u32; 8]
    requires { l < LANES }
    ensures { result ≡ lane l state.now }
{
    [
        state[0][l],
        state[1][l],
        state[2][l],
        state[3][l],
        state[4][l],
        state[5][l],
        state[6][l],
        state[7][l],
    ]
}

/// A row of words with another word in one lane.
fn with_word(row: [u32; LANES], l: usize, word: u32) -> [u32; LANES]
    requires { l < LANES }
    ensures put { slice_index result l ≡ word }
    ensures others { (j : ℕ) → j ≢ l → slice_index result j ≡ slice_index row j }
{
    let mut row = row;
    row[l] = word;
    row
}

/// Replaces the hash value of a lane.
fn put_lane(state: &mut [[u32; LANES]; 8], l: usize, value: &[u32; 8])
    requires { l < LANES }
    ensures put { lane l state.new ≡ value.now }
    ensures others { (j : ℕ) → j ≢ l → lane j state.new ≡ lane j state.old }
{
    *state = [
        with_word(state[0], l, value[0]),
        with_word(state[1], l, value[1]),
        with_word(state[2], l, value[2]),
        with_word(state[3], l, value[3]),
        with_word(state[4], l, value[4]),
        with_word(state[5], l, value[5]),
        with_word(state[6], l, value[6]),
        with_word(state[7], l, value[7]),
    ];
}

/// A hash value as bytes.
fn digest_of(value: &[u32; 8]) -> [u8; 32]
    ensures { result ≡ digest_bytes value.now 8 }
{
    let mut digest = [0u8; 32];
    'words: for i in 0..8 {
        digest[4 * i..4 * i + 4].copy_from_slice(&value[i].to_be_bytes());
    }
    digest
}

/// A lane with the fewest blocks left.
fn shortest(left: &[usize; LANES]) -> usize
    ensures { result < LANES }
{
    let mut lane = 0;
    'lanes: for l in 0..LANES {
        if left[l] < left[lane] {
            lane = l;
        }
    }
    lane
}

impl Lanes {
    /// Lanes without work. `count` is the number of spans, so that it is the number of none of them.
    fn new(count: usize) -> Lanes
        ensures { (bytes : List ℕ) (spans : List Span) → count ≡ length spans → AreLanes bytes spans result }
    {
        Lanes {
            state: [[0; LANES]; 8],
            place: [0; LANES],
            left: [0; LANES],
            index: [count; LANES],
        }
    }

    /// Hashes the next block of each lane that has one left.
    fn step(&mut self, bytes: &[u8])
        requires some { 64 ≤ length bytes.now }
        requires blocks { (l : ℕ) → l < LANES → 0 < slice_index self.old.left l →
            slice_index self.old.place l + 64 ≤ length bytes.now }
        ensures index { self.new.index ≡ self.old.index }
        ensures left { (l : ℕ) → l < LANES → slice_index self.new.left l ≡ slice_index self.old.left l - 1 }
        ensures carries { (l : ℕ) (span : Span) → l < LANES → Carries bytes.now self.old l span →
            Carries bytes.now self.new l span }
    {
        let mut places = [0; LANES];
        'places: for l in 0..LANES {
            if self.left[l] > 0 {
                places[l] = self.place[l];
            }
        }
        let before = self.state;
        compress(&mut self.state, bytes, &places);
        'lanes: for l in 0..LANES {
            if self.left[l] > 0 {
                self.left[l] -= 1;
                self.place[l] += 64;
            } else {
                put_lane(&mut self.state, l, &lane_of(&before, l));
            }
        }
    }

    /// Hashes all blocks that a lane has left, and as many of the others, and writes its digest.
    fn end(&mut self, bytes: &[u8], spans: &[Span], l: usize, digests: &mut [[u8; 32]])
        requires lane { l < LANES }
        requires size { length digests.old ≡ length spans.now }
        requires within { All (IsWithin bytes.now) spans.now }
        requires lanes { AreLanes bytes.now spans.now self.old }
        ensures lanes { AreLanes bytes.now spans.now self.new }
        ensures index { self.new.index ≡ self.old.index }
        ensures size { length digests.new ≡ length digests.old }
        ensures written { (span : Span) → slice_index self.old.index l < length spans.now →
            slice_index_or spans.now (slice_index self.old.index l) span ≡ span →
            slice_index_or digests.new (slice_index self.old.index l) [] ≡ digest_of bytes.now span }
        ensures others { (i : ℕ) → i ≢ slice_index self.old.index l →
            slice_index_or digests.new i [] ≡ slice_index_or digests.old i [] }
    {
        'blocks: for _ in 0..self.left[l] {
            self.step(bytes);
        }
        let index = self.index[l];
        if index < spans.len() {
            digests[index] = digest_of(&lane_of(&self.state, l));
        }
    }

    /// Gives a lane the span of this number.
    fn begin(&mut self, l: usize, index: usize, span: Span)
        requires { l < LANES }
        ensures lanes { (bytes : List ℕ) (spans : List Span) → slice_index_or spans index span ≡ span →
            index < length spans → AreLanes bytes spans self.old → AreLanes bytes spans self.new }
        ensures index { slice_index self.new.index l ≡ index }
        ensures others { (j : ℕ) → j ≢ l → slice_index self.new.index j ≡ slice_index self.old.index j }
    {
        put_lane(&mut self.state, l, &H256);
        self.place[l] = span.start;
        self.left[l] = span.blocks;
        self.index[l] = index;
    }
}

/// The numbers of the spans, in the order in which they are hashed. Of a few spans the longest comes first,
/// so that the lanes end at about the same time.
fn in_order(alloc: Global, spans: &[Span]) -> Result<Vec<usize>, AllocError>
    ensures below { IfOk result (λ order. All (λ i. i < length spans.now) order.items) }
    ensures each { IfOk result (λ order. (i : ℕ) → i < length spans.now → Contains order.items i) }
{
    let mut order = Vec::new(alloc);
    'numbers: for i in 0..spans.len() {
        order.push(i)?;
    }
    if spans.len() > MOST_SORTED {
        return Ok(order);
    }
    order.sort_by_key(|i| match spans.get(*i) {
        Some(span) => usize::MAX.saturating_sub(span.blocks),
        None => 0,
    })?;
    Ok(order)
}

/// The digests of the blocks of each span, hashed from the initial hash value.
pub(crate) fn digests(
    alloc: Global,
    bytes: &[u8],
    spans: &[Span],
) -> Result<Vec<[u8; 32]>, AllocError>
    requires { All (IsWithin bytes.now) spans.now }
    ensures { IfOk result (λ all. all.items ≡ map (digest_of bytes.now) spans.now) }
{
    let mut digests = vec![in alloc; [0u8; 32]; spans.len()]?;
    let mut lanes = Lanes::new(spans.len());
    let order = in_order(alloc, spans)?;
    'spans: for k in 0..order.len() {
        let i = order[k];
        let l = shortest(&lanes.left);
        lanes.end(bytes, spans, l, digests.as_mut_slice());
        lanes.begin(l, i, spans[i]);
    }
    'rest: for l in 0..LANES {
        lanes.end(bytes, spans, l, digests.as_mut_slice());
    }
    Ok(digests)
}
