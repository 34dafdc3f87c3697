//! The texts of the help: of the program, of each command and of each argument. For the commands and options
//! themselves see `command`.

pub(crate) const ABOUT: &str =
    "Checks a raw image of a storage node's disk, and reports what is on it and which space can be reclaimed";

pub(crate) const AFTER_HELP: &str = "Without a command, demo runs.

Numbers are decimal. Option values may start with '+'; EXTENT:PAGE values may not.

Exit status:
  0  clean
  1  findings, or a shard that cannot be had
  2  the arguments or the map are invalid, or no sizes are found
  3  the image or the map cannot be opened, the image is too long, or the output failed
  4  out of memory

Examples:
  shardscrub summary examples/one-shard.img
  shardscrub items --extent 1 --pointer 41 examples/one-shard.img
  shardscrub reclaimable --page 64 --pages 4 --extents 3 examples/one-shard.img";

pub(crate) const SCAN_ABOUT: &str =
    "Prints a report of the whole disk: what may be reclaimed, what is where, and what is wrong";

pub(crate) const SCAN_AFTER_HELP: &str =
    "The report is one line of JSON. Its offsets are in bytes from the start of an extent. A locator is a
reference to a chunk, held by a shard or by the superblock. It is sound if a whole chunk with its UUID,
length and digest is there, and an item begins there. The keys of the report:

  candidates  the extents that can be reclaimed, judging by this report alone, the greatest gain first,
              with the bytes to gain and the offsets of the chunks to move first. Before you act, run
              the command reclaimable: it also lists doubts that keep no extent out of this list,
              like a damaged superblock or the tail of another extent
  extents     each extent from 1 on except the retired ones: its write pointer; the items below it, as
              the command items lists them; 'bad', its unreadable pages; 'live', the bytes of chunks
              that sound locators name; 'tail', how many readable bytes from the pointer on aren't
              0; 'tail_at', the first of them
  orphans     chunks that no sound locator names. Most are left from rewriting and deleting, but
              don't treat one as garbage unless reclaimable names its extent
  twins       chunks with the UUID of another chunk, as an interrupted move leaves them
  shards      how many shards are known
  doubtful    shards that a lost index run may have changed or deleted: what is known of them may be
              old
  geometry    the sizes of the disk, as they were given or found
  retired     the extents that the superblock retired, in ascending order. They aren't read:
              'extents' doesn't list them, and a locator into one dangles
  clean       false if any of the following is found

The disk is not clean, and the status is 1, if one of these keys reports a fault:

  super       'page' is null: there is no superblock, so the write pointers aren't known; or 'tie'
              is true: two superblocks or more have the greatest generation; or 'bad' isn't empty:
              pages of extent 0 are unreadable, and one of them may have held a newer superblock
  runs        a 'state' isn't 'read': that index run is lost, and with it what no other run has
  dangling    not empty: locators without their chunk; 'reason' says why
  broken      not empty: shards with such a locator: at least one of their chunks can't be read or
              verified
  hidden      not empty: locators whose chunk is whole, but at which no item begins. The chunk can be
              read, and you would lose it if you moved chunks by the items alone
  shared      not empty: places of chunks that two or more sound locators point to. If you move such
              a chunk, change all of them
  extents     'bad' isn't empty, or an item is 'torn', 'noise' or 'lost'

If 'super' or 'runs' reports a fault, no extent is a candidate.

Exit status: 0 if 'clean' is true, 1 if it is false; for the others see shardscrub --help.

Example:
  shardscrub scan examples/one-shard.img";

pub(crate) const SHARD_ABOUT: &str =
    "Writes the bytes of one shard: the payloads of its chunks, one directly after another";

pub(crate) const SHARD_AFTER_HELP: &str =
    "The chunks are those of the shard's newest entry in the index runs that can be read, in the order of
the entry. A chunk whose locator is sound or hidden is read at its place. If the locator dangles, its
first spare is read, or if it has none its first loose copy, as the command locators prints them.

Nothing is written unless there is a payload for each locator. Then the error stream has one of these
lines, and the status is 1:
  no such shard           the shard was deleted, or no index run that can be read has it
  payload lost: NUMBER    the first locator that dangles without a spare or a loose copy, numbered as the
                          command manifest does: no frame of the extents in use has its payload, but
                          maybe one of a crowded extent

Beside the bytes the error stream has these lines, in this order, and the status is 1. The bytes may be
older ones then:
  superblock lost: PAGE        a page of extent 0 can't be read, or begins like a superblock but isn't
                               one: it may have held a newer superblock
  tie                          two superblocks or more have the greatest generation
  a newer entry may be lost    a lost index run may have a newer entry of the shard, as the report says
                               under 'doubtful'

Status 0 doesn't say that the superblock is the last one: a newer one whose page now reads as zeros
leaves no line.

With --run the answer is that of a disk on which one superblock counts that lists the index runs at these
places, in this order, the newest first, retires no extent, and has each write pointer at its extent's end.
What is in extent 0 doesn't matter, so there are no lines on superblocks. At a place there has to be a
whole frame whose payload is an index run; the command runs lists such places. A place that is given twice
counts once. Nothing in a run says which one is newer, so their order is yours to judge.

Exit status:
  0  all bytes are written, and the error stream has no line; the disk may have other faults
  1  all bytes are written, but a newer superblock or entry may be lost, or there is a tie; or nothing is
     written, as there is no such shard or a payload is lost
  2  the arguments or the map are invalid, or no sizes are found
  3  the image or the map cannot be opened, the image is too long, or the output failed: it may have
     a part of the bytes
  4  out of memory

Example:
  shardscrub shard --id 00000000000000000000000000000001 examples/one-shard.img > restored";

pub(crate) const SHARDS_ABOUT: &str = "Writes a tar archive of all shards, by one scan";

pub(crate) const SHARDS_AFTER_HELP: &str =
    "The archive (POSIX ustar) has a file for each shard that the command shard writes, with those bytes, by
ascending identifier. The identifier, in 32 hexadecimal digits, is its name.

The error stream has these lines, in this order. The archive is written whole all the same:
  no superblock                   no superblock is valid, so no shard is known
  superblock lost: PAGE           a page of extent 0 can't be read, or begins like a superblock but isn't
                                  one: it may have held a newer superblock, with newer bytes and shards
  tie                             two superblocks or more have the greatest generation
  run lost: NUMBER STATE          an index run is lost, as the command reclaimable prints it; shards
                                  that are recorded only there aren't known
  payload lost: ID NUMBER         the shard ID isn't in the archive: the first locator of its entry that
                                  dangles without a spare or a loose copy, numbered as by the command
                                  shard
  a newer entry may be lost: ID   the shard ID is in the archive; a lost index run may have a newer entry

The last two come by ascending identifier, one for a shard. With --partial a shard that lacks payloads has
files, too, in its place: one for each payload that is there, by ascending NUMBER, whose name is ID.NUMBER.
Then each payload that is lost has its line, so that each payload of the shard has a file or a line. After
these lines may come that on a newer entry of the shard.

With --run the archive goes by the index runs at these places, as the command shard does. There are no lines
on superblocks then.

The whole archive is made in memory before its first byte is written. Status 0 doesn't say that the
superblock is the last one: a newer one whose page now reads as zeros leaves no line, and then the bytes
may be older ones, and shards may be missing.

Exit status:
  0  the archive has each shard, and the error stream has no line
  1  the archive is written, and the error stream has lines
  2  the arguments or the map are invalid, or no sizes are found
  3  the image or the map cannot be opened, the image is too long, or the output failed: it may have
     a part of the archive
  4  out of memory

Example:
  shardscrub shards examples/one-shard.img > shards.tar";

pub(crate) const INDEX_ABOUT: &str =
    "Prints the index that can be recovered from the disk, in binary, to be written to a file";

pub(crate) const INDEX_AFTER_HELP: &str =
    "The index is one index run, with nothing around it. It has each known shard that isn't broken, with
its locators from the newest readable run, hidden ones included. Deleted shards aren't in it.

In the report of scan, 'broken' lists the shards that the index leaves out, and 'doubtful' those in it
that a lost run may have changed or deleted.

It isn't a repair. If you write it back as the only run, two things are forgotten: every broken shard,
and anything recorded only in a lost run. The next scan can then be clean, and offer their extents for
reclamation. So keep the old runs in the superblock, listed after the index, until all of that has been
restored or given up on purpose. Without a superblock the index is a valid run of no entries; only the
status shows that.

Exit status, the same as that of scan for this image:
  0  clean
  1  findings; the index is whole all the same
  2  the arguments or the map are invalid
  3  the image or the map cannot be opened, the image is too long, or the output failed
  4  out of memory

Example, for a disk with 3 extents of 4 pages of 64 bytes:
  shardscrub index --page 64 --pages 4 --extents 3 examples/one-shard.img > recovered.run";

pub(crate) const LOCATORS_ABOUT: &str =
    "Lists the named locators: who names which chunk, and the status of each locator";

pub(crate) const LOCATORS_AFTER_HELP: &str =
    "A locator is a reference to a chunk, held by a shard or by the superblock. Each has one line, whether
it is sound or not:

  OWNER EXTENT OFFSET LENGTH UUID STATUS

  OWNER   who names the chunk: 'run' and the number of an index run, from 0 in the order of the
          superblock; or 'shard' and the 32 hexadecimal digits of its identifier
  EXTENT  the extent of the chunk
  OFFSET  where the chunk begins, in bytes from the start of the extent
  LENGTH  the bytes of its payload
  UUID    that of the chunk
  STATUS  'sound', or 'hidden', or why the locator dangles: 'out_of_range', 'retired',
          'past_pointer', 'unreadable', 'no_frame', 'wrong_uuid', 'wrong_length' or 'wrong_digest'

A spare of a locator that dangles is a chunk with the length and the digest that the locator has, in
any extent that is in use and under any UUID. A locator of LENGTH 0 has none. A locator without a spare
may have loose copies: frames with such a payload at any byte of an extent that is in use, wherever its
write pointer is, each byte of them readable. If a locator has spares or loose copies, one more line
comes directly after its own:

  spare EXTENT OFFSET LENGTH UUID COUNT
          the place, length and UUID of the first spare by extent and offset, and how many there are
  loose EXTENT OFFSET LENGTH UUID COUNT
          the same of the first loose copy and of all of them

A spare can be named by an entry. A loose copy can't, as no item begins there, and a node writes over what
is past a write pointer: let it write the shard anew. An extent is crowded if the payloads of the frames
at all its bytes are together more than four times as many bytes as it has; none of its frames is a loose
copy.

The index runs come first, in the order of the superblock. The known shards follow, by ascending
identifier, each with its locators in their order. Locators recorded only in a lost run aren't listed.

To find out who names a chunk, look for its extent and offset: an owner is two words, so these are
the third and the fourth word of a line. The command reclaimable lists the owners of all chunks that
have to be moved before extents are reset; afterwards the command locators shows whether each changed
locator is 'sound'.

Exit status, the same as that of scan for this image:
  0  clean
  1  findings; the list is whole all the same
  2  the arguments or the map are invalid, or no sizes are found
  3  the image or the map cannot be opened, the image is too long, or the output failed
  4  out of memory

Example:
  shardscrub locators examples/one-shard.img

Its second line:
  shard 00000000000000000000000000000001 1 0 3 11111111-1111-1111-1111-111111111111 sound";

pub(crate) const MANIFEST_ABOUT: &str =
    "Lists what the disk holds, wherever it lies: retired extents, and the chunks of each shard";

pub(crate) const MANIFEST_AFTER_HELP: &str =
    "The text is made to be kept and compared (cmp, diff). Its lines are in the order of LC_ALL=C sort:

  retired EXTENT ..       the extents that the superblock retired, ascending
  runs lost L hidden H    L index runs are lost, and H are read although their locator is hidden: the
                          node's own scan steps over these
  shard ID NUMBER LENGTH DIGEST sound FORM
  shard ID NUMBER LENGTH DIGEST STATUS EXTENT OFFSET UUID COPY
                          each locator of each shard, by ascending identifier and then in order: the
                          first form if the locator is sound, else the second
  total S N               how many shards there are, and how many of these lines

  ID      the 32 hexadecimal digits of the shard's identifier
  NUMBER  the number of the locator among those of the shard, from 00, always two digits
  LENGTH  the bytes of the payload, as the locator has them
  DIGEST  the SHA-256 of the payload, as the locator has it, in hexadecimal digits
  FORM    'plain' or 'sealed', the form of the chunk's frame
  STATUS  that of the locator, as the command locators prints it
  EXTENT OFFSET UUID
          the place and the UUID that the locator has
  COPY    if the locator dangles: 'spare' if it has one, else 'loose' if it has a loose copy, as
          locators lists them, else 'none'

Only 'sound' and 'hidden' mean that LENGTH and DIGEST were checked. Without a superblock the text is the
one line 'no-superblock'. A text without a line 'total' is no manifest. Locators recorded only in a lost
run aren't listed.

With --reset the text is what it would be if the write pointers of these extents were 0, and nothing in
them were a loose copy; retired extents stay retired. So it shows before a reset which named chunks the
reset would take away. A sound chunk has no place in the text: when it is moved with its frame and is
sound there, its line stays the same, and in lines of other locators the last word may rise, from 'none'
over 'loose' to 'spare'. With --reset for an extent that reclaimable names without a 'move' line the text
stays the same, if no line there begins with 'accepted spare' or 'accepted loose'.

With --run the text goes by the index runs at these places, as the command shard does. What hangs on their
order shows if you compare the texts of two orders. --run can't be used with --reset.

Beside the text the error stream has these lines, in this order. They change nothing in the text, but say
that it may be of an older state of the disk. With --run there are none:

  superblock lost: PAGE   a page of extent 0 can't be read, or begins like a superblock but isn't one: it
                          may have held a newer superblock
  tie                     two superblocks or more have the greatest generation

Exit status:
  0  there is a superblock or --run, no run is lost or hidden, each locator is sound, and the error stream
     has no line
  1  else; the text is whole all the same
  2  the arguments or the map are invalid
  3  the image or the map cannot be opened, the image is too long, or the output failed
  4  out of memory

Example, for a disk with 3 extents of 4 pages of 64 bytes:
  shardscrub manifest --page 64 --pages 4 --extents 3 examples/one-shard.img";

pub(crate) const RUNS_ABOUT: &str =
    "Lists the index runs that are found on the disk, whether or not a superblock lists them";

pub(crate) const RUNS_AFTER_HELP: &str =
    "Each index run that is found has one line, by ascending extent and offset. The last line is the number of
these lines:

  run EXTENT OFFSET LENGTH UUID SHARDS [AT]..
  total N

  EXTENT  the extent of the run's chunk
  OFFSET  where the chunk begins, in bytes from the start of the extent
  LENGTH  the bytes of its payload, which is the run
  UUID    that of the chunk
  SHARDS  how many entries the run has
  AT      each offset of extent 0, ascending, at which the 60 bytes of the run's locator stand

All extents but extent 0 are searched, retired ones too, from the first byte to the last, whatever their
write pointers are: where a whole frame stands the search goes on at its end, else at the next byte. So a
run within another payload isn't listed, nor one with an unreadable byte.

No superblock is looked at. AT shows what superblocks list, or listed before they were damaged: in one
record the offsets ascend in steps of 60, the newest run first. On a disk in use most of the runs are often
old ones, and nothing in a run says how old it is. With --run the commands shard, shards and manifest go by
runs whose order you know or judge.

Exit status:
  0  each page of the disk can be read
  1  a page can't be read: a run with bytes of it isn't listed
  2  the arguments or the map are invalid
  3  the image or the map cannot be opened, the image is too long, or the output failed
  4  out of memory

Example, for a disk with 3 extents of 4 pages of 64 bytes:
  shardscrub runs --page 64 --pages 4 --extents 3 examples/one-shard.img";

pub(crate) const SUMMARY_ABOUT: &str =
    "Prints one word on whether the disk is all right, and names and numbers for monitoring";

pub(crate) const SUMMARY_AFTER_HELP: &str =
    "The first line is the verdict. Each of the others is a name and a decimal number, always all of them, in
this order. So diff compares two summaries.

  verdict WORD           'wrong' if the disk isn't clean; 'doubt' if it is, but a page of extent 0 is
                         damaged or stray, or the superblock that counts hasn't the generation of
                         --last; else 'sound'
  page_bytes extent_pages extents retired_extents
                         the sizes of the disk, as they were given or found, and its retired extents
  superblocks            valid records of extent 0
  superblock_generation  the generation of the record that counts, or 0 without one
  superblock_tie         1 if several records have the greatest generation, else 0
  superblocks_damaged    pages of extent 0 that superblocks lists as damaged
  superblocks_stray      pages of extent 0 that superblocks lists as stray
  unreadable_pages       of extent 0 and of the extents in use
  runs runs_lost         index runs
  shards shards_broken shards_doubtful
  locators locators_hidden locators_dangling
                         named locators, as locators lists them
  spares                 locators that dangle and have a spare
  loose_copies           locators that dangle, and have loose copies in the place of a spare
  chunks chunk_bytes live_chunks live_bytes orphans orphan_bytes twins shared_places
                         chunks and the bytes of their frames; a sound locator names live ones, and
                         none names orphans
  torn_items noise_items lost_items
  tails tail_bytes       extents with bytes at or past the write pointer that aren't 0, and those bytes
  candidates candidate_bytes chunks_to_move
                         extents that can be reclaimed, judging by the report alone, the bytes to gain,
                         and the chunks to move first

If the verdict is 'sound', the statuses of scan and manifest are 0, superblocks has no line 'lost',
'damaged' or 'stray', and each doubt of reclaimable is a 'tail'. A newest superblock that reads as zeros
leaves no trace but a tail at most. So give --last the generation of the last superblock that the node
logged: if it isn't the one that counts, the verdict isn't 'sound'. If it is 'sound', reclaimable with the
same --last has no doubt.

Exit status:
  0  the verdict is 'sound'
  1  else; the text is whole all the same
  2  the arguments or the map are invalid, or no sizes are found
  3  the image or the map cannot be opened, the image is too long, or the output failed
  4  out of memory

Example:
  shardscrub summary examples/one-shard.img

Its first line:
  verdict sound";

pub(crate) const RECLAIMABLE_ABOUT: &str =
    "Lists the extents that may be reclaimed, and what has to be moved first, or why none may be";

pub(crate) const RECLAIMABLE_AFTER_HELP: &str = "First comes a line for each doubt, in this order:

  doubt no-superblock              there is no valid superblock
  doubt tie                        two superblocks or more have the greatest generation
  doubt last COUNTS G              --last is G, but the superblock that counts has generation COUNTS; or
                                   COUNTS is 'none', and there is no superblock
  doubt superblock-lost PAGE       a page of extent 0 can't be read
  doubt superblock-damaged PAGE    a page of extent 0 begins with the letters of a kind of superblock,
                                   and no valid one holds them
  doubt superblock-stray PAGE      a page of extent 0 has bytes other than zero that no superblock holds,
                                   also if a superblock begins on it or ends on it
  doubt run-lost K STATE           an index run is lost; K is its number in the superblock, from 0
  doubt spare EXTENT OFFSET LENGTH UUID OWNER BYTES
                                   a locator of OWNER dangles, and all its spares are in extents that
                                   can be reclaimed, without a sound locator that points to one; this
                                   is the first, as locators lists it, with a frame of BYTES bytes
  doubt loose EXTENT OFFSET LENGTH UUID OWNER BYTES
                                   a locator of OWNER dangles without a spare, and all its loose copies
                                   are in extents that can be reclaimed; this is the first, as locators
                                   lists it, with a frame of BYTES bytes
  doubt crowded EXTENT             a locator whose length isn't 0 dangles without a spare, and this
                                   extent, which can be reclaimed, is crowded: so full of frames over
                                   frames that no loose copy is looked for in it
  doubt tail EXTENT OFFSET BYTES   this many bytes at or past the write pointer of an extent aren't
                                   zero; the first is at OFFSET
  doubt tail-lost EXTENT FIRST LAST
                                   these pages of an extent, at or past its write pointer, can't be read

Whoever gives --last G says: the last superblock that was written to this disk has generation G, and
nothing was written to the disk after it. Take G from the node's log, or from your own if you wrote
superblocks since, and never from the disk. If the superblock that counts has generation G, each line
'superblock-damaged', 'superblock-stray', 'tail' and 'tail-lost' is accepted. Else there is the line 'last'.
A tail may hold the last whole copy of a lost payload: that is looked for by itself, as a loose copy, and
never accepted by --last.

A doubt of one of these four kinds, a spare, a loose copy or a crowded extent can be accepted by its line
without the word 'doubt', as in --accept 'tail 2 0 1092': to the byte, that line alone, with no effect if it
isn't printed. Accept a spare or a loose copy if you copy its BYTES bytes, as they are, or give it up, and
a crowded extent if you give up whatever copy it has. Or let the node write the shard anew, with the bytes
of the command shard, or delete it: then there is no such line. Other doubts can't be accepted. An
accepted line begins with 'accepted' in place of 'doubt'.

An extent that was reset has a tail until the pointer passes the last old byte.

If no line begins with 'doubt', a line follows for each extent that can be reclaimed, the greatest gain
first. After it come the lines for the chunks to move out of it, one for each owner:

  reclaim EXTENT FREE                  resetting this extent gains this many bytes
  move EXTENT OFFSET LENGTH UUID OWNER BYTES
                                       copy the chunk at this place, with LENGTH bytes of payload in a
                                       frame of BYTES bytes, and change its owner: 'run' and the
                                       number of an index run, or 'shard' and its identifier

If an extent is named, the last lines are places for copies, each with the BYTES from OFFSET to the end
of the extent. A chunk copied to OFFSET is found once the write pointer is at the end of the chunk.

  room EXTENT OFFSET BYTES             in an extent without a 'reclaim' line
  last-room EXTENT OFFSET BYTES        in an extent with a 'reclaim' line

An extent with a loose copy isn't among them, nor is a crowded one while a locator whose length isn't 0
dangles without a spare.

Before you reset an extent, copy the chunks on its 'move' lines: each place once, however many lines it
has, and BYTES bytes as they are, to the OFFSET of a 'room' line or directly after the last copy there.
Never copy into an extent that you reset before you run reclaimable again. If no room is large enough,
first reset an extent without 'move' lines, and begin again; only if there is none, use a 'last-room'.

Before the reset make a new image, and check that reclaimable with --last and the generation that you
wrote ends with status 0 and names the extent without a 'move' line; and that compare with --reset for
this extent, of the image at the beginning and the new one, prints 'safe'. Begin again after each reset,
with the same map and the same pages. docs/RECLAIMING.md has all steps.

Exit status:
  0  no line begins with 'doubt'; there may be nothing to reclaim, and the disk may have other faults
  1  a line begins with 'doubt'
  2  the arguments or the map are invalid
  3  the image or the map cannot be opened, the image is too long, or the output failed
  4  out of memory

Example, for a disk with 3 extents of 4 pages of 64 bytes:
  shardscrub reclaimable --page 64 --pages 4 --extents 3 examples/one-shard.img";

pub(crate) const COMPARE_ABOUT: &str =
    "Compares two images of a disk: whether what was written in between lost anything, and extents may be \
     reset";

pub(crate) const COMPARE_AFTER_HELP: &str =
    "BEFORE is an image whose doubts were settled, AFTER a later one of the same disk, or the same file. The
map and the pages hold for both. Each reason why it isn't safe has a line, in this order:

  doubt before D, doubt after D   a doubt of reclaimable that can't be accepted: no-superblock, tie,
                                  superblock-lost PAGE or run-lost K STATE; if there is no superblock
                                  in an image, no other reasons follow
  generation BEFORE AFTER         the superblock that counts has a smaller generation in AFTER
  pointer EXTENT BEFORE AFTER     the write pointer isn't as it was, nor 0 with --reset, nor at or past
                                  the OFFSET where BEFORE has room, as reclaimable lists it
  written EXTENT OFFSET           the first byte that was written where nothing may be: in extent 0
                                  anything but zeros and valid superblocks; in another extent anything
                                  before the OFFSET of its room, and what isn't zero past its pointer
  named OWNER EXTENT OFFSET LENGTH UUID STATUS
                                  a locator of AFTER, as locators lists it, into an extent of --reset
  lost LINE, new LINE             a line of the manifest of BEFORE that differs in that of AFTER with
                                  --reset, and what it is there. Lines of one shard and number belong
                                  together; one of both may be missing
  spare LINE                      a line of the manifest of BEFORE that ends in 'spare', and would end in
                                  'loose' or 'none'
  loose LINE                      such a line that ends in 'loose', and would end in 'none'

The last line is 'unsafe', or if there is no other line:

  safe BEFORE AFTER               the generations of the superblocks that count

Before a reset 'safe' says that the extents of --reset may be reset, and after it that nothing named was
lost by it. It doesn't say that the pointer is 0 by then: without --reset each pointer that became 0 has a
line. Compare the last line with the generations that were written: 'safe 7 8' says, too, that superblock 8
counts.

These are no reasons: a last word that rises, from 'none' over 'loose' to 'spare'; fewer hidden runs; and
zeros that were written over bytes behind the OFFSET of a room. A line 'loose' says that the last whole copy
of a lost payload would go or was written over, or that its extent became crowded. Nothing can be accepted
here: a spare or a loose copy has to be copied, or the node has to delete its shard before BEFORE is made.
If it does so later, the shard's lines are 'lost': begin again with a new BEFORE. What was written before
BEFORE or after AFTER isn't seen. docs/RECLAIMING.md has all steps.

Exit status:
  0  the last line is 'safe'
  1  it is 'unsafe'; the text is whole all the same
  2  the arguments or the map are invalid
  3  the image or the map cannot be opened, the image is too long, or the output failed
  4  out of memory

Example, for a disk with 3 extents of 4 pages of 64 bytes:
  shardscrub compare --page 64 --pages 4 --extents 3 examples/one-shard.img examples/one-shard.img

It prints:
  safe 1 1";

pub(crate) const SUPERBLOCKS_ABOUT: &str =
    "Lists the superblock records of extent 0, and its pages that may have held one";

pub(crate) const SUPERBLOCKS_AFTER_HELP: &str =
    "Pages of extent 0 are listed in ascending order, each with the first of these lines that applies:

  lost PAGE                          the page can't be read
  record PAGE KIND GENERATION STATE  a superblock record of a disk of these sizes begins the page
  damaged PAGE KIND                  the page begins with the letters of this kind, and no valid record
                                     holds them: the digest or the sizes are wrong, a value is out of
                                     range, or the record is cut off
  stray PAGE                         the page has a byte other than zero that no record holds

A page with a record has the line 'stray', too, directly after its own, if it has such a byte. A page whose
bytes are held by records that begin on earlier pages, or are zero, has no line.

A record holds the bytes from the start of its page to its own end. Bytes after that may be left of a
newer superblock whose write was interrupted, or of an older one that was longer. A node leaves no such
bytes if it writes each superblock in whole pages, with zeros after the record up to the end of its last
page, and over all that is left of each valid record that it overwrites.

  PAGE        the page's number, from 0
  KIND        SSB1 or SSB2
  GENERATION  that of the record
  STATE       'counts' for the record by which the disk is scanned; 'tie' for each that has the
              greatest generation if several have it; else 'older'

A newer superblock has no line if its page now reads as zeros or it was never written, and an older
format with the same sizes may have left records of a greater generation. So compare the generation of
the record that counts with the last one that the node logged.

Exit status:
  0  every line is a 'record', and one of them 'counts'
  1  anything else, including no line at all
  2  the arguments or the map are invalid, or no sizes are found
  3  the image or the map cannot be opened, the image is too long, or the output failed
  4  out of memory

Example:
  shardscrub superblocks examples/one-shard.img

Its line:
  record 0 SSB1 1 counts";

pub(crate) const SIZES_ABOUT: &str =
    "Lists the superblock records of an image of unknown sizes, each with its own sizes";

pub(crate) const SIZES_AFTER_HELP: &str =
    "The first 67108864 bytes are searched, as extent 0 ends there at the latest. Each superblock record and
each range of unreadable bytes has one line, in ascending order:

  OFFSET KIND GENERATION PAGE PAGES EXTENTS  a record of a disk of these sizes begins at this byte
  lost FROM TO                               the bytes from FROM on, up to TO, can't be read, in
                                             blocks of 512 bytes; a record in one of them isn't found

  OFFSET      a byte of the image, from 0
  KIND        SSB1 or SSB2
  GENERATION  that of the record
  PAGE        bytes of a page
  PAGES       pages of an extent
  EXTENTS     extents of the disk

A disk that was formatted twice may have records of two geometries. The list doesn't show which of them
is the current one.

Exit status:
  0  there is a record, all have the same sizes, and no byte is lost
  1  anything else
  2  the arguments or the map are invalid
  3  the image or the map cannot be opened, or the output failed
  4  out of memory

Example:
  shardscrub sizes examples/one-shard.img

Its line:
  0 SSB1 1 64 4 3";

pub(crate) const ITEMS_ABOUT: &str =
    "Lists the items of one extent: chunks, padding, torn chunks, noise and lost pages";

pub(crate) const ITEMS_AFTER_HELP: &str =
    "Each line has an item's kind, its first byte and the byte after its last, both counted from the start
of the extent. The kinds:
  chunk   a whole chunk in a plain frame; its UUID and the bytes of its payload follow
  sealed  the same in a sealed frame
  pad     zeros
  torn    the beginning of a chunk that isn't whole
  noise   any other bytes
  lost    an unreadable page, or a part of one

Exit status:
  0  every item is a 'chunk', 'sealed' or not, or padding
  1  an item is 'torn', 'noise' or 'lost'
  2  the arguments or the map are invalid, or no sizes are found
  3  the image or the map cannot be opened, the image is too long, or the output failed
  4  out of memory

Example:
  shardscrub items --extent 1 --pointer 41 examples/one-shard.img";

pub(crate) const DEMO_ABOUT: &str = "Prints the report of a small built-in disk with one shard";

pub(crate) const DEMO_AFTER_HELP: &str =
    "The disk has 3 extents of 4 pages of 64 bytes. Extent 1 begins with a chunk, extent 2 with the
index run that names it as the only chunk of a shard, and extent 0 with a superblock that names the
run. The disk is clean. For the keys of the report see shardscrub scan --help.

Exit status:
  0  the report is printed
  3  the output failed
  4  out of memory

Example:
  shardscrub demo";

pub(crate) const PAGE_HELP: &str = "Bytes of a page: a power of two, 64 to 65536";

pub(crate) const FREE_PAGE_HELP: &str =
    "Bytes of a page: a power of two, 64 to 65536. Without --page, --pages and --extents the sizes are those \
     of the disk's superblocks";

pub(crate) const PAGES_HELP: &str =
    "Pages of an extent: 1 to 65536, and at most 67108864 bytes in an extent";

pub(crate) const EXTENTS_HELP: &str =
    "Extents of the disk: 2 to 65536, and at most 4294967296 bytes on the disk";

pub(crate) const WORKERS_HELP: &str =
    "Workers that scan the disk beside the main thread: 0 to 64 (default: 1). Does not affect the output";

pub(crate) const ACCEPT_HELP: &str =
    "Line of a doubt to accept, without the word 'doubt'. May be repeated";

pub(crate) const LAST_HELP: &str =
    "Generation of the last superblock that was written, if nothing was written to the disk after it: 0 to \
     18446744073709551615";

pub(crate) const RESET_HELP: &str =
    "Extent to be taken as reset: 1 to one less than the number of extents. May be repeated";

pub(crate) const ID_HELP: &str =
    "Identifier of the shard: 32 hexadecimal digits, as locators prints them";

pub(crate) const RUN_HELP: &str =
    "Place of an index run to go by in place of any superblock; of several, whose order is yours to judge, \
     the newest first. May be repeated";

pub(crate) const PARTIAL_HELP: &str =
    "Also write what is there of a shard that lacks payloads: a file ID.NUMBER for each payload";

pub(crate) const EXTENT_HELP: &str = "Extent to list: 0 to one less than the number of extents";

pub(crate) const POINTER_HELP: &str =
    "Write pointer of the extent: 0 to the bytes of an extent (default: all of them)";

pub(crate) const MAP_HELP: &str =
    "Map of GNU ddrescue: pages that it doesn't list as rescued are unreadable";

pub(crate) const IMAGE_HELP: &str = "Raw image of the disk: its extents, one after another";

pub(crate) const BEFORE_HELP: &str = "Raw image of the disk before, with its doubts settled";

pub(crate) const AFTER_IMAGE_HELP: &str =
    "Raw image of the same disk after; it may be the same file";

pub(crate) const BAD_PAGES_HELP: &str =
    "More pages to treat as unreadable: 1:3 is page 3 of extent 1";
