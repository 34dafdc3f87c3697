//! What the arguments ask for. Here they are only parsed; each command checks its own sizes, places and
//! files.
ghost use Rattle.std.specs.Prelude.{◌≡◌, ◌≢◌, ◌&&◌, false, true, IfOk, MatchOption, MatchResult};
ghost use Rattle.std.specs.Prelude.{None, Some, codes, is_none, is_some};
ghost use Rattle.clap.specs.Words.{first_of, found_of, kind_of, one_of, rows_of, subcommand_rows_of};
ghost use Rattle.scrub_args.specs.Accepting.{refusal_of};
ghost use Rattle.scrub_args.specs.steps.Parsed.{ComesOf, HasCompare, HasImage, HasImageName, HasItems};
ghost use Rattle.scrub_args.specs.steps.Parsed.{HasFlag, HasManifest, HasNumber, HasNumbers, HasScan};
ghost use Rattle.scrub_args.specs.steps.Parsed.{HasShard, HasShards, HasText};
ghost use Rattle.scrub_args.specs.steps.Parsed.{IsWantedBy, IsWholeParse, MayHaveLongNumber, MayHaveNumber};
ghost use Rattle.scrub_args.specs.steps.Parsed.{is_dated_command, is_disk_command};
ghost use Rattle.scrub_args.specs.Args.{AreAccepted, AreCompareArgs, AreImageArgs, AreItemsArgs};
ghost use Rattle.scrub_args.specs.Args.{AreManifestArgs, AreNumbersOf, AreResetsOf, AreScanArgs};
ghost use Rattle.scrub_args.specs.Args.{AreShardArgs, AreShardsArgs, AreSizesArgs, AreSizesGiven};
ghost use Rattle.scrub_args.specs.Args.{AreTextsOf, AskForVersion, IsArgsFault, IsAskedBy, IsFlagOf};
ghost use Rattle.scrub_args.specs.Args.{IsLastOf, IsManifestArgsFault, IsNumberOf, IsPartFault, IsRefusal};
ghost use Rattle.scrub_args.specs.Args.{IsRowsFault, IsTextFault, IsWorkersOf, NameCommand, both_text};
ghost use Rattle.scrub_args.specs.Args.{has_runs_and_resets, part_text, texts};
ghost use Rattle.clap.specs.declared.error.kind.ErrorKind.TheVariants.{DisplayVersion};
ghost use Rattle.scrub_args.specs.declared.args.ArgsFault.TheVariants.{OutOfMemory};

use crate::accepting::{AcceptedDoubts, refusal_of, unacceptable};
use crate::command;
use clap::error::ErrorKind;
use clap::{ArgMatches, Error};
use std::alloc::{AllocError, Global};

/// What the program is asked to do.
#[derive(Debug, Drop)]
pub enum Request<'a> {
    /// Print the report of the built-in disk.
    Demo,
    /// List the items of one extent.
    Items(ItemsArgs<'a>),
    /// Print what is wanted of a whole disk.
    Scan(ScanOutput<'a>, ScanArgs<'a>),
    /// List what a disk holds, wherever it lies.
    Manifest(ManifestArgs<'a>),
    /// Say whether what was written to a disk between two images lost anything.
    Compare(CompareArgs<'a>),
    /// Write the bytes of one shard.
    Shard(ShardArgs<'a>),
    /// Write all shards, as a tar archive.
    Shards(ShardsArgs<'a>),
    /// List the superblock records of extent 0, and its pages that may have held one.
    Superblocks(ImageArgs<'a>),
    /// List the superblock records of an image whose sizes aren't known.
    Sizes(SizesArgs<'a>),
}

/// What a command on the whole disk prints, other than `manifest`, `compare`, `shard` and `shards`.
#[derive(Debug, Drop)]
pub enum ScanOutput<'a> {
    /// The report.
    Report,
    /// The index that can be recovered.
    Index,
    /// The named locators, each with its status.
    Locators,
    /// The index runs that are found, whether or not a superblock lists them.
    Runs,
    /// A verdict, and numbers by their names, with the generation of the last superblock that was written, if
    /// it is given.
    Summary(Option<u64>),
    /// What may be reclaimed, with these doubts accepted, and with that generation.
    Reclaimable(AcceptedDoubts<'a>, Option<u64>),
}

/// The arguments of `items`.
#[derive(Debug, Drop)]
pub struct ItemsArgs<'a> {
    /// The disk and its image.
    pub image: ImageArgs<'a>,
    /// The number of the extent to list.
    pub extent: u32,
    /// Its write pointer in bytes, if one is given.
    pub pointer: Option<u32>,
}

/// The arguments of each command that scans the whole disk.
#[derive(Debug, Drop)]
pub struct ScanArgs<'a> {
    /// The disk and its image.
    pub image: ImageArgs<'a>,
    /// How many workers scan the disk beside the caller, 0 to 64.
    pub workers: u32,
}

/// The arguments of `manifest`.
#[derive(Debug, Drop)]
pub struct ManifestArgs<'a> {
    /// The disk, its image and the number of workers.
    pub scan: ScanArgs<'a>,
    /// The extents to be taken as reset, ascending, each once. It isn't checked that the disk has them. There
    /// are none if index runs are given.
    pub resets: Vec<u32>,
    /// The places of the index runs to go by in place of a superblock, in order and as given.
    pub runs: Vec<&'a str>,
}

/// The arguments of `compare`.
#[derive(Debug, Drop)]
pub struct CompareArgs<'a> {
    /// The disk, its earlier image, the number of workers, and the extents that are to be reset, or were. No
    /// index runs are given.
    pub before: ManifestArgs<'a>,
    /// The name of the later image file.
    pub after: &'a str,
}

/// The arguments of `shard`.
#[derive(Debug, Drop)]
pub struct ShardArgs<'a> {
    /// The disk, its image and the number of workers.
    pub scan: ScanArgs<'a>,
    /// The identifier of the shard, as given.
    pub id: &'a str,
    /// The places of the index runs to go by in place of a superblock, in order and as given.
    pub runs: Vec<&'a str>,
}

/// The arguments of `shards`.
#[derive(Debug, Drop)]
pub struct ShardsArgs<'a> {
    /// The disk, its image and the number of workers.
    pub scan: ScanArgs<'a>,
    /// The places of the index runs to go by in place of a superblock, in order and as given.
    pub runs: Vec<&'a str>,
    /// Whether the payloads that are there of a broken shard are written, too.
    pub is_partial: bool,
}

/// The arguments of `sizes`.
#[derive(Debug, Drop)]
pub struct SizesArgs<'a> {
    /// The name of the map of the rescue that made the image, if one is given.
    pub map: Option<&'a str>,
    /// The name of the image file.
    pub name: &'a str,
}

/// The sizes of a disk as they are given. The limits aren't checked.
#[derive(Debug, Clone, Copy, PartialEq, Eq)]
pub struct GivenSizes {
    /// Bytes of a page.
    pub page: u32,
    /// Pages of an extent.
    pub pages: u32,
    /// Extents of the disk.
    pub extents: u32,
}

/// The arguments of every command on a disk in an image file.
#[derive(Debug, Drop)]
pub struct ImageArgs<'a> {
    /// The sizes of the disk, if they are given.
    pub sizes: Option<GivenSizes>,
    /// The name of the map of the rescue that made the image, if one is given.
    pub map: Option<&'a str>,
    /// The name of the image file.
    pub name: &'a str,
    /// The arguments for unreadable pages, in order and as given.
    pub bad_pages: Vec<&'a str>,
}

/// Why the arguments are no request.
#[derive(Debug, Drop)]
pub enum ArgsFault {
    /// The arguments are refused; the text says why.
    Refused(String),
    /// The arguments ask for help; the text is the help.
    Help(String),
    /// Memory ran out while the arguments were parsed or the text was made.
    OutOfMemory,
}

impl From<AllocError> for ArgsFault {
    ghost from_gives = { λ _ fault. fault ≡ OutOfMemory };

    fn from(_error: AllocError) -> ArgsFault {
        ArgsFault::OutOfMemory
    }
}

impl ArgsFault {
    /// The fault for an error of `clap` that doesn't ask for the version. Its text is passed on whole or not
    /// at all.
    fn of(alloc: Global, error: &Error) -> ArgsFault
        requires { kind_of error.now ≢ DisplayVersion }
        ensures { ComesOf result (kind_of error.now) }
    {
        match error.kind() {
            ErrorKind::OutOfMemory => ArgsFault::OutOfMemory,
            ErrorKind::DisplayHelp => match text_of(alloc, error) {
                Ok(text) => ArgsFault::Help(text),
                Err(_) => ArgsFault::OutOfMemory,
            },
            _ => match text_of(alloc, error) {
                Ok(text) => ArgsFault::Refused(text),
                Err(_) => ArgsFault::OutOfMemory,
            },
        }
    }
}

fn text_of(alloc: Global, error: &Error) -> Result<String, AllocError> {
    format!(in alloc; "{error}")
}

/// Parses the arguments after the program's name: what they ask for, or `None` if that is the version.
/// Numbers are decimal, 0 to 4,294,967,295; the limits of a disk aren't checked.
///
/// If memory runs out at any point, the fault is `OutOfMemory`; no text is cut short.
pub fn read_args<'a>(alloc: Global, args: &'a [&'a str]) -> Result<Option<Request<'a>>, ArgsFault>
    ensures { MatchResult result
        (λ asked. MatchOption asked (AskForVersion (texts args.entry.now))
        (NameCommand (texts args.entry.now)))
        (IsArgsFault (texts args.entry.now)) }
{
    let mut command_line = command::command_line(alloc)?;
    let matches = match command_line.try_get_matches_from_mut(args) {
        Ok(matches) => matches,
        Err(error) if error.kind() == ErrorKind::DisplayVersion => return Ok(None),
        Err(error) => return Err(ArgsFault::of(alloc, &error)),
    };
    Ok(Some(request_of(alloc, &matches)?))
}

/// The request that was parsed. A text that can't be accepted is refused.
fn request_of<'a>(alloc: Global, matches: &ArgMatches<'a>) -> Result<Request<'a>, ArgsFault>
    requires { IsWholeParse (subcommand_rows_of matches.now) }
    ensures { MatchResult result
        (IsAskedBy (subcommand_rows_of matches.now))
        (IsRowsFault (subcommand_rows_of matches.now)) }
{
    match matches.subcommand() {
        None | Some((command::DEMO, _)) => Ok(Request::Demo),
        Some((command::ITEMS, matches)) => Ok(Request::Items(items_args(alloc, matches)?)),
        Some((command::MANIFEST, matches)) => Ok(Request::Manifest(manifest_args(alloc, matches)?)),
        Some((command::COMPARE, matches)) => Ok(Request::Compare(compare_args(alloc, matches)?)),
        Some((command::SHARD, matches)) => Ok(Request::Shard(shard_args(alloc, matches)?)),
        Some((command::SHARDS, matches)) => Ok(Request::Shards(shards_args(alloc, matches)?)),
        Some((command::SUPERBLOCKS, matches)) => {
            Ok(Request::Superblocks(image_args(alloc, matches)?))
        }
        Some((command::SIZES, matches)) => Ok(Request::Sizes(sizes_args(matches))),
        Some((name, matches)) => {
            let wanted = wanted_by(alloc, name, matches)?;
            Ok(Request::Scan(wanted, scan_args(alloc, matches)?))
        }
    }
}

/// What a command on the whole disk prints, by its name. A text that can't be accepted is refused.
fn wanted_by<'a>(
    alloc: Global,
    name: &str,
    matches: &ArgMatches<'a>,
) -> Result<ScanOutput<'a>, ArgsFault>
    requires disk { is_disk_command name.now ≡ true }
    requires last { is_dated_command name.now ≡ true →
        MayHaveLongNumber (rows_of (found_of matches.now)) (codes "last") }
    ensures { MatchResult result
        (IsWantedBy name.now (rows_of (found_of matches.now)))
        (IsRowsFault (Some (name.now, rows_of (found_of matches.now)))) }
{
    match name {
        command::SCAN => Ok(ScanOutput::Report),
        command::INDEX => Ok(ScanOutput::Index),
        command::LOCATORS => Ok(ScanOutput::Locators),
        command::RUNS => Ok(ScanOutput::Runs),
        command::SUMMARY => Ok(ScanOutput::Summary(last(matches))),
        command::RECLAIMABLE => {
            let accepted = accepted_doubts(alloc, matches)?;
            Ok(ScanOutput::Reclaimable(accepted, last(matches)))
        }
        _ => unreachable!(),
    }
}

fn items_args<'a>(alloc: Global, matches: &ArgMatches<'a>) -> Result<ItemsArgs<'a>, ArgsFault>
    requires { HasItems (rows_of (found_of matches.now)) }
    ensures { MatchResult result
        (AreItemsArgs (rows_of (found_of matches.now)))
        (IsPartFault (rows_of (found_of matches.now))) }
{
    Ok(ItemsArgs {
        image: image_args(alloc, matches)?,
        extent: number(matches, command::EXTENT),
        pointer: matches.get_one::<u32>(command::POINTER),
    })
}

fn scan_args<'a>(alloc: Global, matches: &ArgMatches<'a>) -> Result<ScanArgs<'a>, ArgsFault>
    requires { HasScan (rows_of (found_of matches.now)) }
    ensures { MatchResult result
        (AreScanArgs (rows_of (found_of matches.now)))
        (IsPartFault (rows_of (found_of matches.now))) }
{
    Ok(ScanArgs {
        image: image_args(alloc, matches)?,
        workers: workers(matches),
    })
}

fn manifest_args<'a>(alloc: Global, matches: &ArgMatches<'a>) -> Result<ManifestArgs<'a>, ArgsFault>
    requires { HasManifest (rows_of (found_of matches.now)) }
    ensures { MatchResult result
        (AreManifestArgs (rows_of (found_of matches.now)))
        (IsManifestArgsFault (rows_of (found_of matches.now))) }
{
    if has_runs_and_resets(matches) {
        return Err(refused_both(alloc));
    }
    Ok(ManifestArgs {
        scan: scan_args(alloc, matches)?,
        resets: resets(alloc, matches)?,
        runs: given_texts(alloc, matches, command::RUN)?,
    })
}

/// Whether index runs are given, and extents to be taken as reset as well.
fn has_runs_and_resets(matches: &ArgMatches<'_>) -> bool
    ensures { result ≡ has_runs_and_resets (rows_of (found_of matches.now)) }
{
    matches.contains_id(command::RUN) && matches.contains_id(command::RESET)
}

/// The refusal of index runs beside extents to be taken as reset, in the words of `clap`.
fn refused_both(alloc: Global) -> ArgsFault
    ensures { IsRefusal both_text result }
{
    match both_text(alloc) {
        Ok(text) => ArgsFault::Refused(text),
        Err(_) => ArgsFault::OutOfMemory,
    }
}

fn both_text(alloc: Global) -> Result<String, AllocError>
    ensures { IfOk result (λ text. text.bytes.items ≡ both_text) }
{
    String::from_str(
        alloc,
        "error: the argument '--run <EXTENT:OFFSET>' cannot be used with '--reset <EXTENT>'\n\n\
         For more information, try '--help'.\n",
    )
}

fn compare_args<'a>(alloc: Global, matches: &ArgMatches<'a>) -> Result<CompareArgs<'a>, ArgsFault>
    requires { HasCompare (rows_of (found_of matches.now)) }
    ensures { MatchResult result
        (AreCompareArgs (rows_of (found_of matches.now)))
        (IsPartFault (rows_of (found_of matches.now))) }
{
    Ok(CompareArgs {
        before: ManifestArgs {
            scan: scan_args(alloc, matches)?,
            resets: resets(alloc, matches)?,
            runs: Vec::new(alloc),
        },
        after: text(matches, command::AFTER),
    })
}

fn shard_args<'a>(alloc: Global, matches: &ArgMatches<'a>) -> Result<ShardArgs<'a>, ArgsFault>
    requires { HasShard (rows_of (found_of matches.now)) }
    ensures { MatchResult result
        (AreShardArgs (rows_of (found_of matches.now)))
        (IsPartFault (rows_of (found_of matches.now))) }
{
    Ok(ShardArgs {
        scan: scan_args(alloc, matches)?,
        id: text(matches, command::ID),
        runs: given_texts(alloc, matches, command::RUN)?,
    })
}

fn shards_args<'a>(alloc: Global, matches: &ArgMatches<'a>) -> Result<ShardsArgs<'a>, ArgsFault>
    requires { HasShards (rows_of (found_of matches.now)) }
    ensures { MatchResult result
        (AreShardsArgs (rows_of (found_of matches.now)))
        (IsPartFault (rows_of (found_of matches.now))) }
{
    Ok(ShardsArgs {
        scan: scan_args(alloc, matches)?,
        runs: given_texts(alloc, matches, command::RUN)?,
        is_partial: flag(matches, command::PARTIAL),
    })
}

fn flag(matches: &ArgMatches<'_>, name: &str) -> bool
    requires { HasFlag (rows_of (found_of matches.now)) name.now }
    ensures { IsFlagOf (rows_of (found_of matches.now)) name.now result }
{
    matches.get_flag(name)
}

/// The texts that were given for an option or an argument that may be repeated, in order.
fn given_texts<'a>(
    alloc: Global,
    matches: &ArgMatches<'a>,
    name: &str,
) -> Result<Vec<&'a str>, AllocError>
    ensures { IfOk result (λ given. AreTextsOf (rows_of (found_of matches.now)) name.now given.items) }
{
    let given = matches.get_strs(name).unwrap_or_default();
    Vec::from_slice(alloc, given)
}

/// The extents to be taken as reset, ascending, each once.
fn resets(alloc: Global, matches: &ArgMatches<'_>) -> Result<Vec<u32>, AllocError>
    requires { HasNumbers (rows_of (found_of matches.now)) (codes "reset") }
    ensures { IfOk result (λ resets. AreResetsOf (rows_of (found_of matches.now)) resets.items) }
{
    let mut resets = numbers(alloc, matches, command::RESET)?;
    resets.sort()?;
    resets.dedup();
    Ok(resets)
}

/// The numbers that were given for an option that may be repeated, in order.
fn numbers(alloc: Global, matches: &ArgMatches<'_>, name: &str) -> Result<Vec<u32>, AllocError>
    requires { HasNumbers (rows_of (found_of matches.now)) name.now }
    ensures { IfOk result (λ numbers. AreNumbersOf (rows_of (found_of matches.now)) name.now numbers.items) }
{
    let mut numbers = Vec::new(alloc);
    let Some(values) = matches.get_many::<u32>(name) else {
        return Ok(numbers);
    };
    for value in values {
        match value {
            Ok(number) => numbers.push(number)?,
            Err(_) => unreachable!(),
        }
    }
    Ok(numbers)
}

/// The generation of the last superblock that was written, if one is given.
fn last(matches: &ArgMatches<'_>) -> Option<u64>
    requires { MayHaveLongNumber (rows_of (found_of matches.now)) (codes "last") }
    ensures { IsLastOf (rows_of (found_of matches.now)) result }
{
    matches.get_one::<u64>(command::LAST)
}

/// The lines of doubts to accept.
fn accepted_doubts<'a>(
    alloc: Global,
    matches: &ArgMatches<'a>,
) -> Result<AcceptedDoubts<'a>, ArgsFault>
    ensures { MatchResult result
        (AreAccepted (rows_of (found_of matches.now)))
        (IsTextFault (rows_of (found_of matches.now))) }
{
    let texts = matches.get_strs(command::ACCEPT).unwrap_or_default();
    if let Some(text) = unacceptable(texts) {
        return Err(refused_text(alloc, text));
    }
    Ok(AcceptedDoubts::new(Vec::from_slice(alloc, texts)?))
}

/// The fault of a text that can't be accepted.
fn refused_text(alloc: Global, text: &str) -> ArgsFault
    ensures { IsRefusal (refusal_of text.now) result }
{
    match refusal_of(alloc, text) {
        Ok(refusal) => ArgsFault::Refused(refusal),
        Err(_) => ArgsFault::OutOfMemory,
    }
}

/// The number of workers: 1 if none is given.
fn workers(matches: &ArgMatches<'_>) -> u32
    requires { HasScan (rows_of (found_of matches.now)) }
    ensures { IsWorkersOf (rows_of (found_of matches.now)) result }
{
    match matches.get_one::<u32>(command::WORKERS) {
        Some(workers) => workers,
        None => 1,
    }
}

/// The number that was given for an option, if one was.
fn optional(matches: &ArgMatches<'_>, name: &str) -> Option<u32>
    requires { MayHaveNumber (rows_of (found_of matches.now)) name.now }
    ensures { MatchOption result
        (one_of name.now (rows_of (found_of matches.now)) ≡ None)
        (IsNumberOf (rows_of (found_of matches.now)) name.now) }
{
    matches.get_one::<u32>(name)
}

/// Whether none of three numbers is there.
fn are_none(page: Option<u32>, pages: Option<u32>, extents: Option<u32>) -> bool
    ensures { result ≡ (is_none page && is_none pages && is_none extents) }
{
    page.is_none() && pages.is_none() && extents.is_none()
}

/// The sizes, if all three are there.
fn whole_sizes(page: Option<u32>, pages: Option<u32>, extents: Option<u32>) -> Option<GivenSizes>
    ensures { MatchOption result
        ((is_some page && is_some pages && is_some extents) ≡ false)
        (λ s. (page ≡ Some s.page) × (pages ≡ Some s.pages) × (extents ≡ Some s.extents)) }
{
    let page = page?;
    let pages = pages?;
    let extents = extents?;
    Some(GivenSizes {
        page,
        pages,
        extents,
    })
}

/// The sizes that are given, all three or none.
fn given_sizes(alloc: Global, matches: &ArgMatches<'_>) -> Result<Option<GivenSizes>, ArgsFault>
    requires { HasImage (rows_of (found_of matches.now)) }
    ensures { MatchResult result
        (AreSizesGiven (rows_of (found_of matches.now)))
        (IsPartFault (rows_of (found_of matches.now))) }
{
    let page = optional(matches, command::PAGE);
    let pages = optional(matches, command::PAGES);
    let extents = optional(matches, command::EXTENTS);
    if are_none(page, pages, extents) {
        return Ok(None);
    }
    match whole_sizes(page, pages, extents) {
        Some(sizes) => Ok(Some(sizes)),
        None => Err(refused_part(alloc)),
    }
}

/// The refusal of some sizes without the others, in the words of `clap`.
fn refused_part(alloc: Global) -> ArgsFault
    ensures { IsRefusal part_text result }
{
    match part_text(alloc) {
        Ok(text) => ArgsFault::Refused(text),
        Err(_) => ArgsFault::OutOfMemory,
    }
}

fn part_text(alloc: Global) -> Result<String, AllocError>
    ensures { IfOk result (λ text. text.bytes.items ≡ part_text) }
{
    String::from_str(
        alloc,
        "error: the following arguments are given together or not at all:\n  --page <BYTES>\n  \
         --pages <COUNT>\n  --extents <COUNT>\n\nFor more information, try '--help'.\n",
    )
}

fn image_args<'a>(alloc: Global, matches: &ArgMatches<'a>) -> Result<ImageArgs<'a>, ArgsFault>
    requires { HasImage (rows_of (found_of matches.now)) }
    ensures { MatchResult result
        (AreImageArgs (rows_of (found_of matches.now)))
        (IsPartFault (rows_of (found_of matches.now))) }
{
    Ok(ImageArgs {
        sizes: given_sizes(alloc, matches)?,
        map: matches.get_str(command::MAP),
        name: text(matches, command::IMAGE),
        bad_pages: given_texts(alloc, matches, command::BAD_PAGES)?,
    })
}

fn sizes_args<'a>(matches: &ArgMatches<'a>) -> SizesArgs<'a>
    requires { HasImageName (rows_of (found_of matches.now)) }
    ensures { AreSizesArgs (rows_of (found_of matches.now)) result }
{
    SizesArgs {
        map: matches.get_str(command::MAP),
        name: text(matches, command::IMAGE),
    }
}

/// The text that was given for a required option or argument.
fn text<'a>(matches: &ArgMatches<'a>, name: &str) -> &'a str
    requires { HasText (rows_of (found_of matches.now)) name.now }
    ensures { first_of name.now (rows_of (found_of matches.now)) ≡ Some result.now }
{
    match matches.get_str(name) {
        Some(text) => text,
        None => unreachable!(),
    }
}

/// The number that was given for a required option.
fn number(matches: &ArgMatches<'_>, name: &str) -> u32
    requires { HasNumber (rows_of (found_of matches.now)) name.now }
    ensures { IsNumberOf (rows_of (found_of matches.now)) name.now result }
{
    match matches.get_one::<u32>(name) {
        Some(number) => number,
        None => unreachable!(),
    }
}
