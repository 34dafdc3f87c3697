//! The command line as `clap` gets it: commands and options. For the texts of the help see `help_texts`, and
//! for what the arguments ask for `args`.
ghost use Rattle.std.specs.Prelude.{◌≡◌, ◌∷◌, IfOk, [], false};
ghost use Rattle.clap.specs.Words.{app_of, rule_of, shape_of};
ghost use Rattle.scrub_args.specs.CommandLine.{accept_rule, arg, bad_pages_rule, bare_app, compare_shape};
ghost use Rattle.scrub_args.specs.CommandLine.{demo_shape, free_shape, free_size_rules};
ghost use Rattle.scrub_args.specs.CommandLine.{image_rule, image_rules, image_shape, images_rules, required};
ghost use Rattle.scrub_args.specs.CommandLine.{items_shape, last_rule, map_rule, manifest_shape, option};
ghost use Rattle.scrub_args.specs.CommandLine.{partial_rule, reclaimable_shape, reset_rule, run_rule};
ghost use Rattle.scrub_args.specs.CommandLine.{shard_shape, shards_shape, shardscrub_app};
ghost use Rattle.scrub_args.specs.CommandLine.{size_rules, sizes_shape, summary_shape, superblocks_shape};
ghost use Rattle.scrub_args.specs.CommandLine.{with_rules};
ghost use Rattle.scrub_args.specs.CommandLine.{id_rule, workers_rule};

use crate::help_texts::{
    ABOUT, ACCEPT_HELP, AFTER_HELP, AFTER_IMAGE_HELP, BAD_PAGES_HELP, BEFORE_HELP, COMPARE_ABOUT,
    COMPARE_AFTER_HELP, DEMO_ABOUT, DEMO_AFTER_HELP, EXTENT_HELP, EXTENTS_HELP, FREE_PAGE_HELP,
    ID_HELP, IMAGE_HELP, INDEX_ABOUT, INDEX_AFTER_HELP, ITEMS_ABOUT, ITEMS_AFTER_HELP, LAST_HELP,
    LOCATORS_ABOUT, LOCATORS_AFTER_HELP, MANIFEST_ABOUT, MANIFEST_AFTER_HELP, MAP_HELP, PAGE_HELP,
    PAGES_HELP, PARTIAL_HELP, POINTER_HELP, RECLAIMABLE_ABOUT, RECLAIMABLE_AFTER_HELP, RESET_HELP,
    RUN_HELP, RUNS_ABOUT, RUNS_AFTER_HELP, SCAN_ABOUT, SCAN_AFTER_HELP, SHARD_ABOUT,
    SHARD_AFTER_HELP, SHARDS_ABOUT, SHARDS_AFTER_HELP, SIZES_ABOUT, SIZES_AFTER_HELP,
    SUMMARY_ABOUT, SUMMARY_AFTER_HELP, SUPERBLOCKS_ABOUT, SUPERBLOCKS_AFTER_HELP, WORKERS_HELP,
};
use clap::{Arg, ArgAction, Command, value_parser};
use std::alloc::{AllocError, Global};

const PROGRAM: &str = "shardscrub";

/// The program's name and version, as a line.
pub const VERSION: &str = "shardscrub 4.1.3\n";

/// The command that prints the report of a disk.
pub const SCAN: &str = "scan";

/// The command that writes the bytes of one shard.
pub const SHARD: &str = "shard";

/// The command that writes all shards as a tar archive.
pub const SHARDS: &str = "shards";

/// The command that prints the index that can be recovered from a disk.
pub const INDEX: &str = "index";

/// The command that lists the named locators of a disk.
pub const LOCATORS: &str = "locators";

/// The command that lists what a disk holds, wherever it lies.
pub const MANIFEST: &str = "manifest";

/// The command that lists the index runs that are found on a disk.
pub const RUNS: &str = "runs";

/// The command that sums a disk up.
pub const SUMMARY: &str = "summary";

/// The command that lists what may be reclaimed on a disk.
pub const RECLAIMABLE: &str = "reclaimable";

/// The command that compares two images of a disk.
pub const COMPARE: &str = "compare";

/// The command that lists the superblock records of extent 0.
pub const SUPERBLOCKS: &str = "superblocks";

/// The command that finds the sizes of a disk.
pub const SIZES: &str = "sizes";

/// The command that lists the items of one extent of an image file.
pub const ITEMS: &str = "items";

/// The command that prints the report of the built-in disk.
pub const DEMO: &str = "demo";

/// Bytes of a page.
pub const PAGE: &str = "page";

/// Pages of an extent.
pub const PAGES: &str = "pages";

/// Extents of the disk.
pub const EXTENTS: &str = "extents";

/// How many workers scan the disk beside the caller.
pub const WORKERS: &str = "workers";

/// The line of a doubt to accept.
pub const ACCEPT: &str = "accept";

/// The generation of the last superblock that was written.
pub const LAST: &str = "last";

/// An extent to be taken as reset.
pub const RESET: &str = "reset";

/// The place of an index run to go by in place of a superblock.
pub const RUN: &str = "run";

/// Whether the payloads that are there of a broken shard are written, too.
pub const PARTIAL: &str = "partial";

/// The identifier of a shard.
pub const ID: &str = "id";

/// The extent whose items are listed.
pub const EXTENT: &str = "extent";

/// That extent's write pointer.
pub const POINTER: &str = "pointer";

/// The name of the map of the rescue that made the image.
pub const MAP: &str = "map";

/// The name of the image file.
pub const IMAGE: &str = "image";

/// The name of the later one of two image files.
pub const AFTER: &str = "after";

/// The pages to treat as unreadable.
pub const BAD_PAGES: &str = "bad-pages";

/// The whole command line, for arguments without the program's name.
pub fn command_line<'a>(alloc: Global) -> Result<Command<'a>, AllocError>
    ensures { IfOk result (λ r. app_of r ≡ shardscrub_app) }
{
    bare_program(alloc)?
        .subcommand(summary_command(alloc)?)?
        .subcommand(command_without_sizes(alloc, SCAN, SCAN_ABOUT, SCAN_AFTER_HELP)?)?
        .subcommand(shard_command(alloc)?)?
        .subcommand(shards_command(alloc)?)?
        .subcommand(disk_command(alloc, INDEX, INDEX_ABOUT, INDEX_AFTER_HELP)?)?
        .subcommand(command_without_sizes(alloc, LOCATORS, LOCATORS_ABOUT, LOCATORS_AFTER_HELP)?)?
        .subcommand(manifest_command(alloc)?)?
        .subcommand(disk_command(alloc, RUNS, RUNS_ABOUT, RUNS_AFTER_HELP)?)?
        .subcommand(reclaimable_command(alloc)?)?
        .subcommand(compare_command(alloc)?)?
        .subcommand(superblocks_command(alloc)?)?
        .subcommand(sizes_command(alloc)?)?
        .subcommand(items_command(alloc)?)?
        .subcommand(demo_command(alloc))
}

/// The program without its commands.
fn bare_program<'a>(alloc: Global) -> Result<Command<'a>, AllocError>
    ensures { IfOk result (λ r. app_of r ≡ bare_app) }
{
    let command = Command::new(alloc, PROGRAM)
        .no_binary_name(true)
        .version(VERSION)
        .bin_name(PROGRAM)?;
    Ok(command.about(ABOUT).after_help(AFTER_HELP))
}

/// A command on the whole disk whose only option of its own is the number of workers.
fn disk_command<'a>(
    alloc: Global,
    name: &'a str,
    about: &'a str,
    after_help: &'a str,
) -> Result<Command<'a>, AllocError>
    ensures { IfOk result (λ r. shape_of r ≡ image_shape name.entry.now (workers_rule ∷ [])) }
{
    let command = Command::new(alloc, name)
        .about(about)
        .after_help(after_help);
    let command = with_geometry(alloc, command)?.arg(workers(alloc))?;
    with_image(alloc, command)
}

/// A command like those of `disk_command` whose sizes may be left out, since only a person reads what it
/// prints.
fn command_without_sizes<'a>(
    alloc: Global,
    name: &'a str,
    about: &'a str,
    after_help: &'a str,
) -> Result<Command<'a>, AllocError>
    ensures { IfOk result (λ r. shape_of r ≡ free_shape name.entry.now (workers_rule ∷ [])) }
{
    let command = Command::new(alloc, name)
        .about(about)
        .after_help(after_help);
    let command = with_free_geometry(alloc, command)?.arg(workers(alloc))?;
    with_image(alloc, command)
}

fn manifest_command<'a>(alloc: Global) -> Result<Command<'a>, AllocError>
    ensures { IfOk result (λ r. shape_of r ≡ manifest_shape) }
{
    let command = Command::new(alloc, MANIFEST)
        .about(MANIFEST_ABOUT)
        .after_help(MANIFEST_AFTER_HELP);
    let command = with_geometry(alloc, command)?.arg(workers(alloc))?;
    let command = with_resets_and_runs(alloc, command)?;
    with_image(alloc, command)
}

/// Adds the options for what a manifest goes by: extents to be taken as reset, and index runs.
fn with_resets_and_runs<'a>(alloc: Global, command: Command<'a>) -> Result<Command<'a>, AllocError>
    ensures { IfOk result (λ r. app_of r ≡ with_rules (app_of command.entry)
        (reset_rule ∷ run_rule ∷ [])) }
{
    command.arg(reset(alloc))?.arg(run(alloc))
}

/// The option for an extent to be taken as reset. It may be repeated.
fn reset<'a>(alloc: Global) -> Arg<'a>
    ensures rule { rule_of result ≡ reset_rule }
    ensures local { result.global ≡ false }
{
    number(alloc, RESET, "EXTENT", RESET_HELP).action(ArgAction::Append)
}

/// The option for the place of an index run to go by in place of a superblock. It may be repeated.
fn run<'a>(alloc: Global) -> Arg<'a>
    ensures rule { rule_of result ≡ run_rule }
    ensures local { result.global ≡ false }
{
    Arg::new(alloc, RUN)
        .long(RUN)
        .value_name("EXTENT:OFFSET")
        .help(RUN_HELP)
        .action(ArgAction::Append)
}

fn shard_command<'a>(alloc: Global) -> Result<Command<'a>, AllocError>
    ensures { IfOk result (λ r. shape_of r ≡ shard_shape) }
{
    let command = Command::new(alloc, SHARD)
        .about(SHARD_ABOUT)
        .after_help(SHARD_AFTER_HELP);
    let command = with_free_geometry(alloc, command)?.arg(workers(alloc))?;
    let command = with_id_and_runs(alloc, command)?;
    with_image(alloc, command)
}

/// Adds the options for the identifier of a shard, and for index runs.
fn with_id_and_runs<'a>(alloc: Global, command: Command<'a>) -> Result<Command<'a>, AllocError>
    ensures { IfOk result (λ r. app_of r ≡ with_rules (app_of command.entry) (id_rule ∷ run_rule ∷ [])) }
{
    command.arg(id(alloc))?.arg(run(alloc))
}

/// The option for the identifier of a shard.
fn id<'a>(alloc: Global) -> Arg<'a>
    ensures rule { rule_of result ≡ id_rule }
    ensures local { result.global ≡ false }
{
    Arg::new(alloc, ID)
        .long(ID)
        .value_name("ID")
        .help(ID_HELP)
        .required(true)
}

fn shards_command<'a>(alloc: Global) -> Result<Command<'a>, AllocError>
    ensures { IfOk result (λ r. shape_of r ≡ shards_shape) }
{
    let command = Command::new(alloc, SHARDS)
        .about(SHARDS_ABOUT)
        .after_help(SHARDS_AFTER_HELP);
    let command = with_free_geometry(alloc, command)?.arg(workers(alloc))?;
    let command = with_parts_and_runs(alloc, command)?;
    with_image(alloc, command)
}

/// Adds the flag for the payloads of broken shards, and the option for index runs.
fn with_parts_and_runs<'a>(alloc: Global, command: Command<'a>) -> Result<Command<'a>, AllocError>
    ensures { IfOk result (λ r. app_of r ≡ with_rules (app_of command.entry)
        (partial_rule ∷ run_rule ∷ [])) }
{
    command.arg(partial(alloc))?.arg(run(alloc))
}

/// The flag for the payloads that are there of a broken shard.
fn partial<'a>(alloc: Global) -> Arg<'a>
    ensures rule { rule_of result ≡ partial_rule }
    ensures local { result.global ≡ false }
{
    Arg::new(alloc, PARTIAL)
        .long(PARTIAL)
        .help(PARTIAL_HELP)
        .action(ArgAction::SetTrue)
}

fn summary_command<'a>(alloc: Global) -> Result<Command<'a>, AllocError>
    ensures { IfOk result (λ r. shape_of r ≡ summary_shape) }
{
    let command = Command::new(alloc, SUMMARY)
        .about(SUMMARY_ABOUT)
        .after_help(SUMMARY_AFTER_HELP);
    let command = with_free_geometry(alloc, command)?
        .arg(workers(alloc))?
        .arg(last(alloc))?;
    with_image(alloc, command)
}

/// The option for the generation of the last superblock that was written.
fn last<'a>(alloc: Global) -> Arg<'a>
    ensures rule { rule_of result ≡ last_rule }
    ensures local { result.global ≡ false }
{
    Arg::new(alloc, LAST)
        .long(LAST)
        .value_name("G")
        .help(LAST_HELP)
        .value_parser(value_parser!(u64))
}

fn reclaimable_command<'a>(alloc: Global) -> Result<Command<'a>, AllocError>
    ensures { IfOk result (λ r. shape_of r ≡ reclaimable_shape) }
{
    let command = Command::new(alloc, RECLAIMABLE)
        .about(RECLAIMABLE_ABOUT)
        .after_help(RECLAIMABLE_AFTER_HELP);
    let command = with_geometry(alloc, command)?.arg(workers(alloc))?;
    let command = with_acceptance(alloc, command)?;
    with_image(alloc, command)
}

/// Adds the options for what a person accepts: the lines of doubts, and the generation of the last
/// superblock.
fn with_acceptance<'a>(alloc: Global, command: Command<'a>) -> Result<Command<'a>, AllocError>
    ensures { IfOk result (λ r. app_of r ≡ with_rules (app_of command.entry)
        (accept_rule ∷ last_rule ∷ [])) }
{
    command.arg(accept(alloc))?.arg(last(alloc))
}

/// The option for the line of a doubt to accept. It may be repeated.
fn accept<'a>(alloc: Global) -> Arg<'a>
    ensures rule { rule_of result ≡ accept_rule }
    ensures local { result.global ≡ false }
{
    Arg::new(alloc, ACCEPT)
        .long(ACCEPT)
        .value_name("LINE")
        .help(ACCEPT_HELP)
        .action(ArgAction::Append)
}

/// The command `compare`, on two images of a disk.
fn compare_command<'a>(alloc: Global) -> Result<Command<'a>, AllocError>
    ensures { IfOk result (λ r. shape_of r ≡ compare_shape) }
{
    let command = Command::new(alloc, COMPARE)
        .about(COMPARE_ABOUT)
        .after_help(COMPARE_AFTER_HELP);
    let command = with_geometry(alloc, command)?
        .arg(workers(alloc))?
        .arg(reset(alloc))?;
    with_images(alloc, command)
}

fn superblocks_command<'a>(alloc: Global) -> Result<Command<'a>, AllocError>
    ensures { IfOk result (λ r. shape_of r ≡ superblocks_shape) }
{
    let command = Command::new(alloc, SUPERBLOCKS)
        .about(SUPERBLOCKS_ABOUT)
        .after_help(SUPERBLOCKS_AFTER_HELP);
    let command = with_free_geometry(alloc, command)?;
    with_image(alloc, command)
}

/// The command `sizes`, on an image whose sizes aren't known.
fn sizes_command<'a>(alloc: Global) -> Result<Command<'a>, AllocError>
    ensures { IfOk result (λ r. shape_of r ≡ sizes_shape) }
{
    Command::new(alloc, SIZES)
        .about(SIZES_ABOUT)
        .after_help(SIZES_AFTER_HELP)
        .arg(map(alloc))?
        .arg(image(alloc))
}

/// The option for the number of workers.
fn workers<'a>(alloc: Global) -> Arg<'a>
    ensures rule { rule_of result ≡ workers_rule }
    ensures local { result.global ≡ false }
{
    Arg::new(alloc, WORKERS)
        .long(WORKERS)
        .value_name("COUNT")
        .help(WORKERS_HELP)
        .value_parser(value_parser!(u32).range(0..=64))
}

/// The command `items`, on one extent.
fn items_command<'a>(alloc: Global) -> Result<Command<'a>, AllocError>
    ensures { IfOk result (λ r. shape_of r ≡ items_shape) }
{
    let command = Command::new(alloc, ITEMS)
        .about(ITEMS_ABOUT)
        .after_help(ITEMS_AFTER_HELP);
    let extent = number(alloc, EXTENT, "NUMBER", EXTENT_HELP).required(true);
    let pointer = number(alloc, POINTER, "BYTES", POINTER_HELP);
    let command = with_free_geometry(alloc, command)?
        .arg(extent)?
        .arg(pointer)?;
    with_image(alloc, command)
}

/// The command `demo`, which has no arguments.
fn demo_command<'a>(alloc: Global) -> Command<'a>
    ensures { shape_of result ≡ demo_shape }
{
    Command::new(alloc, DEMO)
        .about(DEMO_ABOUT)
        .after_help(DEMO_AFTER_HELP)
}

/// Adds the options for the sizes of the disk.
fn with_geometry<'a>(alloc: Global, command: Command<'a>) -> Result<Command<'a>, AllocError>
    ensures { IfOk result (λ r. app_of r ≡ with_rules (app_of command.entry) size_rules) }
{
    command
        .arg(number(alloc, PAGE, "BYTES", PAGE_HELP).required(true))?
        .arg(number(alloc, PAGES, "COUNT", PAGES_HELP).required(true))?
        .arg(number(alloc, EXTENTS, "COUNT", EXTENTS_HELP).required(true))
}

/// Adds the options for the sizes of the disk, which may be left out.
fn with_free_geometry<'a>(alloc: Global, command: Command<'a>) -> Result<Command<'a>, AllocError>
    ensures { IfOk result (λ r. app_of r ≡ with_rules (app_of command.entry) free_size_rules) }
{
    command
        .arg(number(alloc, PAGE, "BYTES", FREE_PAGE_HELP))?
        .arg(number(alloc, PAGES, "COUNT", PAGES_HELP))?
        .arg(number(alloc, EXTENTS, "COUNT", EXTENTS_HELP))
}

/// Adds the map, the image and its unreadable pages. They come after the command's own options.
fn with_image<'a>(alloc: Global, command: Command<'a>) -> Result<Command<'a>, AllocError>
    ensures { IfOk result (λ r. app_of r ≡ with_rules (app_of command.entry) image_rules) }
{
    command
        .arg(map(alloc))?
        .arg(image(alloc))?
        .arg(bad_pages(alloc))
}

/// Adds the map, both images and their unreadable pages. They come after the command's own options.
fn with_images<'a>(alloc: Global, command: Command<'a>) -> Result<Command<'a>, AllocError>
    ensures { IfOk result (λ r. app_of r ≡ with_rules (app_of command.entry) images_rules) }
{
    command
        .arg(map(alloc))?
        .arg(named_image(alloc, IMAGE, "BEFORE", BEFORE_HELP))?
        .arg(named_image(alloc, AFTER, "AFTER", AFTER_IMAGE_HELP))?
        .arg(bad_pages(alloc))
}

/// The option for the map of the rescue that made the image.
fn map<'a>(alloc: Global) -> Arg<'a>
    ensures rule { rule_of result ≡ map_rule }
    ensures local { result.global ≡ false }
{
    Arg::new(alloc, MAP)
        .long(MAP)
        .value_name("FILE")
        .help(MAP_HELP)
}

/// The argument for the image.
fn image<'a>(alloc: Global) -> Arg<'a>
    ensures rule { rule_of result ≡ image_rule }
    ensures local { result.global ≡ false }
{
    named_image(alloc, IMAGE, "IMAGE", IMAGE_HELP)
}

/// An argument for an image, which has to be given.
fn named_image<'a>(alloc: Global, name: &'a str, value: &'a str, help: &'a str) -> Arg<'a>
    ensures rule { rule_of result ≡ required (arg name.entry.now) }
    ensures local { result.global ≡ false }
{
    Arg::new(alloc, name)
        .value_name(value)
        .help(help)
        .required(true)
}

/// The arguments for unreadable pages, any number of them.
fn bad_pages<'a>(alloc: Global) -> Arg<'a>
    ensures rule { rule_of result ≡ bad_pages_rule }
    ensures local { result.global ≡ false }
{
    Arg::new(alloc, BAD_PAGES)
        .value_name("EXTENT:PAGE")
        .help(BAD_PAGES_HELP)
        .action(ArgAction::Append)
}

/// An option of the form `--NAME N`, where N is a whole number of 32 bits.
fn number<'a>(alloc: Global, name: &'a str, unit: &'a str, help: &'a str) -> Arg<'a>
    ensures rule { rule_of result ≡ option name.entry.now }
    ensures local { result.global ≡ false }
{
    Arg::new(alloc, name)
        .long(name)
        .value_name(unit)
        .help(help)
        .value_parser(value_parser!(u32))
}
