//! What the arguments name, opened once: the map of the rescue and the image. The sizes that are left out are
//! found in them, and the pages are loaded from them.

ghost use Rattle.std.specs.Prelude.{◌≡◌, IfErr, IfOk, IfSome, MatchResult, None};
ghost use Rattle.scrub_cli.specs.KnownFiles.{IsKnownAs};
ghost use Rattle.scrub_cli.specs.Opened.{IsOpeningFault};
ghost use Rattle.scrub_cli.specs.Rescue.{IsMapNamed};

use crate::commands::rescue::rescue_map;
use crate::process::fault::Fault;
use crate::process::images::Images;
use scrub_args::ImageArgs;
use scrub_map::RescueMap;
use std::alloc::Global;

/// A map and an image.
#[derive(Drop)]
pub struct Opened<R> {
    /// The map, if one is named.
    pub map: Option<RescueMap>,
    /// The image.
    pub raw: R,
}

/// Opens the map and the image of these names. Faults, in this order: a map that can't be opened, its first
/// line that breaks the rules, and an image that can't be opened.
pub fn open<'a, I: Images>(
    alloc: Global,
    map: Option<&'a str>,
    name: &'a str,
    images: &mut I,
) -> Result<Opened<I::Image>, Fault<'a>>
    ensures map { MatchResult result
        (λ o. IsMapNamed (I.known_map images.old) map.entry o.map)
        (IsOpeningFault (I.known images.old name.entry.now) (I.known_map images.old) map.entry name.entry) }
    ensures raw { IfOk result (λ o.
        IsKnownAs I.Image.bytes I.Image.fails I.Image.most_failures I.Image.reads
        (I.known images.old name.entry.now) o.raw) }
    ensures unread { IfOk result (λ o. I.Image.reads o.raw ≡ 0) }
    ensures same_images { I.known images.new ≡ I.known images.old }
    ensures same_maps { I.known_map images.new ≡ I.known_map images.old }
{
    let map = rescue_map(alloc, map, images)?;
    let Some(raw) = images.image(name) else {
        return Err(Fault::NoImage(name));
    };
    Ok(Opened { map, raw })
}

/// What the arguments name, which is opened now if it wasn't before. The faults are those of `open`.
pub fn open_unless_opened<'a, I: Images>(
    alloc: Global,
    args: &ImageArgs<'a>,
    opened: Option<Opened<I::Image>>,
    images: &mut I,
) -> Result<Opened<I::Image>, Fault<'a>>
    requires map { IfSome opened (λ o. IsMapNamed (I.known_map images.old) args.now.map o.map) }
    requires raw { IfSome opened (λ o.
        IsKnownAs I.Image.bytes I.Image.fails I.Image.most_failures I.Image.reads
        (I.known images.old args.now.name.now) o.raw) }
    ensures map { MatchResult result
        (λ o. IsMapNamed (I.known_map images.old) args.now.map o.map)
        (IsOpeningFault (I.known images.old args.now.name.now) (I.known_map images.old) args.now.map
        args.now.name) }
    ensures raw { IfOk result (λ o.
        IsKnownAs I.Image.bytes I.Image.fails I.Image.most_failures I.Image.reads
        (I.known images.old args.now.name.now) o.raw) }
    ensures same_map { IfOk result (λ o. IfSome opened (λ p. o.map ≡ p.map)) }
    ensures not_again { IfErr result (λ _. opened ≡ None) }
    ensures same_images { I.known images.new ≡ I.known images.old }
    ensures same_maps { I.known_map images.new ≡ I.known_map images.old }
{
    match opened {
        Some(opened) => Ok(opened),
        None => open(alloc, args.map, args.name, images),
    }
}
