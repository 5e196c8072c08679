//! Readings of which a part, between two ends of parts at top level, is read anew.

ghost use Rattle.std.specs.Prelude.{◌≡◌, ◌<◌, ◌≤◌, ◌+◌, ◌-◌, ◌++◌, [], All, length, map, take, drop, slice_get, vec_capacity, IfOk, IfSome};
ghost use Rattle.std.specs.Prelude.{nat_le, ◌==◌, ◌&&◌, true, false, Some};
ghost use Rattle.std.specs.List.{prefix_len};
ghost use Rattle.std.specs.List.Sorted.{IsNonDecreasing, IsNonDecreasingBy};
ghost use Rattle.node_tree.specs.Numbers.{number_limit};
ghost use Rattle.selectors.specs.Moves.{cut, moved_place, CanPlace};
ghost use Rattle.sheet_reader.specs.Around.{IsBelow};
ghost use Rattle.sheet_reader.specs.Forms.{rule_seen};
ghost use Rattle.sheet_reader.specs.Moves.{IsWithin};
ghost use Rattle.sheet_reader.specs.Repairs.{IsShare, HasRoom, CanRepair, repaired, shared, IsRuleWithin, IsShutPlace, IsSeam};
ghost use Rattle.sheet_reader.specs.Repairs.{IsSecondSeam};
ghost use Rattle.sheet_reader.specs.Repairs.{moved_number, renumbered_rule, renumbered_media, CanRenumberRule, CanRenumberMedia};
ghost use Rattle.sheet_reader.specs.Repairs.{IsStretch, StandsAlone, IsInOrder, IsShareOf, IsNewPart};

use crate::lists::{MediaRules, Places, StyleRules};
use crate::moves::{Gap, move_places};
use crate::renumber::{Numbers, Shift, raised_media, raised_rules, renumber_media, renumber_rules};
use crate::sheet::{MediaRule, Sheet, StyleRule};
use css_tokens::Range;
use std::alloc::{AllocError, Global};

/// A share of a list: so many elements stand before it, and so many up to its end.
#[derive(Clone, Copy)]
pub struct Share {
    pub before: usize,
    pub to: usize,
}

/// A part of a sheet between two ends of parts at top level, which became another text and was read anew.
#[derive(Drop)]
pub struct NewPart {
    /// Where the part started and ended.
    pub start: usize,
    pub end: usize,
    /// How many bytes it has now.
    pub size: usize,
    /// Its share of the rules that the sheet had.
    pub rule_share: Share,
    /// Its share of the places that the sheet had.
    pub place_share: Share,
    /// Its share of the media rules that the sheet had.
    pub media_share: Share,
    /// Its rules, with their places in the sheet.
    pub rules: Vec<StyleRule>,
    /// Its places in the sheet.
    pub places: Vec<usize>,
    /// Its media rules, with their places in the sheet.
    pub media: Vec<MediaRule>,
    /// Memory for all the rules of the new reading, where that of the old one is not enough, and for those behind the part.
    pub rule_room: Vec<StyleRule>,
    pub rule_rest: Vec<StyleRule>,
    /// Memory for all its places, where that of the old ones is not enough, and for those behind the part.
    pub place_room: Vec<usize>,
    pub place_rest: Vec<usize>,
    /// Memory for all its media rules, where that of the old ones is not enough, and for those behind the part.
    pub media_room: Vec<MediaRule>,
    pub media_rest: Vec<MediaRule>,
}

/// Moves the elements of a list from a place on to another list. It begins with the last, so what stands before them costs nothing.
fn taken_behind<T>(list: &mut Vec<T>, to: usize, back: &mut Vec<T>)
    requires inside { to ≤ length list.old.items }
    requires back { (back.old.items ≡ []) × (length list.old.items - to ≤ vec_capacity back.old) }
    ensures front { list.new.items ≡ take to list.old.items }
    ensures back { back.new.items ≡ drop to list.old.items }
{
    while list.len() > to {
        back.push_reserved(list.take_last());
    }
    back.reverse();
}

/// Leaves the elements before a share of a list in it, and moves those behind the share to another list.
fn divided<T: Drop>(list: &mut Vec<T>, share: Share, back: &mut Vec<T>)
    requires share { IsShare (length list.old.items) share }
    requires back { (back.old.items ≡ []) × (length list.old.items - share.to ≤ vec_capacity back.old) }
    ensures front { list.new.items ≡ take share.before list.old.items }
    ensures back { back.new.items ≡ drop share.to list.old.items }
{
    taken_behind(list, share.to, back);
    list.truncate(share.before);
}

/// Two lists one behind the other, where the first has room for the second.
fn appended<T: Drop>(mut front: Vec<T>, mut back: Vec<T>) -> Vec<T>
    requires { length front.items + length back.items ≤ vec_capacity front }
    ensures items { result.items ≡ front.items ++ back.items }
    ensures room { vec_capacity front ≤ vec_capacity result }
{
    match front.append(&mut back) {
        Ok(()) => {}
        Err(_) => unreachable!(),
    }
    front
}

/// Three lists one behind the other, in the memory of the first where that has room for all, and else in other memory, which has: so
/// what stands in the first is mostly not moved.
fn joined<T: Drop>(front: Vec<T>, new: Vec<T>, back: Vec<T>, room: Vec<T>) -> Vec<T>
    requires empty { room.items ≡ [] }
    requires room { length front.items + length new.items + length back.items ≤ vec_capacity room }
    ensures { result.items ≡ front.items ++ (new.items ++ back.items) }
{
    if new.len() + back.len() <= front.capacity() - front.len() {
        return appended(appended(front, new), back);
    }
    appended(appended(appended(room, front), new), back)
}

/// The rules of a sheet with new ones in the place of a share of them, and those behind moved.
fn repaired_rules(
    mut old: StyleRules,
    share: Share,
    new: Vec<StyleRule>,
    room: Vec<StyleRule>,
    mut rest: Vec<StyleRule>,
    shift: Shift,
) -> StyleRules
    requires share { IsShare (length old) share }
    requires room { HasRoom (length old) (length new.items) (vec_capacity room) (vec_capacity rest) share }
    requires empty { (room.items ≡ []) × (rest.items ≡ []) }
    requires behind { All (CanRenumberRule (cut shift.gap.start shift.gap.end shift.gap.size) shift.share shift.count) (drop share.to old) }
    ensures { result
        ≡ shared (renumbered_rule (moved_place (cut shift.gap.start shift.gap.end shift.gap.size)) (moved_number shift.share shift.count))
        share (map rule_seen new.items) old }
{
    let mut digests = old.take_digests();
    digests.truncate(share.before);
    let mut front = old.into_vec();
    divided(&mut front, share, &mut rest);
    renumber_rules(&mut rest, shift);
    StyleRules::with_digests(joined(front, new, rest, room), digests)
}

/// The media rules of a sheet with new ones in the place of a share of them, and those behind moved.
fn repaired_media(
    old: MediaRules,
    share: Share,
    new: Vec<MediaRule>,
    room: Vec<MediaRule>,
    mut rest: Vec<MediaRule>,
    shift: Shift,
) -> MediaRules
    requires share { IsShare (length old) share }
    requires room { HasRoom (length old) (length new.items) (vec_capacity room) (vec_capacity rest) share }
    requires empty { (room.items ≡ []) × (rest.items ≡ []) }
    requires behind { All (CanRenumberMedia (cut shift.gap.start shift.gap.end shift.gap.size) shift.share shift.count)
        (drop share.to old) }
    ensures { result
        ≡ shared (renumbered_media (moved_place (cut shift.gap.start shift.gap.end shift.gap.size)) (moved_number shift.share shift.count))
        share new.items old }
{
    let mut front = old.into_vec();
    divided(&mut front, share, &mut rest);
    renumber_media(&mut rest, shift);
    MediaRules::new(joined(front, new, rest, room))
}

/// The places of a sheet with new ones in the place of a share of them, and those behind moved.
fn repaired_places(
    old: Places,
    share: Share,
    new: Vec<usize>,
    room: Vec<usize>,
    mut rest: Vec<usize>,
    gap: Gap,
) -> Places
    requires share { IsShare (length old) share }
    requires room { HasRoom (length old) (length new.items) (vec_capacity room) (vec_capacity rest) share }
    requires empty { (room.items ≡ []) × (rest.items ≡ []) }
    requires behind { All (CanPlace (cut gap.start gap.end gap.size)) (drop share.to old) }
    ensures { result ≡ shared (moved_place (cut gap.start gap.end gap.size)) share new.items old }
{
    let mut front = old.into_vec();
    divided(&mut front, share, &mut rest);
    move_places(&mut rest, gap);
    Places::new(joined(front, new, rest, room))
}

/// The reading with the part that was read anew. Takes no memory.
pub(crate) fn repair(old: Sheet, new: NewPart) -> Sheet
    requires { CanRepair old new }
    ensures { result ≡ repaired old new }
{
    let gap = Gap {
        start: 0,
        end: new.end,
        size: new.start + new.size,
    };
    let shift = Shift {
        gap,
        share: new.media_share,
        count: new.media.len(),
    };
    let Sheet {
        rules,
        places,
        media,
    } = old;
    Sheet {
        rules: repaired_rules(
            rules,
            new.rule_share,
            new.rules,
            new.rule_room,
            new.rule_rest,
            shift,
        ),
        places: repaired_places(
            places,
            new.place_share,
            new.places,
            new.place_room,
            new.place_rest,
            gap,
        ),
        media: repaired_media(
            media,
            new.media_share,
            new.media,
            new.media_room,
            new.media_rest,
            shift,
        ),
    }
}

/// The places, `start` bytes further back.
fn raised_places(
    alloc: Global,
    places: &[usize],
    start: usize,
    size: usize,
) -> Result<Vec<usize>, AllocError>
    requires within { All (λ place. place ≤ size) places.now }
    requires fits { start + size < number_limit }
    ensures { IfOk result (λ made. made.items ≡ map (λ place. start + place) places.now) }
{
    let mut made = Vec::new(alloc);
    for place in places {
        made.push(start + *place)?;
    }
    Ok(made)
}

/// Whether a `}` stands before a place.
fn is_shut(text: &[u8], place: usize) -> bool
    ensures some { result ≡ true → 0 < place }
    ensures shut { result ≡ true → slice_get text.now (place - 1) ≡ Some 125 }
    ensures other { result ≡ false → 0 < place → slice_get text.now (place - 1) ≡ Some 125 → ⊥ }
{
    if place == 0 {
        return false;
    }
    match text.get(place - 1) {
        Some(byte) => *byte == b'}',
        None => false,
    }
}

/// The place with this number, where a `}` stands before it.
fn seam_at(text: &[u8], places: &[usize], i: usize) -> Option<usize>
    ensures shut { IfSome result (IsShutPlace text.now places.now) }
    ensures own { IfSome result (λ place. slice_get places.now i ≡ Some place) }
{
    let place = places.get(i)?;
    if is_shut(text, *place) {
        Some(*place)
    } else {
        None
    }
}

/// The last of the places at or before one that has a `}` before it, or the beginning of the text.
fn seam_before(text: &[u8], places: &[usize], place: usize) -> usize
    ensures seam { IsSeam text.now places.now result }
    ensures before { result ≤ place }
{
    let ended = places.partition_point(|end| *end <= place);
    for passed in 0..ended {
        if let Some(seam) = seam_at(text, places, ended - 1 - passed) {
            if seam <= place {
                return seam;
            }
        }
    }
    0
}

/// The first of the places at or behind one that has a `}` before it, or the end of the text.
fn seam_behind(text: &[u8], places: &[usize], place: usize) -> usize
    requires { place ≤ length text.now }
    ensures seam { IsSecondSeam text.now places.now result }
    ensures behind { place ≤ result }
    ensures inside { result ≤ length text.now }
{
    let ended = places.partition_point(|end| *end < place);
    for i in ended..places.len() {
        if let Some(seam) = seam_at(text, places, i) {
            if place <= seam && seam <= text.len() {
                return seam;
            }
        }
    }
    text.len()
}

/// The stretch of a text around a range, from a `}` at top level up to and with another one: these places are the ends of the parts
/// there.
pub(crate) fn stretch_around(text: &[u8], places: &[usize], part: Range) -> Option<Range>
    ensures { IfSome result (IsStretch text.now places.now part) }
{
    if part.start > part.end || part.end > text.len() {
        return None;
    }
    let start = seam_before(text, places, part.start);
    let end = seam_behind(text, places, part.end);
    Some(Range { start, end })
}

/// Whether a stretch is all of a text with this length, so that nothing of its reading would be kept.
pub(crate) fn is_all(stretch: Range, len: usize) -> bool
    ensures { result ≡ (stretch.start == 0 && stretch.end == len) }
{
    stretch.start == 0 && stretch.end == len
}

/// Whether a text ends with the `}` of a part at top level, where these places are the ends of the parts there.
fn ends_shut(text: &[u8], places: &[usize]) -> bool
    ensures { result ≡ true → IsShutPlace text.now places.now (length text.now) }
{
    if places.is_empty() {
        return false;
    }
    match seam_at(text, places, places.len() - 1) {
        Some(seam) => seam == text.len(),
        None => false,
    }
}

/// Whether a text with these places may stand in another one, unless it is the last part before others.
pub(crate) fn stands_alone(text: &[u8], places: &[usize], last: bool) -> bool
    ensures { result ≡ true → StandsAlone text.now places.now last }
{
    last || ends_shut(text, places)
}

/// How many places do not stand behind one. They ascend, so the count is sought by halves.
fn places_up_to(places: &[usize], end: usize) -> usize
    requires { IsNonDecreasing places.now }
    ensures count { result ≡ prefix_len (λ place. nat_le place end) places.now }
{
    places.partition_point(|place| *place <= end)
}

/// How many bodies do not start behind a place. They stand one behind the other, so the count is sought by halves.
fn bodies_up_to(rules: &[StyleRule], end: usize) -> usize
    requires { IsNonDecreasingBy (λ (r : StyleRule). r.body.start) rules.now }
    ensures count { result ≡ prefix_len (λ r. nat_le r.body.start end) rules.now }
{
    rules.partition_point(|rule| rule.body.start <= end)
}

/// How many preludes of media rules do not end behind a place. They stand one behind the other, so the count is sought by halves.
fn preludes_up_to(rules: &[MediaRule], end: usize) -> usize
    requires { IsNonDecreasingBy (λ (m : MediaRule). m.prelude.end) rules.now }
    ensures count { result ≡ prefix_len (λ m. nat_le m.prelude.end end) rules.now }
{
    rules.partition_point(|rule| rule.prelude.end <= end)
}

/// The share of the places that a stretch has.
fn share_of_places(places: &[usize], stretch: Range) -> Share
    requires { IsNonDecreasing places.now }
    ensures share { IsShareOf places.now stretch result }
    ensures front { result.before ≤ length places.now }
    ensures inside { result.to ≤ length places.now }
{
    Share {
        before: places_up_to(places, stretch.start),
        to: places_up_to(places, stretch.end),
    }
}

/// The share of the style rules that a stretch has.
fn share_of_rules(rules: &[StyleRule], stretch: Range) -> Share
    requires { IsNonDecreasingBy (λ (r : StyleRule). r.body.start) rules.now }
    ensures share { IsShareOf (map (λ r. r.body.start) rules.now) stretch result }
    ensures front { result.before ≤ length rules.now }
    ensures inside { result.to ≤ length rules.now }
{
    Share {
        before: bodies_up_to(rules, stretch.start),
        to: bodies_up_to(rules, stretch.end),
    }
}

/// The share of the media rules that a stretch has.
fn share_of_media(rules: &[MediaRule], stretch: Range) -> Share
    requires { IsNonDecreasingBy (λ (m : MediaRule). m.prelude.end) rules.now }
    ensures share { IsShareOf (map (λ m. m.prelude.end) rules.now) stretch result }
    ensures front { result.before ≤ length rules.now }
    ensures inside { result.to ≤ length rules.now }
{
    Share {
        before: preludes_up_to(rules, stretch.start),
        to: preludes_up_to(rules, stretch.end),
    }
}

/// The places but the first.
fn but_first(places: &[usize]) -> &[usize]
    ensures { result.now ≡ drop 1 places.now }
{
    match places {
        [_, more @ ..] => more,
        [] => places,
    }
}

/// For how many elements memory is taken where there are so many: half as many again, so that later edits at the end find room.
fn with_reserve(count: usize) -> usize
    ensures { count ≤ result }
{
    count.saturating_add(count / 2)
}

/// A part that was read anew, to be put into a sheet; all memory that this wants is taken.
pub(crate) fn new_part(
    alloc: Global,
    old: &Sheet,
    stretch: Range,
    own: Sheet,
    size: usize,
) -> Result<NewPart, AllocError>
    requires sorted { IsInOrder old.now }
    requires rules { All (IsRuleWithin size) own.rules }
    requires places { All (λ place. place ≤ size) own.places }
    requires media { All (λ m. IsWithin size m.prelude) own.media }
    requires around { All (λ r. IsBelow (length own.media) r.media) own.rules }
    requires inside { All (λ m. IsBelow (length own.media) m.inside) own.media }
    requires fits { stretch.start + size < number_limit }
    requires order { stretch.start ≤ stretch.end }
    ensures { IfOk result (IsNewPart old.now stretch own size) }
{
    let rules = old.rules.as_slice();
    let places = old.places.as_slice();
    let media = old.media.as_slice();
    let rule_share = share_of_rules(rules, stretch);
    let place_share = share_of_places(places, stretch);
    let media_share = share_of_media(media, stretch);
    let own_media = own.media.as_slice();
    let numbers = Numbers {
        before: media_share.before,
        count: own_media.len(),
    };
    let new_media = raised_media(alloc, own_media, stretch.start, size, numbers)?;
    let new_places = raised_places(alloc, but_first(own.places.as_slice()), stretch.start, size)?;
    let new_rules = raised_rules(alloc, own.rules.into_vec(), stretch.start, size, numbers)?;
    Ok(NewPart {
        start: stretch.start,
        end: stretch.end,
        size,
        rule_share,
        place_share,
        media_share,
        rule_room: Vec::with_capacity(alloc, with_reserve(rules.len() + new_rules.len()))?,
        rule_rest: Vec::with_capacity(alloc, rules.len() - rule_share.to)?,
        place_room: Vec::with_capacity(alloc, with_reserve(places.len() + new_places.len()))?,
        place_rest: Vec::with_capacity(alloc, places.len() - place_share.to)?,
        media_room: Vec::with_capacity(alloc, with_reserve(media.len() + new_media.len()))?,
        media_rest: Vec::with_capacity(alloc, media.len() - media_share.to)?,
        rules: new_rules,
        places: new_places,
        media: new_media,
    })
}
