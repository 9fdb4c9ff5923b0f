ghost use Rattle.std.specs.Prelude.{◌≡◌, IfSome, Some};
ghost use Rattle.vk_candidates.specs.declared.edits.Edit.TheVariants as edit;
ghost use Rattle.vk_candidates.specs.Edits as spec;
ghost use Rattle.vk_candidates.specs.Edits.{after_insertion, entry_number, in_entry, place_after, moved_in_batch};

use crate::edits::{Change, Edit, InBatch, Member};
use vk_model::At;

/// Where a point of a trace is after edits; none where it is taken out, or where its number would be
/// too large.
pub fn moved(edits: &[Edit], at: At) -> Option<At>
    ensures { IfSome result (λ after. spec.moved edits.now at ≡ Some after) }
{
    match edits.split_first() {
        None => Some(at),
        Some((first, rest)) => {
            let at = moved(rest, at)?;
            moved_once(first, at)
        }
    }
}

/// Where a point is after one edit.
fn moved_once(edit: &Edit, at: At) -> Option<At>
    ensures { IfSome result (λ after. spec.moved_once edit.now at ≡ Some after) }
{
    match edit {
        Edit::Entry {
            change: Change::Insert,
            number,
            ..
        } => {
            let number = after_insertion(*number, entry_number(at))?;
            Some(in_entry(number, at))
        }
        Edit::Remove { number } => after_removal(*number, at),
        Edit::Member {
            change: Change::Insert,
            at: place,
            member,
        } => moved_in_batch(*place, member, at),
        _ => Some(at),
    }
}

fn after_insertion(place: usize, number: usize) -> Option<usize>
    ensures { IfSome result (λ after. after ≡ after_insertion place number) }
{
    if place <= number {
        number.checked_add(1)
    } else {
        Some(number)
    }
}

fn after_removal(place: usize, at: At) -> Option<At>
    ensures { result ≡ spec.moved_once (edit.Remove place) at }
{
    let number = entry_number(at);
    if number == place {
        None
    } else if place < number {
        Some(in_entry(number - 1, at))
    } else {
        Some(in_entry(number, at))
    }
}

fn entry_number(at: At) -> usize
    ensures { result ≡ entry_number at }
{
    match at {
        At::Entry(entry)
        | At::Command(entry, _, _)
        | At::Wait(entry, _, _)
        | At::Signal(entry, _, _) => entry,
    }
}

fn in_entry(entry: usize, at: At) -> At
    ensures { result ≡ in_entry entry at }
{
    match at {
        At::Entry(_) => At::Entry(entry),
        At::Command(_, batch, place) => At::Command(entry, batch, place),
        At::Wait(_, batch, place) => At::Wait(entry, batch, place),
        At::Signal(_, batch, place) => At::Signal(entry, batch, place),
    }
}

fn place_after(at: InBatch, entry: usize, batch: usize, place: usize) -> Option<usize>
    ensures { IfSome result (λ after. after ≡ place_after at entry batch place) }
{
    if at.entry == entry && at.batch == batch {
        after_insertion(at.place, place)
    } else {
        Some(place)
    }
}

fn moved_in_batch(place: InBatch, member: &Member, at: At) -> Option<At>
    ensures { IfSome result (λ after. after ≡ moved_in_batch place member.now at) }
{
    match (member, at) {
        (Member::Command(_), At::Command(entry, batch, k)) => {
            Some(At::Command(entry, batch, place_after(place, entry, batch, k)?))
        }
        (Member::Wait(_), At::Wait(entry, batch, k)) => {
            Some(At::Wait(entry, batch, place_after(place, entry, batch, k)?))
        }
        (Member::Signal(_), At::Signal(entry, batch, k)) => {
            Some(At::Signal(entry, batch, place_after(place, entry, batch, k)?))
        }
        _ => Some(at),
    }
}
