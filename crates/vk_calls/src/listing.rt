ghost use Rattle.std.specs.Prelude.{◌≡◌, ◌++◌, IfOk, OnOk, drop, option_map, string_bytes};
ghost use Rattle.std.specs.List.{flat_map};
ghost use Rattle.vk_calls.specs.Calls.{call_in, data_of, said};
ghost use Rattle.vk_calls.specs.CalledObject.{
  call_members,
  point_object,
  why_member,
  HaveCalls,
  IsListed,
};

use crate::calls::{Call, Calls};
use crate::names::first_named;
use crate::parts::parts_of_object;
use std::alloc::{AllocError, Global};
use vk_model::At;
use vk_words::{push_at, push_number};

/// An explanation as an object, with one member more, `calls`: an array with an object for each point
/// that it names and that has a call. The points of a repair aren't looked at: they are those of another
/// trace.
pub fn with_calls_member(alloc: Global, calls: &Calls, text: &[u8]) -> Result<Vec<u8>, AllocError>
    ensures { IfOk result (λ shown. IsListed (data_of calls.now) text.now shown.items) }
{
    let points = points_of(alloc, calls, text)?;
    let objects = objects_of(alloc, calls, points.as_slice())?;
    let (front, end) = text.split_at(text.len().saturating_sub(2));
    let mut shown = front.to_vec(alloc)?;
    shown.extend_from_slice(b",\"calls\":[")?;
    shown.extend_from_slice(without_first(objects.as_bytes()))?;
    shown.extend_from_slice(b"]")?;
    shown.extend_from_slice(end)?;
    Ok(shown)
}

/// The points that an object names and that have a call.
fn points_of(alloc: Global, calls: &Calls, text: &[u8]) -> Result<Vec<At>, AllocError>
    ensures { IfOk result (λ points. HaveCalls (data_of calls.now) points.items) }
{
    let parts = parts_of_object(text);
    let mut points = Vec::new(alloc);
    push_points(alloc, &mut points, calls, parts.said)?;
    push_points(alloc, &mut points, calls, parts.notes)?;
    Ok(points)
}

/// Adds the points that a text names and that have a call, where they aren't there.
fn push_points(
    alloc: Global,
    points: &mut Vec<At>,
    calls: &Calls,
    text: &[u8],
) -> Result<(), AllocError>
    requires { HaveCalls (data_of calls.now) points.old.items }
    ensures { OnOk result (HaveCalls (data_of calls.now) points.new.items) }
{
    let mut rest = text;
    while let Some(named) = first_named(alloc, rest)? {
        push_point(points, calls, named.at)?;
        rest = named.after;
    }
    Ok(())
}

/// Adds a point that has a call, where it isn't there.
fn push_point(points: &mut Vec<At>, calls: &Calls, at: At) -> Result<(), AllocError>
    requires { HaveCalls (data_of calls.now) points.old.items }
    ensures { OnOk result (HaveCalls (data_of calls.now) points.new.items) }
{
    if calls.call_of(at).is_none() || points.contains(&at) {
        return Ok(());
    }
    points.push(at)?;
    Ok(())
}

/// The objects of some points, each behind a comma.
fn objects_of(alloc: Global, calls: &Calls, points: &[At]) -> Result<String, AllocError>
    ensures { IfOk result (λ objects. string_bytes objects
        ≡ flat_map (point_object (data_of calls.now)) points.now) }
{
    let mut objects = String::new(alloc);
    for point in points {
        push_object(&mut objects, calls, *point)?;
    }
    Ok(objects)
}

/// Adds the object of a point, behind a comma.
fn push_object(out: &mut String, calls: &Calls, at: At) -> Result<(), AllocError>
    ensures { OnOk result (string_bytes out.new
        ≡ string_bytes out.old ++ point_object (data_of calls.now) at) }
{
    out.push_str(",{\"point\":\"")?;
    push_at(out, at)?;
    out.push_str("\"")?;
    push_members(out, &calls.call_of(at))?;
    out.push_str("}")
}

/// Adds the members of a call, where there is one.
fn push_members(out: &mut String, call: &Option<Call<'_>>) -> Result<(), AllocError>
    ensures { OnOk result (string_bytes out.new
        ≡ string_bytes out.old ++ call_members (option_map said call.now)) }
{
    let Some(Call { number, name, why }) = call else {
        return Ok(());
    };
    out.push_str(",\"call\":")?;
    push_number(out, *number as usize)?;
    out.push_str(",\"name\":\"")?;
    out.push_str(*name)?;
    out.push_str("\"")?;
    push_why_member(out, *why)
}

/// Adds the member with what a point stands for beyond its call.
fn push_why_member(out: &mut String, why: Option<&str>) -> Result<(), AllocError>
    ensures { OnOk result (string_bytes out.new
        ≡ string_bytes out.old ++ why_member (option_map (λ s. s.now) why.entry)) }
{
    match why {
        Some(why) => {
            out.push_str(",\"why\":\"")?;
            out.push_str(why)?;
            out.push_str("\"")
        }
        None => Ok(()),
    }
}

/// A text without its first byte.
fn without_first(text: &[u8]) -> &[u8]
    ensures { result.now ≡ drop 1 text.now }
{
    match text.split_first() {
        Some((_, rest)) => rest,
        None => text,
    }
}
