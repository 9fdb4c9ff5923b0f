ghost use Rattle.std.specs.Prelude.{◌≡◌, ◌++◌, OnOk, IfOk, Some, string_bytes, codes};
ghost use Rattle.vk_fact_words.specs.FactText as text;

use std::alloc::{AllocError, Global};
use vk_hazards::{CounterFact, DeadId, Fact, HazardFact, Life, ObjectKind, StrayId, at_of};
use vk_model::{At, Point};
use vk_order::Byte;
use vk_words::{kind_name, push_at, push_number};

/// Adds what is said of a fact.
pub fn push_fact(out: &mut String, fact: &Fact<'_>) -> Result<(), AllocError>
    ensures { OnOk result (string_bytes out.new ≡ string_bytes out.old ++ text.fact_text fact.now) }
{
    match fact {
        Fact::Hazard(hazard) => push_hazard(out, hazard),
        Fact::Made(life) => {
            push_named(out, "id ", life.id as usize)?;
            push_life(out, life, &None)?;
            Ok(())
        }
        Fact::Dead(dead) => {
            push_named(out, "id ", dead.life.id as usize)?;
            push_wanted(out, dead.wanted)?;
            push_life(out, &dead.life, &dead.made_ever)?;
            Ok(())
        }
        Fact::Stray(stray) => push_stray(out, stray),
        Fact::Signaled(counter) => push_counter(out, ", signaled value ", counter),
        Fact::Waited(counter) => push_counter(out, ", awaited value ", counter),
    }
}

fn push_stray(out: &mut String, stray: &StrayId<'_>) -> Result<(), AllocError>
    ensures { OnOk result (string_bytes out.new ≡ string_bytes out.old ++ text.stray_text stray.now) }
{
    push_named(out, "id ", stray.life.id as usize)?;
    push_outside(out, stray)?;
    push_life(out, &stray.life, &None)?;
    Ok(())
}

fn push_outside(out: &mut String, stray: &StrayId<'_>) -> Result<(), AllocError>
    ensures { OnOk result (string_bytes out.new ≡ string_bytes out.old ++ (text.named (codes " isn't in pool ") stray.now.pool ++ text.named (codes " of defragmentation ") stray.now.defrag)) }
{
    push_named(out, " isn't in pool ", stray.pool as usize)?;
    push_named(out, " of defragmentation ", stray.defrag as usize)?;
    Ok(())
}

fn push_wanted(out: &mut String, kind: ObjectKind) -> Result<(), AllocError>
    ensures { OnOk result (string_bytes out.new ≡ string_bytes out.old ++ text.wanted_text kind) }
{
    out.push_str(" as a ")?;
    out.push_str(object_name(kind))?;
    Ok(())
}

fn push_hazard(out: &mut String, hazard: &HazardFact<'_>) -> Result<(), AllocError>
    ensures { OnOk result (string_bytes out.new ≡ string_bytes out.old ++ text.hazard_text hazard.now) }
{
    push_after(out, "earlier access: ", &hazard.earlier.row.point)?;
    push_common(out, hazard.byte)?;
    push_ordered(out, hazard.is_ordered)?;
    Ok(())
}

fn push_common(out: &mut String, byte: Byte) -> Result<(), AllocError>
    ensures { OnOk result (string_bytes out.new ≡ string_bytes out.old ++ text.common_text byte) }
{
    out.push_str("; both access ")?;
    push_byte(out, byte)?;
    Ok(())
}

fn push_ordered(out: &mut String, is_ordered: bool) -> Result<(), AllocError>
    ensures { OnOk result (string_bytes out.new ≡ string_bytes out.old ++ text.ordered_text is_ordered) }
{
    out.push_str("; ordered: ")?;
    out.push_str(answer_name(is_ordered))?;
    Ok(())
}

/// Adds a byte.
pub fn push_byte(out: &mut String, byte: Byte) -> Result<(), AllocError>
    ensures { OnOk result (string_bytes out.new ≡ string_bytes out.old ++ text.byte_text byte) }
{
    match byte {
        Byte::Buffer { buffer, at } => {
            push_named(out, "byte ", at as usize)?;
            push_named(out, " of buffer ", buffer as usize)?;
            Ok(())
        }
        Byte::Texel {
            image,
            level,
            layer,
            x,
            y,
            texel_byte,
        } => {
            push_texel(out, texel_byte, x, y)?;
            push_layer(out, level, layer, image)?;
            Ok(())
        }
    }
}

fn push_texel(out: &mut String, texel_byte: u32, x: u32, y: u32) -> Result<(), AllocError>
    ensures { OnOk result (string_bytes out.new ≡ string_bytes out.old ++ text.texel_text texel_byte x y) }
{
    push_named(out, "byte ", texel_byte as usize)?;
    push_named(out, " at texel ", x as usize)?;
    push_named(out, ", ", y as usize)?;
    Ok(())
}

fn push_layer(out: &mut String, level: u32, layer: u32, image: u32) -> Result<(), AllocError>
    ensures { OnOk result (string_bytes out.new ≡ string_bytes out.old ++ text.layer_text level layer image) }
{
    push_named(out, " of level ", level as usize)?;
    push_named(out, ", layer ", layer as usize)?;
    push_named(out, " of image ", image as usize)?;
    Ok(())
}

fn push_named(out: &mut String, name: &str, number: usize) -> Result<(), AllocError>
    ensures { OnOk result (string_bytes out.new ≡ string_bytes out.old ++ text.named name.now number) }
{
    out.push_str(name)?;
    push_number(out, number)?;
    Ok(())
}

fn answer_name(answer: bool) -> &'static str
    ensures { result.now ≡ text.answer_text answer }
{
    if answer { "yes" } else { "no" }
}

/// What kind of object an id has to be of.
pub fn object_name(kind: ObjectKind) -> &'static str
    ensures { result.now ≡ text.object_text kind }
{
    match kind {
        ObjectKind::Buffer => "buffer",
        ObjectKind::Image => "image",
        ObjectKind::Resource => "buffer or image",
        ObjectKind::Pool => "pool",
        ObjectKind::Memory => "memory object",
        ObjectKind::Semaphore => "semaphore",
        ObjectKind::Event => "event",
        ObjectKind::Defrag => "defragmentation",
    }
}

fn push_life(out: &mut String, life: &Life<'_>, late: &Option<Point<'_>>) -> Result<(), AllocError>
    ensures { OnOk result (string_bytes out.new ≡ string_bytes out.old ++ text.life_text life.now late.now) }
{
    push_making(out, &life.made, late)?;
    push_ending(out, &life.ended)
}

fn push_making(
    out: &mut String,
    made: &Option<Point<'_>>,
    late: &Option<Point<'_>>,
) -> Result<(), AllocError>
    ensures { OnOk result (string_bytes out.new ≡ string_bytes out.old ++ text.making_text made.now late.now) }
{
    match made {
        None => push_late(out, late),
        Some(point) => push_after(out, ": made at ", point),
    }
}

fn push_late(out: &mut String, late: &Option<Point<'_>>) -> Result<(), AllocError>
    ensures { OnOk result (string_bytes out.new ≡ string_bytes out.old ++ text.late_text late.now) }
{
    match late {
        None => out.push_str(": not made so far"),
        Some(point) => push_made_late(out, point),
    }
}

fn push_made_late(out: &mut String, point: &Point<'_>) -> Result<(), AllocError>
    ensures { OnOk result (string_bytes out.new ≡ string_bytes out.old ++ text.late_text (Some point.now)) }
{
    out.push_str(": made at ")?;
    push_point(out, point)?;
    out.push_str(", after the submit")?;
    Ok(())
}

fn push_ending(out: &mut String, ended: &Option<Point<'_>>) -> Result<(), AllocError>
    ensures { OnOk result (string_bytes out.new ≡ string_bytes out.old ++ text.ending_text ended.now) }
{
    match ended {
        None => Ok(()),
        Some(point) => push_after(out, ", ended at ", point),
    }
}

fn push_last(out: &mut String, last: &Option<Point<'_>>) -> Result<(), AllocError>
    ensures { OnOk result (string_bytes out.new ≡ string_bytes out.old ++ text.last_text last.now) }
{
    match last {
        None => out.push_str("; no signal so far"),
        Some(point) => push_after(out, "; last signal: ", point),
    }
}

fn push_counter(out: &mut String, asked: &str, fact: &CounterFact<'_>) -> Result<(), AllocError>
    ensures { OnOk result (string_bytes out.new ≡ string_bytes out.old ++ text.counter_text asked.now fact.now) }
{
    push_counted(out, fact)?;
    push_named(out, asked, fact.asked.value as usize)?;
    push_last(out, &fact.last)?;
    Ok(())
}

fn push_counted(out: &mut String, fact: &CounterFact<'_>) -> Result<(), AllocError>
    ensures { OnOk result (string_bytes out.new ≡ string_bytes out.old ++ (text.named (codes "semaphore ") fact.now.asked.semaphore ++ text.named (codes ": value ") fact.now.counter)) }
{
    push_named(out, "semaphore ", fact.asked.semaphore as usize)?;
    push_named(out, ": value ", fact.counter as usize)?;
    Ok(())
}

/// Adds words, and how a point is called.
pub fn push_after(out: &mut String, words: &str, point: &Point<'_>) -> Result<(), AllocError>
    ensures { OnOk result (string_bytes out.new ≡ string_bytes out.old ++ (words.now ++ text.point_called point.now)) }
{
    out.push_str(words)?;
    push_point(out, point)?;
    Ok(())
}

/// Adds how a point is called.
fn push_point(out: &mut String, point: &Point<'_>) -> Result<(), AllocError>
    ensures { OnOk result (string_bytes out.new ≡ string_bytes out.old ++ text.point_called point.now) }
{
    push_called(out, at_of(point))
}

fn push_called(out: &mut String, at: At) -> Result<(), AllocError>
    ensures { OnOk result (string_bytes out.new ≡ string_bytes out.old ++ text.called at) }
{
    out.push_str(kind_name(at))?;
    push_at(out, at)
}

/// The line with a fact, where one is reported.
pub fn fact_line(alloc: Global, fact: &Option<Fact<'_>>) -> Result<String, AllocError>
    ensures { IfOk result (λ line. string_bytes line ≡ text.fact_line fact.now) }
{
    let mut line = String::new(alloc);
    if let Some(fact) = fact {
        line.push_str("  ")?;
        push_fact(&mut line, fact)?;
        line.push_str("\n")?;
    }
    Ok(line)
}

/// The member with a fact, where one is reported.
pub fn fact_member(alloc: Global, fact: &Option<Fact<'_>>) -> Result<String, AllocError>
    ensures { IfOk result (λ member. string_bytes member ≡ text.fact_member fact.now) }
{
    let mut member = String::new(alloc);
    if let Some(fact) = fact {
        member.push_str(",\"fact\":\"")?;
        push_fact(&mut member, fact)?;
        member.push_str("\"")?;
    }
    Ok(member)
}

/// The points that a fact names, in the order in which they are told.
pub fn points_named(alloc: Global, fact: &Option<Fact<'_>>) -> Result<Vec<At>, AllocError> {
    let mut points = Vec::new(alloc);
    match fact {
        Some(Fact::Hazard(hazard)) => points.push(at_of(&hazard.earlier.row.point))?,
        Some(Fact::Made(life)) => push_life_points(&mut points, life)?,
        Some(Fact::Dead(dead)) => push_dead_points(&mut points, dead)?,
        Some(Fact::Stray(stray)) => push_life_points(&mut points, &stray.life)?,
        Some(Fact::Signaled(counter) | Fact::Waited(counter)) => {
            if let Some(last) = &counter.last {
                points.push(at_of(last))?;
            }
        }
        None => {}
    }
    Ok(points)
}

fn push_dead_points(points: &mut Vec<At>, dead: &DeadId<'_>) -> Result<(), AllocError> {
    match (&dead.life.made, &dead.made_ever) {
        (None, Some(late)) => {
            points.push(at_of(late))?;
            Ok(())
        }
        _ => push_life_points(points, &dead.life),
    }
}

fn push_life_points(points: &mut Vec<At>, life: &Life<'_>) -> Result<(), AllocError> {
    if let Some(made) = &life.made {
        points.push(at_of(made))?;
    }
    if let Some(ended) = &life.ended {
        points.push(at_of(ended))?;
    }
    Ok(())
}
