ghost use Rattle.std.specs.Prelude.{◌≡◌, ◌∷◌, [], ◌++◌, Some, OnOk, map, codes};
ghost use Rattle.vk_trace.specs.Members.{after_word, at_word};
ghost use Rattle.vk_trace.specs.Trace.{length_or_whole, copy_region, dependency_value, buffer_element, command_rows, command_value};
ghost use Rattle.vk_model.specs.declared.command.Length.TheVariants.{Whole};
ghost use Rattle.vk_model.specs.declared.command.Element.TheVariants.{Memory, Buffer, Image};
ghost use Rattle.vk_trace.specs.Inner.Gives.{Gives};
ghost use Rattle.vk_trace.specs.Inner.Ahead.{ahead, whole};

use crate::errors::ReadTraceError;
use crate::images::{clear_of, copy_image_of, copy_in_of, copy_out_of};
use crate::members::{Member, first, first_bytes, is_named, word_first};
use crate::tokens::{Reading, Tokens, whole_number};
use bitflags::Flags;
use json::Token;
use std::alloc::{AllocError, Global};
use vk_model::{
    Accesses, BufferCopy, BufferElement, Cmd, Dependency, Element, Families, ImageElement, Length,
    Sequence, Stages,
};

impl Member for Length {
    ghost means = { length_or_whole };

    fn member(_alloc: Global, tokens: &mut Tokens<'_>) -> Reading<Length> {
        let Some(token) = tokens.take() else {
            return Err(ReadTraceError::NotTrace);
        };
        match token {
            Token::String(word) => whole_of(word),
            Token::Number(text) => match whole_number(text) {
                Ok(bytes) => Ok(Length::Bytes(bytes)),
                Err(error) => Err(error),
            },
            _ => Err(ReadTraceError::NotTrace),
        }
    }
}

/// The length that a word names.
fn whole_of(word: &str) -> Reading<Length>
    ensures { Gives (λ x. x) result (at_word ((codes "whole", Whole) ∷ []) word.now) }
{
    match word {
        "whole" => Ok(Length::Whole),
        _ => Err(ReadTraceError::NotTrace),
    }
}

impl Member for Dependency {
    ghost means = { dependency_value };

    #[tactic(auto, unfolding(crate::specs::Trace::dependency_value))]
    fn member(alloc: Global, tokens: &mut Tokens<'_>) -> Reading<Dependency> {
        tokens.begin()?;
        let source_stages = first::<u32>(alloc, tokens)?;
        let source_accesses = first::<u32>(alloc, tokens)?;
        let destination_stages = first::<u32>(alloc, tokens)?;
        let destination_accesses = first::<u32>(alloc, tokens)?;
        tokens.end()?;
        Ok(Dependency {
            source_stages: Stages::from_bits_retain(source_stages),
            source_accesses: Accesses::from_bits_retain(source_accesses),
            destination_stages: Stages::from_bits_retain(destination_stages),
            destination_accesses: Accesses::from_bits_retain(destination_accesses),
        })
    }
}

impl Member for BufferCopy {
    ghost means = { copy_region };

    #[tactic(auto, unfolding(crate::specs::Trace::copy_region))]
    fn member(alloc: Global, tokens: &mut Tokens<'_>) -> Reading<BufferCopy> {
        tokens.begin()?;
        let source_offset = first::<u64>(alloc, tokens)?;
        let destination_offset = first::<u64>(alloc, tokens)?;
        let size = first::<u64>(alloc, tokens)?;
        tokens.end()?;
        Ok(BufferCopy {
            source_offset,
            destination_offset,
            size,
        })
    }
}

impl Member for BufferElement {
    ghost means = { buffer_element };

    #[tactic(auto, unfolding(crate::specs::Trace::buffer_element))]
    fn member(alloc: Global, tokens: &mut Tokens<'_>) -> Reading<BufferElement> {
        tokens.begin()?;
        let source_stages = first::<u32>(alloc, tokens)?;
        let source_accesses = first::<u32>(alloc, tokens)?;
        let destination_stages = first::<u32>(alloc, tokens)?;
        let destination_accesses = first::<u32>(alloc, tokens)?;
        let source = first::<u32>(alloc, tokens)?;
        let destination = first::<u32>(alloc, tokens)?;
        let buffer = first::<u32>(alloc, tokens)?;
        let offset = first::<u64>(alloc, tokens)?;
        let size = first::<Length>(alloc, tokens)?;
        tokens.end()?;
        Ok(BufferElement {
            dependency: Dependency {
                source_stages: Stages::from_bits_retain(source_stages),
                source_accesses: Accesses::from_bits_retain(source_accesses),
                destination_stages: Stages::from_bits_retain(destination_stages),
                destination_accesses: Accesses::from_bits_retain(destination_accesses),
            },
            families: Families {
                source,
                destination,
            },
            buffer,
            offset,
            size,
        })
    }
}

impl Member for Cmd {
    ghost means = { command_value };

    #[tactic(auto, unfolding(crate::specs::Trace::command_value, crate::specs::Trace::command_rows))]
    fn member(alloc: Global, tokens: &mut Tokens<'_>) -> Reading<Cmd> {
        match word_first(tokens)? {
            word if is_named(word, "fill") => fill_of(alloc, tokens),
            word if is_named(word, "update") => update_of(alloc, tokens),
            word if is_named(word, "copy") => copy_of(alloc, tokens),
            word if is_named(word, "clear") => clear_of(alloc, tokens),
            word if is_named(word, "copy_in") => copy_in_of(alloc, tokens),
            word if is_named(word, "copy_out") => copy_out_of(alloc, tokens),
            word if is_named(word, "copy_image") => copy_image_of(alloc, tokens),
            word if is_named(word, "barrier") => barrier_of(alloc, tokens),
            word if is_named(word, "set") => set_of(alloc, tokens),
            word if is_named(word, "await") => await_of(alloc, tokens),
            _ => Err(ReadTraceError::NotTrace),
        }
    }
}

#[tactic(auto, unfolding(crate::specs::Trace::command_rows))]
fn fill_of(alloc: Global, tokens: &mut Tokens<'_>) -> Reading<Cmd>
    ensures value { Gives (λ x. x) result (after_word command_rows (codes "fill") (ahead tokens.old)) }
    ensures rest { OnOk result (whole tokens.old ≡ Some tokens.new) }
{
    let buffer = first::<u32>(alloc, tokens)?;
    let offset = first::<u64>(alloc, tokens)?;
    let size = first::<Length>(alloc, tokens)?;
    let word = first::<u32>(alloc, tokens)?;
    tokens.end()?;
    Ok(Cmd::Fill {
        buffer,
        offset,
        size,
        word,
    })
}

#[tactic(auto, unfolding(crate::specs::Trace::command_rows))]
fn update_of(alloc: Global, tokens: &mut Tokens<'_>) -> Reading<Cmd>
    ensures value { Gives (λ x. x) result (after_word command_rows (codes "update") (ahead tokens.old)) }
    ensures rest { OnOk result (whole tokens.old ≡ Some tokens.new) }
{
    let buffer = first::<u32>(alloc, tokens)?;
    let offset = first::<u64>(alloc, tokens)?;
    let bytes = first_bytes(alloc, tokens)?;
    tokens.end()?;
    Ok(Cmd::Update {
        buffer,
        offset,
        bytes,
    })
}

#[tactic(auto, unfolding(crate::specs::Trace::command_rows))]
fn copy_of(alloc: Global, tokens: &mut Tokens<'_>) -> Reading<Cmd>
    ensures value { Gives (λ x. x) result (after_word command_rows (codes "copy") (ahead tokens.old)) }
    ensures rest { OnOk result (whole tokens.old ≡ Some tokens.new) }
{
    let source = first::<u32>(alloc, tokens)?;
    let destination = first::<u32>(alloc, tokens)?;
    let regions = first(alloc, tokens)?;
    tokens.end()?;
    Ok(Cmd::Copy {
        source,
        destination,
        regions,
    })
}

#[tactic(auto, unfolding(crate::specs::Trace::command_rows))]
fn barrier_of(alloc: Global, tokens: &mut Tokens<'_>) -> Reading<Cmd>
    ensures value { Gives (λ x. x) result (after_word command_rows (codes "barrier") (ahead tokens.old)) }
    ensures rest { OnOk result (whole tokens.old ≡ Some tokens.new) }
{
    let memory = first::<Sequence<Dependency>>(alloc, tokens)?;
    let buffers = first::<Sequence<BufferElement>>(alloc, tokens)?;
    let images = first::<Sequence<ImageElement>>(alloc, tokens)?;
    tokens.end()?;
    let count = memory.len().saturating_add(buffers.len());
    let mut elements = Vec::with_capacity(alloc, count.saturating_add(images.len()))?;
    push_memory(&mut elements, memory.as_slice())?;
    push_buffers(&mut elements, buffers.as_slice())?;
    push_images(&mut elements, images.as_slice())?;
    Ok(Cmd::Barrier {
        elements: Sequence::new(elements),
    })
}

/// Adds dependencies on all memory to the elements of a barrier.
fn push_memory(elements: &mut Vec<Element>, memory: &[Dependency]) -> Result<(), AllocError>
    ensures { OnOk result (elements.new.items ≡ elements.old.items ++ map Memory memory.now) }
{
    for dependency in memory {
        elements.push(Element::Memory(*dependency))?;
    }
    Ok(())
}

/// Adds dependencies on parts of buffers.
fn push_buffers(elements: &mut Vec<Element>, buffers: &[BufferElement]) -> Result<(), AllocError>
    ensures { OnOk result (elements.new.items ≡ elements.old.items ++ map Buffer buffers.now) }
{
    for on_buffer in buffers {
        elements.push(Element::Buffer(*on_buffer))?;
    }
    Ok(())
}

/// Adds dependencies on parts of images.
fn push_images(elements: &mut Vec<Element>, images: &[ImageElement]) -> Result<(), AllocError>
    ensures { OnOk result (elements.new.items ≡ elements.old.items ++ map Image images.now) }
{
    for on_image in images {
        elements.push(Element::Image(*on_image))?;
    }
    Ok(())
}

#[tactic(auto, unfolding(crate::specs::Trace::command_rows))]
fn set_of(alloc: Global, tokens: &mut Tokens<'_>) -> Reading<Cmd>
    ensures value { Gives (λ x. x) result (after_word command_rows (codes "set") (ahead tokens.old)) }
    ensures rest { OnOk result (whole tokens.old ≡ Some tokens.new) }
{
    let event = first::<u32>(alloc, tokens)?;
    let elements = first(alloc, tokens)?;
    tokens.end()?;
    Ok(Cmd::Set { event, elements })
}

#[tactic(auto, unfolding(crate::specs::Trace::command_rows))]
fn await_of(alloc: Global, tokens: &mut Tokens<'_>) -> Reading<Cmd>
    ensures value { Gives (λ x. x) result (after_word command_rows (codes "await") (ahead tokens.old)) }
    ensures rest { OnOk result (whole tokens.old ≡ Some tokens.new) }
{
    let event = first::<u32>(alloc, tokens)?;
    let elements = first(alloc, tokens)?;
    tokens.end()?;
    Ok(Cmd::Await { event, elements })
}
