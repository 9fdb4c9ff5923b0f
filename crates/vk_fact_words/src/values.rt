use bitflags::Flags;
use std::alloc::{AllocError, Global};
use vk_hazards::at_of;
use vk_mistakes::place_of;
use vk_model::{At, Layout, Length, Point};
use vk_order::Byte;
use vk_rules::Item;
use vk_words::{push_at, push_layout};

/// An object of JSON that is written member by member. Names and words need no escapes.
#[derive(Drop)]
pub struct Values<'a> {
    /// The text of the trace whose points are named.
    input: &'a [u8],
    text: String,
    is_begun: bool,
}

impl<'a> Values<'a> {
    /// Without members; of a trace with this text.
    pub fn new(alloc: Global, input: &'a [u8]) -> Result<Values<'a>, AllocError> {
        let text = String::from_str(alloc, "{")?;
        Ok(Values {
            input,
            text,
            is_begun: false,
        })
    }
}

impl Values<'_> {
    /// The object as the member `values` of another one; nothing where it has no members.
    pub fn member(self, alloc: Global) -> Result<String, AllocError> {
        let mut member = String::new(alloc);
        if self.is_begun {
            member.push_str(",\"values\":")?;
            member.push_str(self.text.as_str())?;
            member.push_str("}")?;
        }
        Ok(member)
    }

    /// The name of the next member, with its colon.
    fn push_name(&mut self, name: &str) -> Result<(), AllocError> {
        self.text
            .push_str(if self.is_begun { ",\"" } else { "\"" })?;
        self.is_begun = true;
        self.text.push_str(name)?;
        self.text.push_str("\":")
    }

    /// A number.
    pub fn number(&mut self, name: &str, number: u64) -> Result<(), AllocError> {
        self.push_name(name)?;
        write!(self.text, "{number}")
    }

    /// A number of bytes that may be 2 to the power of 64 or more.
    pub fn wide(&mut self, name: &str, number: u128) -> Result<(), AllocError> {
        self.push_name(name)?;
        write!(self.text, "{number}")
    }

    /// One of some words.
    pub fn word(&mut self, name: &str, word: &str) -> Result<(), AllocError> {
        self.push_name(name)?;
        self.text.push_str("\"")?;
        self.text.push_str(word)?;
        self.text.push_str("\"")
    }

    /// Whether something is so.
    pub fn truth(&mut self, name: &str, is_so: bool) -> Result<(), AllocError> {
        self.push_name(name)?;
        self.text.push_str(if is_so { "true" } else { "false" })
    }

    /// A number of bytes, or `whole`.
    pub fn length(&mut self, name: &str, length: Length) -> Result<(), AllocError> {
        match length {
            Length::Bytes(bytes) => self.number(name, bytes),
            Length::Whole => self.word(name, "whole"),
        }
    }

    /// Which item of the lists of a point is meant; of the only one nothing.
    pub fn item(&mut self, item: Item) -> Result<(), AllocError> {
        match item {
            Item::Only => Ok(()),
            Item::Source(index) => {
                self.number("region", index as u64)?;
                self.word("side", "source")
            }
            Item::Destination(index) => {
                self.number("region", index as u64)?;
                self.word("side", "destination")
            }
            Item::Region(index) => self.number("region", index as u64),
            Item::Range(index) => self.number("range", index as u64),
            Item::Element(index) => self.number("element", index as u64),
        }
    }

    /// The bits of a mask, and the names of its flags.
    pub fn mask<F: Flags<Bits = u32>>(&mut self, name: &str, mask: &F) -> Result<(), AllocError> {
        self.push_name(name)?;
        let bits = mask.bits();
        write!(self.text, "{{\"bits\":{bits},\"names\":[")?;
        let mut is_begun = false;
        let flags = F::flags();
        for flag in flags {
            if mask.contains(F::from_bits_retain(flag.value().bits())) {
                self.text.push_str(if is_begun { ",\"" } else { "\"" })?;
                self.text.push_str(flag.name())?;
                self.text.push_str("\"")?;
                is_begun = true;
            }
        }
        self.text.push_str("]}")
    }

    /// The name of the layout of a number, or `layout N`.
    pub fn layout(&mut self, name: &str, layout: u32) -> Result<(), AllocError> {
        self.push_name(name)?;
        self.text.push_str("\"")?;
        push_layout(&mut self.text, Layout::new(layout))?;
        self.text.push_str("\"")
    }

    /// A byte of a buffer, or of a texel of an image.
    pub fn byte(&mut self, name: &str, byte: Byte) -> Result<(), AllocError> {
        self.push_name(name)?;
        match byte {
            Byte::Buffer { buffer, at } => {
                write!(self.text, "{{\"buffer\":{buffer},\"offset\":{at}}}")
            }
            Byte::Texel {
                image,
                level,
                layer,
                x,
                y,
                texel_byte,
            } => {
                write!(
                    self.text,
                    "{{\"image\":{image},\"level\":{level},\"layer\":{layer}"
                )?;
                write!(
                    self.text,
                    ",\"x\":{x},\"y\":{y},\"texel_byte\":{texel_byte}}}"
                )
            }
        }
    }

    /// Where a point is in its trace.
    pub fn point(&mut self, name: &str, point: Point<'_>) -> Result<(), AllocError> {
        self.place(name, at_of(&point))
    }

    /// How a point is called, the entry, the batch and the place in the batch that are its, and where it
    /// begins in the text.
    pub fn place(&mut self, name: &str, at: At) -> Result<(), AllocError> {
        self.push_name(name)?;
        self.text.push_str("{\"at\":\"")?;
        push_at(&mut self.text, at)?;
        self.text.push_str("\",")?;
        match at {
            At::Entry(entry) => write!(self.text, "\"entry\":{entry}")?,
            At::Wait(entry, batch, place) => self.of_batch(entry, batch, "wait", place)?,
            At::Command(entry, batch, place) => self.of_batch(entry, batch, "command", place)?,
            At::Signal(entry, batch, place) => self.of_batch(entry, batch, "signal", place)?,
        }
        if let Some(place) = place_of(self.input, at) {
            let line = place.line;
            let column = place.column;
            write!(self.text, ",\"line\":{line},\"column\":{column}")?;
        }
        self.text.push_str("}")
    }

    fn of_batch(
        &mut self,
        entry: usize,
        batch: usize,
        kind: &str,
        place: usize,
    ) -> Result<(), AllocError> {
        write!(
            self.text,
            "\"entry\":{entry},\"batch\":{batch},\"{kind}\":{place}"
        )
    }
}
