//! What is open while a document is read.

ghost use Rattle.std.specs.Prelude.{◌≡◌, ◌<◌, ◌+◌, ◌-◌, OnErr, OnOk};
ghost use Rattle.man_raw.specs.Opened.{joined, last_pair, last_part, left_frames, made, most_nests, nothing_open, opened_frames, pair_at, put_frames, raw_of, shut_frames, with_frames, wrapped_frames};
ghost use Rattle.man_raw.specs.Raws.{raw, RawTrees};

use crate::form::{Form, What};
use crate::raw::Raw;
use std::alloc::{AllocError, Global};
use std::marker::Model;

/// So many nests may be open at once.
pub const MOST_NESTS: u64 = 512;

/// A piece whose parts are read.
#[derive(Drop)]
struct Frame {
    at: u64,
    parts: Vec<Raw>,
}

impl Model for Frame {
    ghost use Rattle.std.specs.Prelude.{reverse};
    ghost use Rattle.std.specs.Coded.{codes};
    ghost use Rattle.man_raw.specs.Opened as opened;
    ghost use Rattle.man_raw.specs.Raws.{coded_raw};

    ghost Value = { opened.Frame };

    ghost coded = { Prim.hlevel (codes, coded_raw) };

    ghost view = { λ f. record { at = f.at; parts = reverse f.parts.items } };
}

/// The pieces that are open, the innermost last, and how many nests are open.
/// Contracts see the innermost first, and of each the last part first.
#[derive(Drop)]
pub struct Opened {
    alloc: Global,
    frames: Vec<Frame>,
    nests: u64,
}

impl Model for Opened {
    ghost use Rattle.std.specs.Prelude.{reverse};
    ghost use Rattle.std.specs.Coded.{codes};
    ghost use Rattle.man_raw.specs.Opened.{Opening};
    ghost use Rattle.man_raw.specs.Raws.{coded_raw};

    ghost Value = { Opening };

    ghost coded = { Prim.hlevel (codes, coded_raw) };

    ghost view = { λ o. record { frames = reverse o.frames.items; nests = o.nests } };
}

/// What stands in a section, with the annotations in front of it.
#[derive(Drop)]
pub struct Annotated {
    pub at: u64,
    pub notes: Raw,
    pub body: Raw,
}

impl Opened {
    /// Nothing is open. Takes no memory.
    pub fn new(alloc: Global) -> Opened
        ensures { result ≡ nothing_open }
    {
        Opened {
            alloc,
            frames: Vec::new(alloc),
            nests: 0,
        }
    }

    /// How many nests are open.
    pub fn nests(&self) -> u64
        ensures { result ≡ self.now.nests }
    {
        self.nests
    }

    /// Counts one more nest, where one more may be open.
    pub fn nest(&mut self)
        requires { self.old.nests < most_nests }
        ensures { self.new ≡ record self.old { nests = self.old.nests + 1 } }
    {
        self.nests += 1;
    }

    /// Counts one nest less, where there is one.
    pub fn unnest(&mut self)
        ensures { self.new ≡ record self.old { nests = self.old.nests - 1 } }
    {
        self.nests = self.nests.saturating_sub(1);
    }

    /// Opens a piece that begins at this byte. At want of memory nothing changes.
    pub fn open(&mut self, at: u64) -> Result<(), AllocError>
        ensures ok { OnOk result
            (self.new ≡ with_frames (opened_frames at self.old.frames) self.old) }
        ensures err { OnErr result (self.new ≡ self.old) }
    {
        let frame = Frame {
            at,
            parts: Vec::new(self.alloc),
        };
        self.frames.push(frame)?;
        Ok(())
    }

    /// Adds a part to the innermost piece. At want of memory nothing changes.
    pub fn put(&mut self, part: Raw) -> Result<(), AllocError>
        ensures ok { OnOk result
            (self.new ≡ with_frames (put_frames part self.old.frames) self.old) }
        ensures err { OnErr result (self.new ≡ self.old) }
    {
        if let Some(mut frame) = self.frames.pop() {
            let pushed = frame.parts.push(part);
            self.frames.push(frame).unwrap();
            pushed?;
        }
        Ok(())
    }

    /// Adds a piece without parts to the innermost piece. At want of memory nothing
    /// changes.
    pub fn put_leaf(&mut self, at: u64, what: What) -> Result<(), AllocError>
        ensures ok { OnOk result
            (self.new ≡ with_frames (put_frames (raw at what RawTrees.none) self.old.frames) self.old) }
        ensures err { OnErr result (self.new ≡ self.old) }
    {
        self.put(Raw::leaf(self.alloc, at, what))
    }

    /// Opens a piece whose first part is the last part of the innermost piece. At want
    /// of memory nothing changes.
    pub fn wrap(&mut self) -> Result<(), AllocError>
        ensures ok { OnOk result
            (self.new ≡ with_frames (wrapped_frames self.old.frames) self.old) }
        ensures err { OnErr result (self.new ≡ self.old) }
    {
        self.frames.reserve(1)?;
        let mut parts = Vec::with_capacity(self.alloc, 1)?;
        if let Some(mut frame) = self.frames.pop() {
            let last = frame.parts.pop();
            self.frames.push(frame).unwrap();
            if let Some(part) = last {
                let at = part.at;
                parts.push(part).unwrap();
                self.frames.push(Frame { at, parts }).unwrap();
            }
        }
        Ok(())
    }

    /// Shuts the innermost piece, which is a part of the one around it. At want of memory
    /// the innermost piece is gone, and the others are as they were.
    pub fn shut(&mut self, form: Form) -> Result<(), AllocError>
        ensures ok { OnOk result
            (self.new ≡ with_frames (shut_frames form self.old.frames) self.old) }
        ensures err { OnErr result
            (self.new ≡ with_frames (left_frames self.old.frames) self.old) }
    {
        match self.frames.pop() {
            Some(frame) => self.put(made_of(form, frame)),
            None => Ok(()),
        }
    }

    /// Leaves the innermost piece, and gives the part that it has read last.
    pub fn take_part(&mut self) -> Option<Raw>
        ensures part { result ≡ last_part self.old.frames }
        ensures left { self.new ≡ with_frames (left_frames self.old.frames) self.old }
    {
        match self.frames.pop() {
            Some(mut frame) => frame.parts.pop(),
            None => None,
        }
    }

    /// Leaves the innermost piece, and gives what it says and the annotations.
    pub fn take_pair(&mut self) -> Option<Annotated>
        ensures pair { result ≡ last_pair self.old.frames }
        ensures left { self.new ≡ with_frames (left_frames self.old.frames) self.old }
    {
        match self.frames.pop() {
            Some(frame) => pair_of(frame),
            None => None,
        }
    }
}

/// What a piece with these parts makes.
fn made_of(form: Form, frame: Frame) -> Raw
    ensures { result ≡ made form frame.at frame.parts }
{
    match form {
        Form::Or | Form::And => join(form, frame),
        _ => raw_of(form, frame),
    }
}

/// What operands make: one alone is itself.
fn join(form: Form, frame: Frame) -> Raw
    ensures { result ≡ joined form frame.at frame.parts }
{
    let mut frame = frame;
    if let [_] = frame.parts.as_slice() {
        if let Some(part) = frame.parts.pop() {
            return part;
        }
    }
    raw_of(form, frame)
}

/// A piece with these parts.
fn raw_of(form: Form, frame: Frame) -> Raw
    ensures { result ≡ raw_of form frame.at frame.parts }
{
    Raw {
        at: frame.at,
        what: What::Form(form),
        parts: frame.parts,
    }
}

/// The last two parts of a piece: annotations, and what they are of.
fn pair_of(frame: Frame) -> Option<Annotated>
    ensures { result ≡ pair_at frame.at frame.parts }
{
    let Frame { at, mut parts } = frame;
    let body = parts.pop();
    let notes = parts.pop();
    match (notes, body) {
        (Some(notes), Some(body)) => Some(Annotated { at, notes, body }),
        _ => None,
    }
}
