//! Where frames lie in the buffer, as a stack.

ghost use Rattle.std.specs.Prelude.{◌≡◌, ◌<◌, [], ◌∷◌, length, drop, slice_get, Some, IfOk};
ghost use Rattle.frame_stack.specs.Tops.{span};

use std::alloc::{AllocError, Global};
use std::marker::Model;

/// Where a frame lies: its first cell, how many it has, and the place of its cursor in it.
#[derive(Clone, Copy)]
pub(crate) struct Span {
    pub start: usize,
    pub len: usize,
    pub cursor: usize,
}

impl Span {
    /// The same with the cursor at another place.
    pub(crate) fn with_cursor(self, cursor: usize) -> Span
        ensures { result ≡ span self.start self.len cursor }
    {
        Span {
            start: self.start,
            len: self.len,
            cursor,
        }
    }
}

/// A stack of spans, which takes its memory when it is made.
#[derive(Drop)]
pub(crate) struct SpanStack {
    spans: Vec<Span>,
    count: usize,
}

impl Model for SpanStack {
    ghost use Rattle.std.specs.Prelude.{◌≤◌, length};
    ghost use Rattle.frame_stack.specs.Tops.{Spans, tops};

    ghost Value = { Spans };

    ghost view = { λ s. record { tops = tops s.spans.items s.count; places = length s.spans.items } };

    ghost invariant = { λ s. s.count ≤ length s.spans.items };
}

impl SpanStack {
    /// An empty stack with so many places.
    pub(crate) fn new(alloc: Global, places: usize) -> Result<SpanStack, AllocError>
        ensures { IfOk result (λ stack. stack ≡ record { tops = []; places = places }) }
    {
        let none = Span {
            start: 0,
            len: 0,
            cursor: 0,
        };
        let mut spans = Vec::new(alloc);
        spans.resize(places, none)?;
        Ok(SpanStack { spans, count: 0 })
    }

    /// The number of spans.
    pub(crate) fn len(&self) -> usize
        ensures { result ≡ length self.now.tops }
    {
        self.count
    }

    /// How many spans there are places for.
    pub(crate) fn places(&self) -> usize
        ensures { result ≡ self.now.places }
    {
        self.spans.len()
    }

    /// The span on top.
    pub(crate) fn top(&self) -> Span
        requires { 0 < length self.now.tops }
        ensures { self.now.tops ≡ result ∷ drop 1 self.now.tops }
    {
        self.spans[self.count - 1]
    }

    /// Replaces the span on top.
    pub(crate) fn set_top(&mut self, span: Span)
        requires { 0 < length self.old.tops }
        ensures { self.new ≡ record self.old { tops = span ∷ drop 1 self.old.tops } }
    {
        self.spans[self.count - 1] = span;
    }

    /// Puts a span on top.
    pub(crate) fn push(&mut self, span: Span)
        requires { length self.old.tops < self.old.places }
        ensures { self.new ≡ record self.old { tops = span ∷ self.old.tops } }
    {
        self.spans[self.count] = span;
        self.count += 1;
    }

    /// Takes the span on top off.
    pub(crate) fn pop(&mut self)
        requires { 0 < length self.old.tops }
        ensures { self.new ≡ record self.old { tops = drop 1 self.old.tops } }
    {
        self.count -= 1;
    }
}
