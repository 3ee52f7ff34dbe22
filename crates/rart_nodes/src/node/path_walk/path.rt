//! What a walk keeps of its path: the bytes, the segments, or nothing.
ghost use Rattle.std.specs.Prelude.{◌≡◌, ◌<◌, ◌≤◌, ◌+◌, ◌^◌, ◌++◌, ℕ, [], length, take, IfOk};
ghost use Rattle.rart_nodes.specs.walks.KeyBuffers.{bytes_in};
ghost use Rattle.rart_trie.specs.walks.Walk.{Grown, IsShort, SegmentList};

use crate::node::path_walk::path::key_buffer::KeyBuffer;
use rart_keys::Partial;
use std::alloc::{AllocError, Global};

mod key_buffer;

/// What is kept of one prefix.
pub(crate) trait Keeps {
    ghost grown: { Grown };

    ghost short: { IsShort grown };
}

/// What is kept of a path.
pub(crate) trait Path<'a, P: Partial>: Keeps + Drop {
    ghost kept: { Self → SegmentList };

    ghost capacity: { Self → ℕ };

    ghost requested: { Self → ℕ };

    /// Returns an empty path. It does not allocate.
    fn empty(alloc: Global) -> Self
        ensures empty_path { kept result ≡ [] }
        ensures requested { requested result ≡ 0 };

    /// Returns an empty path with capacity for keys of `longest` bytes. It requests no more.
    fn with_capacity(alloc: Global, longest: usize) -> Result<Self, AllocError>
        ensures empty_path { IfOk result (λ t. kept t ≡ []) }
        ensures capacity { IfOk result (λ t. longest ≤ capacity t) }
        ensures requested { IfOk result (λ t. requested t ≤ longest) };

    /// Returns the length of what is kept.
    fn mark(&self) -> usize
        ensures { result ≡ length (kept self.now) };

    /// Truncates the path to the length `mark`.
    fn cut(&mut self, mark: usize)
        ensures kept { kept self.new ≡ take mark (kept self.old) }
        ensures capacity { capacity self.old ≤ capacity self.new }
        ensures requested { requested self.new ≡ requested self.old };

    /// Appends a prefix.
    fn grow(&mut self, prefix: &'a P)
        requires { length (kept self.old) + length (P.bytes prefix.now) ≤ capacity self.old }
        ensures kept { kept self.new ≡ kept self.old ++ Self.grown (P.bytes prefix.now) }
        ensures capacity { capacity self.old ≤ capacity self.new }
        ensures requested { requested self.new ≡ requested self.old };
}

/// Keeps the bytes of the key. The prefix that was appended last stays in its node, so that the bytes of a leaf are
/// copied once, to its key.
#[derive(Drop)]
pub(crate) struct BytePath<'a> {
    buffer: KeyBuffer,
    // how many of its bytes are in use
    len: usize,
    // what follows them
    last: &'a [u8],
    ghost fits: { length (bytes_in buffer) < 2 ^ 64 },
    ghost in_range: { len + length last.now ≤ length (bytes_in buffer) },
}

impl<'a> BytePath<'a> {
    ghost use Rattle.std.specs.Prelude.{◌≡◌, ◌++◌};
    ghost use Rattle.rart_nodes.specs.walks.PathParts.{kept_bytes};

    /// Returns the bytes of the path in two parts.
    pub(crate) fn parts(&self) -> (&[u8], &'a [u8])
        ensures { kept_bytes self.now ≡ result.0.now ++ result.1.now }
    {
        (&self.buffer.as_slice()[..self.len], self.last)
    }
}

impl<'a> Keeps for BytePath<'a> {
    ghost use Rattle.rart_nodes.specs.walks.PathParts.{byte_segments, short-bytes};

    ghost grown = { byte_segments };

    ghost short = { short-bytes };
}

impl<'a, P: Partial> Path<'a, P> for BytePath<'a> {
    ghost use Rattle.rart_nodes.specs.walks.PathParts.{byte_segments, kept_bytes};
    ghost use Rattle.rart_nodes.specs.walks.KeyBuffers.{allocated_bytes};

    ghost kept = { λ t. byte_segments (kept_bytes t) };

    ghost capacity = { λ t. length (bytes_in t.buffer) };

    ghost requested = { λ t. allocated_bytes t.buffer };

    fn empty(_alloc: Global) -> Self {
        BytePath {
            buffer: KeyBuffer::inline(),
            len: 0,
            last: &[],
        }
    }

    fn with_capacity(alloc: Global, longest: usize) -> Result<Self, AllocError> {
        let buffer = KeyBuffer::with_len(alloc, longest)?;
        Ok(BytePath {
            buffer,
            len: 0,
            last: &[],
        })
    }

    fn mark(&self) -> usize {
        self.len + self.last.len()
    }

    // Inline, as each step of a walk calls it.
    #[inline(always)]
    fn cut(&mut self, mark: usize) {
        if mark <= self.len {
            self.len = mark;
            self.last = &[];
        } else if mark - self.len < self.last.len() {
            self.last = &self.last[..mark - self.len];
        }
    }

    // Inline, as each step of a walk calls it.
    #[inline(always)]
    fn grow(&mut self, prefix: &'a P) {
        if !self.last.is_empty() {
            self.len = self.buffer.write(self.len, self.last);
        }
        self.last = prefix.to_slice();
    }
}

/// Keeps the non-empty prefixes of the nodes.
#[derive(Drop)]
pub(crate) struct SegmentPath<'a> {
    segments: Vec<&'a [u8]>,
}

impl<'a> SegmentPath<'a> {
    /// Returns the segments of the path.
    pub(crate) fn segments(&self) -> &[&'a [u8]]
        ensures { result.now ≡ self.now.segments.items }
    {
        self.segments.as_slice()
    }
}

impl<'a> Keeps for SegmentPath<'a> {
    ghost use Rattle.rart_nodes.specs.walks.PathParts.{one_segment, short-one};

    ghost grown = { one_segment };

    ghost short = { short-one };
}

impl<'a, P: Partial> Path<'a, P> for SegmentPath<'a> {
    ghost use Rattle.std.specs.Prelude.{vec_capacity};
    ghost use Rattle.rart_nodes.specs.walks.PathParts.{lent_segments};

    ghost kept = { λ t. lent_segments t.segments.items };

    ghost capacity = { λ t. vec_capacity t.segments };

    ghost requested = { λ t. vec_capacity t.segments };

    fn empty(alloc: Global) -> Self {
        SegmentPath {
            segments: Vec::new(alloc),
        }
    }

    fn with_capacity(alloc: Global, longest: usize) -> Result<Self, AllocError> {
        let segments = Vec::with_capacity(alloc, longest)?;
        Ok(SegmentPath { segments })
    }

    fn mark(&self) -> usize {
        self.segments.len()
    }

    fn cut(&mut self, mark: usize) {
        self.segments.truncate(mark);
    }

    fn grow(&mut self, prefix: &'a P) {
        let segment = prefix.to_slice();
        if !segment.is_empty() {
            self.segments.push_reserved(segment);
        }
    }
}

/// Keeps nothing.
#[derive(Drop)]
pub(crate) struct NoPath;

impl Keeps for NoPath {
    ghost use Rattle.rart_nodes.specs.walks.PathParts.{no_segment, short-no};

    ghost grown = { no_segment };

    ghost short = { short-no };
}

impl<'a, P: Partial> Path<'a, P> for NoPath {
    ghost kept = { λ t. [] };

    ghost capacity = { λ t. 2 ^ 64 };

    ghost requested = { λ t. 0 };

    fn empty(_alloc: Global) -> Self {
        NoPath
    }

    fn with_capacity(_alloc: Global, _longest: usize) -> Result<Self, AllocError> {
        Ok(NoPath)
    }

    fn mark(&self) -> usize {
        0
    }

    fn cut(&mut self, _mark: usize) {}

    fn grow(&mut self, _prefix: &'a P) {}
}
