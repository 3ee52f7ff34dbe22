//! A buffer for the bytes of a key, which are inline if no key is long.
ghost use Rattle.std.specs.Prelude.{◌≡◌, ◌+◌, ◌++◌, ◌≤◌, ◌<◌, ◌^◌, drop, length, take, IfOk, IsOkAnd};
ghost use Rattle.rart_nodes.specs.walks.KeyBuffers.{allocated_bytes, bytes_in};

use rart_keys::copy_bytes;
use std::alloc::{AllocError, Global};

// Enough for most keys. Each iterator over pairs holds as many.
const INLINE: usize = 32;

/// A buffer that has a place for each byte of the longest key.
#[derive(Drop)]
pub(crate) enum KeyBuffer {
    /// For keys of at most `INLINE` bytes.
    Inline([u8; INLINE]),
    /// For longer keys.
    Allocated(Vec<u8>),
}

impl KeyBuffer {
    /// Returns a buffer of inline bytes. It does not allocate.
    pub(crate) fn inline() -> Self
        ensures len { length (bytes_in result) ≡ INLINE }
        ensures allocated { allocated_bytes result ≡ 0 }
    {
        KeyBuffer::Inline([0; INLINE])
    }

    /// Returns a buffer of at least `len` bytes. Up to `INLINE` allocate nothing, and more at most `len` bytes.
    pub(crate) fn with_len(alloc: Global, len: usize) -> Result<Self, AllocError>
        ensures len { IfOk result (λ b. len ≤ length (bytes_in b)) }
        ensures fits { IfOk result (λ b. length (bytes_in b) < 2 ^ 64) }
        ensures allocated { IfOk result (λ b. allocated_bytes b ≤ len) }
        ensures inline { len ≤ INLINE → IsOkAnd result (λ b. allocated_bytes b ≡ 0) }
    {
        if len <= INLINE {
            return Ok(KeyBuffer::inline());
        }
        let mut bytes = Vec::with_capacity(alloc, len)?;
        while bytes.len() < len {
            bytes.push_reserved(0);
        }
        Ok(KeyBuffer::Allocated(bytes))
    }

    /// Returns all bytes.
    pub(crate) fn as_slice(&self) -> &[u8]
        ensures { result.now ≡ bytes_in self.now }
    {
        match self {
            KeyBuffer::Inline(bytes) => bytes.as_slice(),
            KeyBuffer::Allocated(bytes) => bytes.as_slice(),
        }
    }

    /// Overwrites the bytes from place `at` on, and returns the place after them.
    // Inline, as each step of a walk calls it.
    #[inline(always)]
    pub(crate) fn write(&mut self, at: usize, bytes: &[u8]) -> usize
        requires fits { length (bytes_in self.old) < 2 ^ 64 }
        requires reserved { at + length bytes.now ≤ length (bytes_in self.old) }
        ensures bytes { bytes_in self.new
            ≡ take at (bytes_in self.old) ++ bytes.now
            ++ drop (at + length bytes.now) (bytes_in self.old) }
        ensures len { length (bytes_in self.new) ≡ length (bytes_in self.old) }
        ensures allocated { allocated_bytes self.new ≡ allocated_bytes self.old }
        ensures end { result ≡ at + length bytes.now }
    {
        let end = at + bytes.len();
        match self {
            KeyBuffer::Inline(buffer) => copy_bytes(&mut buffer[at..end], bytes),
            KeyBuffer::Allocated(buffer) => copy_bytes(&mut buffer[at..end], bytes),
        }
        end
    }
}
