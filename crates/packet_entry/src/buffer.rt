//! Buffers that are used again once nobody shares them.

ghost use Rattle.std.specs.Prelude.{◌≡◌, [], IfOk, IfSome};

use crate::{Bytes, NoMemory};
use std::alloc::Global;
use std::mem;
use std::sync::Arc;

/// No more bytes of memory than these are kept for later use, 4 MiB.
const MOST_KEPT: usize = 4_194_304;

/// What a buffer takes beside its bytes, about.
const OVERHEAD: usize = 64;

/// Bytes that are being written. They become a list of [`Bytes`] without being copied.
#[derive(Debug, Drop)]
pub struct Buffer {
    /// The bytes so far.
    pub items: Vec<u8>,
    /// Where the list's owners are counted, where that memory is there already.
    count: Option<Arc<Vec<u8>, Global>>,
}

impl Buffer {
    /// No bytes. Takes no memory.
    pub fn new(alloc: Global) -> Buffer
        ensures { result.items.items ≡ [] }
    {
        Buffer {
            items: Vec::new(alloc),
            count: None,
        }
    }

    /// The buffer of bytes that nobody shares, without them. Takes no memory.
    fn of_bytes(alloc: Global, bytes: Bytes) -> Option<Buffer>
        ensures { IfSome result (λ buffer. buffer.items.items ≡ []) }
    {
        let mut whole = bytes.into_whole()?;
        let mut items = mem::replace(Arc::get_mut(&mut whole)?, Vec::new(alloc));
        items.clear();
        Some(Buffer {
            items,
            count: Some(whole),
        })
    }

    /// The list of these bytes. `NoMemory` is for 2^32 bytes or more too.
    pub fn into_bytes(self) -> Result<Bytes, NoMemory>
        ensures { IfOk result (λ bytes. bytes ≡ self.items.items) }
    {
        let Buffer { items, count } = self;
        match count {
            Some(count) => Bytes::in_place_of(count, items),
            None => Ok(Bytes::from_vec(items)?),
        }
    }

    /// How much memory it takes, about.
    fn size(&self) -> usize {
        self.items.capacity().saturating_add(OVERHEAD)
    }
}

/// Buffers for later use.
#[derive(Debug, Drop)]
pub struct BufferPool {
    buffers: Vec<Buffer>,
    /// How much memory they take, about.
    kept: usize,
}

impl BufferPool {
    /// No buffers. Takes no memory.
    pub fn new(alloc: Global) -> BufferPool {
        BufferPool {
            buffers: Vec::new(alloc),
            kept: 0,
        }
    }

    /// A buffer without bytes: one that is here, or a new one. Takes no memory.
    pub fn take(&mut self, alloc: Global) -> Buffer
        ensures { result.items.items ≡ [] }
    {
        let Some(mut buffer) = self.buffers.pop() else {
            return Buffer::new(alloc);
        };
        self.kept = self.kept.saturating_sub(buffer.size());
        buffer.items.clear();
        buffer
    }

    /// Keeps the memory of these bytes, which end, where nobody shares it and few are here.
    pub fn give(&mut self, alloc: Global, bytes: Bytes) {
        let Some(buffer) = Buffer::of_bytes(alloc, bytes) else {
            return;
        };
        let kept = self.kept.saturating_add(buffer.size());
        if kept <= MOST_KEPT && self.buffers.push(buffer).is_ok() {
            self.kept = kept;
        }
    }
}
