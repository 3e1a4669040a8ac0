//! Bytes that can be shared: lists over one buffer, which none of them can change.

ghost use Rattle.std.specs.Prelude.{◌≡◌, ◌≤◌, ◌↔◌, List, [], length, slice_range, IfOk, IfErr};
ghost use Rattle.std.specs.Prelude.{IsTrue};
ghost use Rattle.std.specs.Arc.{arc_value};

use crate::NoMemory;
use std::alloc::{AllocFailed, Global};
use std::fmt;
use std::marker::Model;
use std::mem::size_of;
use std::sync::Arc;

// Waiting packets, histories and captures are made of these.
const _: () = prove!(size_of::<Bytes>() == 16);

/// A part of more bytes than this, but not of all, has a buffer of its own.
const LONGEST_PART: usize = 65_535;

/// A list of bytes that can't be changed; it takes 16 bytes itself. Several lists may share one
/// buffer: to [`share`](Bytes::share) bytes copies nothing, and so it is to [`cut`](Bytes::cut) up
/// to 65,535 of them. The buffer ends with its last list. It may be used from several threads.
#[derive(Drop)]
pub struct Bytes {
    form: Form,
}

/// How the bytes are held.
#[derive(Drop)]
enum Form {
    /// There are none, and no buffer.
    Empty,
    /// The whole buffer, which has fewer than 2^32 bytes.
    Whole {
        buffer: Arc<Vec<u8>, Global>,
    },
    /// So many bytes of the buffer from `start` on.
    Part {
        length: u16,
        start: u32,
        buffer: Arc<Vec<u8>, Global>,
    },
}

impl Model for Bytes {
    ghost use Rattle.std.specs.Prelude.{List, ℕ};
    ghost use Rattle.packet_entry.specs.SharedBytes.{bytes_of, IsWithin};

    ghost Value = { List ℕ };

    ghost view = { λ b. bytes_of b.form };

    ghost invariant = { λ b. IsWithin b.form };
}

impl Bytes {
    /// No bytes. Takes no memory.
    pub fn new(_alloc: Global) -> Bytes
        ensures { result ≡ [] }
    {
        no_bytes()
    }

    /// A copy of the bytes, in a buffer of their own.
    pub fn copy(alloc: Global, from: &[u8]) -> Result<Bytes, NoMemory>
        ensures { IfOk result (λ bytes. bytes ≡ from.now) }
    {
        Ok(Bytes::from_vec(Vec::from_slice(alloc, from)?)?)
    }

    /// The bytes of the vector, which becomes the buffer as it is: no byte is copied. The memory
    /// that is taken counts the lists that share the buffer. Where there is none the vector comes
    /// back, and so does one of 2^32 bytes or more.
    pub fn from_vec(items: Vec<u8>) -> Result<Bytes, AllocFailed<Vec<u8>>>
        ensures ok { IfOk result (λ bytes. bytes ≡ items.items) }
        ensures returned { IfErr result (λ failed. failed.value ≡ items) }
    {
        if items.len() > u32::MAX as usize {
            return Err(AllocFailed { value: items });
        }
        Ok(Bytes {
            form: Form::Whole {
                buffer: Arc::new(*items.allocator(), items)?,
            },
        })
    }

    /// The bytes of the vector, in the place of those that this buffer has. Where somebody shares
    /// it, another is made. `NoMemory` is for 2^32 bytes or more too.
    pub(crate) fn in_place_of(
        mut buffer: Arc<Vec<u8>, Global>,
        items: Vec<u8>,
    ) -> Result<Bytes, NoMemory>
        ensures { IfOk result (λ bytes. bytes ≡ items.items) }
    {
        if items.len() > u32::MAX as usize {
            return Err(NoMemory);
        }
        let Some(place) = Arc::get_mut(&mut buffer) else {
            return Ok(Bytes::from_vec(items)?);
        };
        *place = items;
        Ok(Bytes {
            form: Form::Whole { buffer },
        })
    }

    /// The buffer, where these are all of its bytes. The list ends.
    pub(crate) fn into_whole(self) -> Option<Arc<Vec<u8>, Global>> {
        let Bytes { form } = self;
        match form {
            Form::Whole { buffer } => Some(buffer),
            Form::Empty => None,
            Form::Part { .. } => None,
        }
    }

    /// The same bytes once more. Nothing is copied, and no memory is taken: `NoMemory` comes only
    /// where 2^63 - 1 lists share the buffer already.
    pub fn share(&self) -> Result<Bytes, NoMemory>
        ensures { IfOk result (λ bytes. bytes ≡ self.now) }
    {
        let form = match &self.form {
            Form::Empty => Form::Empty,
            Form::Whole { buffer } => Form::Whole {
                buffer: Arc::try_clone(buffer)?,
            },
            Form::Part {
                length,
                start,
                buffer,
            } => Form::Part {
                length: *length,
                start: *start,
                buffer: Arc::try_clone(buffer)?,
            },
        };
        Ok(Bytes { form })
    }

    /// The bytes from place `start` to before place `end`, counted from 0. More than 65,535 bytes
    /// are copied, unless they are all of the buffer. Otherwise nothing is copied, and no memory is
    /// taken: `NoMemory` comes only where 2^63 - 1 lists share the buffer already.
    pub fn cut(&self, start: usize, end: usize) -> Result<Bytes, NoMemory>
        requires order { start ≤ end }
        requires within { end ≤ length self.now }
        ensures { IfOk result (λ bytes. bytes ≡ slice_range self.now start end) }
    {
        match &self.form {
            Form::Empty => Ok(no_bytes()),
            Form::Whole { buffer } => part_of(buffer, start, end),
            Form::Part {
                start: first,
                buffer,
                ..
            } => part_of(buffer, *first as usize + start, *first as usize + end),
        }
    }

    /// The bytes, where they lie: nothing is copied.
    pub fn as_slice(&self) -> &[u8]
        ensures { result.now ≡ self.now }
    {
        match &self.form {
            Form::Empty => &[],
            Form::Whole { buffer } => &buffer[..],
            Form::Part {
                length,
                start,
                buffer,
            } => {
                let start = *start as usize;
                &buffer[start..start + *length as usize]
            }
        }
    }

    /// How many bytes there are.
    pub fn len(&self) -> usize
        ensures { result ≡ length self.now }
    {
        match &self.form {
            Form::Empty => 0,
            Form::Whole { buffer } => buffer.len(),
            Form::Part { length, .. } => *length as usize,
        }
    }

    /// Whether there are no bytes.
    pub fn is_empty(&self) -> bool
        ensures { IsTrue result ↔ (self.now ≡ []) }
    {
        self.len() == 0
    }
}

/// Empty bytes, which have no buffer.
fn no_bytes() -> Bytes
    ensures { result ≡ [] }
{
    Bytes { form: Form::Empty }
}

/// The part of a buffer from `start` to before `end`.
fn part_of(buffer: &Arc<Vec<u8>, Global>, start: usize, end: usize) -> Result<Bytes, NoMemory>
    requires order { start ≤ end }
    requires within { end ≤ length (arc_value buffer.now).items }
    requires limit { length (arc_value buffer.now).items ≤ 4_294_967_295 }
    ensures { IfOk result (λ bytes. bytes ≡ slice_range (arc_value buffer.now).items start end) }
{
    if start == end {
        return Ok(no_bytes());
    }
    let length = end - start;
    if length == buffer.len() {
        return Ok(Bytes {
            form: Form::Whole {
                buffer: Arc::try_clone(buffer)?,
            },
        });
    }
    if length > LONGEST_PART {
        return Bytes::copy(*buffer.allocator(), &buffer[start..end]);
    }
    Ok(Bytes {
        form: Form::Part {
            length: length as u16,
            start: start as u32,
            buffer: Arc::try_clone(buffer)?,
        },
    })
}

/// The bytes of this list alone, as a list of numbers.
impl fmt::Debug for Bytes {
    fn fmt<W: fmt::Write>(&self, f: &mut fmt::Formatter<W>) -> fmt::Result {
        let bytes = self.as_slice();
        write!(f, "{bytes:?}")
    }
}
