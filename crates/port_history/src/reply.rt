//! The bytes that a reply holds.

ghost use Rattle.std.specs.Prelude.{◌≡◌, IfOk, IfSome, replicate};
ghost use Rattle.port_history.specs.Replies.{are_zero};

use basics::Bytes;
use std::alloc::{AllocError, Global};
use std::fmt;
use std::marker::Model;
use std::sync::Arc;

/// Zeros up to this many take no memory of a reply.
const MOST_ZEROS: usize = 65_535;

/// How many bytes are looked at together: as many as a sector has.
const BLOCK: usize = 512;

static ZEROS: [u8; MOST_ZEROS] = [0; MOST_ZEROS];

/// Bytes of any length, seen as their list and compared by it. It is small, and where it has zeros alone, as what was
/// read of sectors that were never written, it takes no memory. A copy shares the memory of what it is a copy of.
#[derive(Drop)]
pub struct ReplyBytes {
    kept: Kept,
}

#[derive(Drop)]
enum Kept {
    /// So many zeros.
    Zeros(u16),
    Own(Arc<Bytes>),
}

impl Model for ReplyBytes {
    ghost use Rattle.std.specs.Prelude.{List, ℕ};

    ghost Value = { List ℕ };

    ghost use Rattle.port_history.specs.Replies.{bytes_kept};

    ghost view = { λ b. bytes_kept b.kept };
}

impl PartialEq for ReplyBytes {
    ghost use Rattle.std.specs.Prelude.{◌≡◌, ◌==◌, ◌↔◌, IsTrue};
    ghost use Rattle.std.proofs.Common.{rules};
    ghost use Rattle.std.specs.Cmp.Rules.{comparing};
    ghost use lib.Pointwise.{pointwise};

    ghost eq = { pointwise ◌==◌ };

    ghost laws = { Prim.search (comparing, rules) };

    fn eq(&self, other: &ReplyBytes) -> bool
        ensures value { result ≡ pointwise ◌==◌ self.now other.now }
        ensures same { IsTrue result ↔ (self.now ≡ other.now) }
    {
        self.as_slice() == other.as_slice()
    }
}

impl Eq for ReplyBytes {
    ghost use Rattle.std.proofs.Common.{rules};
    ghost use Rattle.std.specs.Cmp.Rules.{comparing};

    ghost laws = { Prim.search (comparing, rules) };
}

/// The list of the bytes.
impl fmt::Debug for ReplyBytes {
    fn fmt<W: fmt::Write>(&self, f: &mut fmt::Formatter<W>) -> fmt::Result {
        f.debug_list().entries(self.as_slice()).finish()
    }
}

/// So many zeros.
fn zeros(count: u16) -> &'static [u8]
    ensures { result.now ≡ replicate count 0 }
{
    &ZEROS[..usize::from(count)]
}

/// Whether bytes are all zero. It looks at each, whatever came before, and so at many at a time.
#[inline(always)]
#[tactic(auto, using(crate::proofs::Zeros::are_zero_more))]
fn are_zero_at_once(bytes: &[u8]) -> bool
    ensures { result ≡ are_zero bytes.now }
{
    let mut most = 0;
    for i in 0..bytes.len() {
        most = most.max(bytes[i]);
    }
    most == 0
}

/// Whether bytes are all zero. The first block that is not ends the search; where in a block that is, is not asked.
fn are_zero(bytes: &[u8]) -> bool
    ensures { result ≡ are_zero bytes.now }
{
    let blocks = bytes.len() / BLOCK;
    for i in 0..blocks {
        if !are_zero_at_once(&bytes[BLOCK * i..BLOCK * i + BLOCK]) {
            return false;
        }
    }
    are_zero_at_once(&bytes[BLOCK * blocks..])
}

impl ReplyBytes {
    ghost use Rattle.std.specs.Prelude.{◌≡◌, [], IfOk, true};

    /// No bytes.
    pub fn none() -> ReplyBytes
        ensures { result ≡ [] }
    {
        ReplyBytes {
            kept: Kept::Zeros(0),
        }
    }

    /// These bytes.
    pub fn new(alloc: Global, bytes: &[u8]) -> Result<ReplyBytes, AllocError>
        ensures { IfOk result (λ b. b ≡ bytes.now) }
    {
        match counted(bytes) {
            Some(zeros) => Ok(zeros),
            None => own(alloc, Bytes::from_vec(bytes.to_vec(alloc)?)),
        }
    }

    /// These bytes, kept as they lie; of zeros the number is kept, and their memory is freed.
    pub fn from_vec(alloc: Global, bytes: Vec<u8>) -> Result<ReplyBytes, AllocError>
        ensures { IfOk result (λ b. b ≡ bytes.items) }
    {
        match counted(bytes.as_slice()) {
            Some(zeros) => Ok(zeros),
            None => own(alloc, Bytes::from_vec(bytes)),
        }
    }

    /// The bytes as a vector: without a copy, but for zeros and for bytes that another reply shares, which take memory now.
    pub fn into_vec(self, alloc: Global) -> Result<Vec<u8>, AllocError>
        ensures { IfOk result (λ v. v.items ≡ self) }
    {
        match self.kept {
            Kept::Zeros(count) => zeros(count).to_vec(alloc),
            Kept::Own(bytes) => match Arc::try_unwrap(bytes) {
                Ok(bytes) => Ok(bytes.into_vec()),
                Err(shared) => shared.as_slice().to_vec(alloc),
            },
        }
    }

    /// The bytes.
    pub fn as_slice(&self) -> &[u8]
        ensures { result.now ≡ self.now }
    {
        match &self.kept {
            Kept::Zeros(count) => zeros(*count),
            Kept::Own(bytes) => bytes.as_slice(),
        }
    }

    /// Whether both are as many zeros as each other and take no memory, so that no byte is looked at. False says nothing.
    pub(crate) fn are_the_same_zeros(&self, other: &ReplyBytes) -> bool
        ensures { result ≡ true → self.now ≡ other.now }
    {
        match (&self.kept, &other.kept) {
            (Kept::Zeros(count), Kept::Zeros(others)) => count == others,
            _ => false,
        }
    }

    /// The same bytes once more, in the same memory.
    ///
    /// # Errors
    ///
    /// `AllocError`, where 2⁶³ − 1 replies share them.
    pub fn share(&self) -> Result<ReplyBytes, AllocError>
        ensures { IfOk result (λ b. b ≡ self.now) }
    {
        let kept = match &self.kept {
            Kept::Zeros(count) => Kept::Zeros(*count),
            Kept::Own(bytes) => Kept::Own(Arc::try_clone(bytes)?),
        };
        Ok(ReplyBytes { kept })
    }
}

/// Zeros, where these bytes are so many that take no memory.
fn counted(bytes: &[u8]) -> Option<ReplyBytes>
    ensures { IfSome result (λ b. b ≡ bytes.now) }
{
    if bytes.len() <= MOST_ZEROS && are_zero(bytes) {
        let kept = Kept::Zeros(bytes.len() as u16);
        return Some(ReplyBytes { kept });
    }
    None
}

/// Bytes in memory of their own.
fn own(alloc: Global, bytes: Bytes) -> Result<ReplyBytes, AllocError>
    ensures { IfOk result (λ b. b ≡ bytes) }
{
    let bytes = Arc::new(alloc, bytes)?;
    Ok(ReplyBytes {
        kept: Kept::Own(bytes),
    })
}
