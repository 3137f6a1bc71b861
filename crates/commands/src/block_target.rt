//! Many small pieces go on in blocks.
ghost use Rattle.std.specs.Prelude.{◌≡◌, ◌≤◌, ◌+◌, ◌-◌, ◌++◌, ◌↔◌, ℕ, IsErr, IsOk, List, None, Option, OnOk, []};
ghost use Rattle.std.specs.Prelude.{false, length, true};
ghost use Rattle.std.specs.Io.KnownBytes.{Keeps};
ghost use Rattle.asn_documents.specs.WrittenValues.{WritesText};
ghost use Rattle.commands.specs.KnownOctets.{known_length};

use asn_documents::value::write_octets;
use std::alloc::{AllocError, Global};
use std::marker::{Brand, PhantomData};
use tlv_core::sink::WriteError;
use tlv_core::source::Failed;
use tlv_core::target::Target;

/// As many octets wait at most.
const SIZE: usize = 8192;

/// What a block was made for. No code looks at it.
pub trait Start {
    /// Which reference to a target it was handed.
    ghost name: { ℕ };

    /// The octets that the target contained then, where that is known.
    ghost before: { Option (List ℕ) };
}

impl Start for Brand {
    ghost name = { 0 };

    ghost before = { None };
}

/// The octets of a block.
pub fn new_block(alloc: Global) -> Result<Vec<u8>, AllocError> {
    vec![in alloc; 0; SIZE]
}

/// A target over another one, to which the octets go on in blocks.
#[derive(Drop)]
pub struct BlockTarget<'a, W: Target, K: Start> {
    pub(crate) target: &'a mut W,
    pub(crate) block: Vec<u8>,
    /// Between these octets of the block wait.
    pub(crate) begin: usize,
    pub(crate) end: usize,
    pub(crate) start: PhantomData<K>,
    ghost same_target: { target.ghost_name ≡ K.name },
    ghost ordered: { begin ≤ end },
    ghost within: { end ≤ length block.items },
    ghost no_shorter: { known_length K.before ≤ known_length (W.contents target.now) },
}

impl<'a, W: Target, K: Start> BlockTarget<'a, W, K> {
    ghost use Rattle.commands.specs.BlockTargets.{has_failed_under, held, target_of, waiting};

    /// Puts a piece after what waits, and answers its length.
    fn hold(&mut self, piece: &[u8]) -> usize
        requires { self.old.end + length piece.now ≤ length self.old.block.items }
        ensures count { result ≡ length piece.now }
        ensures waits { waiting self.new ≡ waiting self.old ++ piece.now }
        ensures same { target_of self.new ≡ target_of self.old }
    {
        let end = self.end + piece.len();
        self.block[self.end..end].copy_from_slice(piece);
        self.end = end;
        piece.len()
    }

    /// Hands on what waits.
    fn hand_on(&mut self) -> Result<(), Failed>
        requires { has_failed_under self.old ≡ false }
        ensures kept { Keeps (held self.old) (held self.new) }
        ensures none { OnOk result (waiting self.new ≡ []) }
        ensures failed { IsErr result ↔ (has_failed_under self.new ≡ true) }
    {
        match write_octets(&self.block[self.begin..self.end], &mut *self.target) {
            Ok(_) => {
                self.begin = 0;
                self.end = 0;
                Ok(())
            }
            Err(error) => {
                self.begin += error.written as usize;
                Err(Failed)
            }
        }
    }

    /// Hands on what waits of a text, of which so many octets came, and answers how many of them are out.
    pub fn close(&mut self, come: Result<u64, WriteError>) -> Result<u64, WriteError>
        requires { IsOk come → has_failed_under self.old ≡ false }
        ensures out { (text : List ℕ)
            → WritesText text K.before (held self.old) (has_failed_under self.old) come
            → WritesText text K.before (W.contents (target_of self.new)) (has_failed_under self.new)
            result }
        ensures failed { IsErr come → IsErr result }
    {
        match come {
            Ok(count) => match self.hand_on() {
                Ok(()) => Ok(count),
                Err(Failed) => Err(self.out_of(count)),
            },
            Err(error) => Err(self.out_of(error.written)),
        }
    }

    /// The target that was under it.
    pub fn into_target(self) -> &'a mut W
        ensures same { result.ghost_name ≡ self.entry.target.ghost_name }
        ensures now { result.now ≡ target_of self.entry }
    {
        let BlockTarget { target, .. } = self;
        target
    }

    /// The error where so many octets came, and the last of them wait.
    fn out_of(&self, count: u64) -> WriteError
        ensures { result.written ≡ count - length (waiting self.now) }
    {
        WriteError {
            written: count.saturating_sub((self.end - self.begin) as u64),
        }
    }
}

impl<W: Target, K: Start> Target for BlockTarget<'_, W, K> {
    ghost use Rattle.commands.specs.BlockTargets.{has_failed_under, held};

    ghost contents = { λ target. held target };

    ghost has_failed = { λ target. has_failed_under target };

    fn write(&mut self, piece: &[u8]) -> Result<usize, Failed> {
        if piece.len() <= self.block.len() - self.end {
            return Ok(self.hold(piece));
        }
        self.hand_on()?;
        if piece.len() <= self.block.len() - self.end {
            return Ok(self.hold(piece));
        }
        self.target.write(piece)
    }

    fn failed(&self) -> bool {
        self.target.failed()
    }
}
