// The records of a file in memory, taken one after another.
ghost use Rattle.std.specs.Prelude.{◌≡◌, List, [], length, IfOk, IfErr, MatchOption};
ghost use Rattle.rt_ops.specs.File.{file_of};
ghost use Rattle.rt_ops.specs.Operations.{Operation};
ghost use Rattle.rt_ops.specs.Records.{BeginsRecords, FindsContent, HasTaken, TakesRecord, RefusesRecord};

use crate::decode::decode;
use crate::fields::LENGTH_BYTES;
use crate::head::{HEAD_BYTES, head_of};
use crate::record::{length_at, may_follow};
use crate::{Op, Version};
use rt_stamps::{Fault, Stamp};
use std::alloc::Global;
use std::marker::Model;

/// The records of a file in memory, taken one after another. It borrows the bytes of the file, and takes memory for
/// one operation at a time.
#[derive(Drop)]
pub struct Records<'a> {
    version: Version,
    bytes: &'a [u8],
    offset: usize,
    last: Option<Stamp>,
}

impl<'a> Model for Records<'a> {
    ghost use Rattle.std.specs.Prelude.{List, drop};
    ghost use Rattle.rt_ops.specs.Operations.{Operation};
    ghost use Rattle.rt_ops.specs.Records.{Left, IsFileUpTo};

    ghost Value = { Left };

    ghost view = { λ r. record { version = r.version; bytes = r.bytes.now; rest = drop r.offset r.bytes.now } };

    ghost invariant = { λ r. (ops : List Operation) × IsFileUpTo r.version r.bytes.now r.offset r.last ops };
}

/// The content of the record at the front.
fn content_at(version: Version, bytes: &[u8]) -> Result<&[u8], Fault>
    ensures { FindsContent version (λ content. content.now) bytes.now result }
{
    let (length, rest) = length_at(version, bytes)?;
    if rest.len() < length {
        return Err(Fault::Truncated);
    }
    Ok(&rest[..length])
}

impl<'a> Records<'a> {
    /// The records behind a file's first eight bytes, none of them taken. `BadMagic`, `BadVersion` or `Truncated` where
    /// these bytes have that fault. Takes no memory.
    pub fn begin(bytes: &'a [u8]) -> Result<Records<'a>, Fault>
        ensures { BeginsRecords bytes.now result }
    {
        let front = bytes.len().min(HEAD_BYTES);
        match head_of(&bytes[..front]) {
            Err(fault) => Err(fault),
            Ok(version) => Ok(Records {
                version,
                bytes,
                offset: HEAD_BYTES,
                last: None,
            }),
        }
    }

    /// Where the next record begins, in bytes from the file's first: behind the records of the operations that were taken.
    pub fn offset(&self) -> u64
        ensures offset { (ops : List Operation) → HasTaken self.now ops → result ≡ length (file_of self.now.version ops) }
        ensures taken { (ops : List Operation) × HasTaken self.now ops }
    {
        self.offset as u64
    }

    /// Takes the next record, and answers its operation; none at the end. `Truncated` or `BadRecord` where what stands
    /// there has that fault, `NoMemory` where a growth was refused. After a fault nothing was taken.
    pub fn next(&mut self, alloc: Global) -> Result<Option<Op>, Fault>
        ensures ok { IfOk result (λ found. MatchOption found ((self.old.rest ≡ []) × (self.new ≡ self.old)) (λ op. TakesRecord self.old op self.new)) }
        ensures err { IfErr result (λ fault. RefusesRecord self.old fault) }
        ensures unchanged { IfErr result (λ _. self.new ≡ self.old) }
    {
        let rest = &self.bytes[self.offset..];
        if rest.is_empty() {
            return Ok(None);
        }
        let content = content_at(self.version, rest)?;
        let op = decode(alloc, self.version, content)?;
        if !may_follow(self.last, &op) {
            return Err(Fault::BadRecord);
        }
        self.offset += LENGTH_BYTES + content.len();
        self.last = Some(op.stamp());
        Ok(Some(op))
    }
}
