// What every reading of records goes by: their lengths, and the order of their stamps.
ghost use Rattle.std.specs.Prelude.{◌≡◌};
ghost use Rattle.rt_ops.specs.Versions.{fewest, layout};
ghost use Rattle.rt_ops.specs.Rules.{is_within};
ghost use Rattle.rt_ops.specs.Reading.{may_follow};
ghost use Rattle.rt_ops.specs.Records.{TellsLength};

use crate::fields::u32_at;
use crate::{Op, Version};
use rt_stamps::limits::MOST_RECORD_BYTES;
use rt_stamps::{Fault, Stamp};

/// Whether a record may have this length.
fn is_length(version: Version, length: usize) -> bool
    ensures { result ≡ is_within (fewest version) MOST_RECORD_BYTES length }
{
    version.fewest_record_bytes() <= length && length <= MOST_RECORD_BYTES
}

/// The length that the field at the front tells, and what follows the field.
pub fn length_at(version: Version, bytes: &[u8]) -> Result<(usize, &[u8]), Fault>
    ensures { TellsLength version (λ found. found.0) (λ found. found.1.now) bytes.now result }
{
    let (length, rest) = match u32_at(bytes) {
        Some(found) => found,
        None => return Err(Fault::Truncated),
    };
    let length = length as usize;
    if !is_length(version, length) {
        return Err(Fault::BadRecord);
    }
    Ok((length, rest))
}

/// Whether an operation's stamp is after the last one, if there is any.
pub fn may_follow(last: Option<Stamp>, op: &Op) -> bool
    ensures { result ≡ may_follow last op.now }
{
    match last {
        Some(last) => last < op.stamp(),
        None => true,
    }
}
