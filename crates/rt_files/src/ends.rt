// The last counts that are known of sites, as bytes: 12 of each, the number of its site (4) and the count (8), the
// highest byte first.
ghost use Rattle.std.specs.Prelude.{◌≡◌, ◌⊎◌, ◌<◌, ◌^◌, ℕ, IfErr, IfOk, IsOkUnless, List, length, unwrap_or};
ghost use Rattle.std.specs.BTreeMap.{get};
ghost use Rattle.std.specs.Ordering.{nat_cmp};
ghost use Rattle.rt_stamps.specs.declared.fault.Fault.TheVariants.{NoMemory, Truncated};
ghost use Rattle.rt_files.specs.Ends.{AreBySite, SpellEnds, SpellNoEnds, end_bytes, ends_bytes, known_by};

use rt_stamps::Fault;
use std::alloc::Global;
use std::collections::BTreeMap;

// The bytes of each.
const END_BYTES: usize = 12;

/// The bytes of these counts, by rising numbers of their sites: 12 of each, the number (4) and the count (8), the highest
/// byte first. `NoMemory` is its only fault.
pub fn bytes_of_ends(alloc: Global, ends: &BTreeMap<u32, u64>) -> Result<Vec<u8>, Fault>
    ensures ok { IfOk result (λ bytes. bytes.items ≡ ends_bytes ends.now.entries) }
    ensures order { AreBySite ends.now.entries }
    ensures err { IsOkUnless result NoMemory }
{
    let mut bytes = Vec::new(alloc);
    for (site, count) in ends {
        bytes.extend_from_slice(&site.to_be_bytes())?;
        bytes.extend_from_slice(&count.to_be_bytes())?;
    }
    Ok(bytes)
}

// The number and the count that twelve bytes spell.
fn end_of(bytes: &[u8]) -> (u32, u64)
    requires { length bytes.now ≡ 12 }
    ensures spelled { bytes.now ≡ end_bytes result }
    ensures fit { (result.0 < 2 ^ 32) × (result.1 < 2 ^ 64) }
{
    let site = u32::from_be_bytes([bytes[0], bytes[1], bytes[2], bytes[3]]);
    let count = u64::from_be_bytes([
        bytes[4], bytes[5], bytes[6], bytes[7], bytes[8], bytes[9], bytes[10], bytes[11],
    ]);
    (site, count)
}

/// The counts that bytes spell, as `bytes_of_ends` writes them, in any order of sites; of a site that stands twice the
/// first count is taken. `Truncated` where the number of bytes is no multiple of 12, `NoMemory` where a growth was refused.
pub fn ends_of_bytes(alloc: Global, bytes: &[u8]) -> Result<BTreeMap<u32, u64>, Fault>
    ensures ok { IfOk result (λ map. (ends : List (ℕ × ℕ)) × SpellEnds bytes.now ends
        × ((site : ℕ) → unwrap_or (get nat_cmp map site) 0 ≡ known_by ends site)) }
    ensures err { IfErr result (λ fault. (fault ≡ NoMemory) ⊎ ((fault ≡ Truncated) × SpellNoEnds bytes.now)) }
{
    let mut ends = BTreeMap::new(alloc);
    let mut left = bytes;
    while left.len() >= END_BYTES {
        let (front, end) = left.split_at(left.len() - END_BYTES);
        let (site, count) = end_of(end);
        ends.insert(site, count)?;
        left = front;
    }
    if left.is_empty() {
        Ok(ends)
    } else {
        Err(Fault::Truncated)
    }
}
