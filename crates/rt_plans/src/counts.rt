// How many counts an insertion takes.
ghost use Rattle.std.specs.Prelude.{◌≡◌, ◌+◌, ◌-◌, ◌*◌, ◌^◌, ◌<◌, ◌≤◌, IfErr, IfOk, min};
ghost use Rattle.rt_stamps.specs.declared.limits.TheConstants.{GREATEST_COUNT, MOST_TAGS};
ghost use Rattle.rt_plans.specs.Insertions.{inserts_for};

use rt_stamps::limits::{MOST_CHARACTERS, MOST_TAGS};
use rt_stamps::{Fault, count_after};

/// How many tags are more than an Insert may list.
pub(crate) fn further(tags: usize) -> usize
    ensures { result ≡ tags - MOST_TAGS }
{
    tags.saturating_sub(MOST_TAGS)
}

// How many Inserts a text takes.
fn inserts_for(characters: usize) -> usize
    ensures { result ≡ inserts_for characters }
{
    characters.div_ceil(MOST_CHARACTERS)
}

// How many counts a text with some tags takes, and no fewer than all 64 bits where these are too few.
fn counts_for(tags: usize, characters: usize) -> u64
    ensures { result ≡ min (characters + inserts_for characters * (tags - MOST_TAGS)) (2 ^ 64 - 1) }
{
    inserts_for(characters)
        .saturating_mul(further(tags))
        .saturating_add(characters) as u64
}

/// The greatest count after a text with some tags, or why there are too few counts.
pub(crate) fn last_count(count: u64, tags: usize, characters: usize) -> Result<u64, Fault>
    requires { count ≤ GREATEST_COUNT }
    ensures ok { IfOk result (λ last. (last ≡ count + (characters + inserts_for characters * (tags - MOST_TAGS))) × (last ≤ GREATEST_COUNT)) }
    ensures err { IfErr result (λ fault. (fault ≡ Fault.ClockSpent)
        × (GREATEST_COUNT < count + (characters + inserts_for characters * (tags - MOST_TAGS)))) }
{
    count_after(count, counts_for(tags, characters))
}
