// Names of marks and tags.
ghost use Rattle.std.specs.Prelude.{◌≡◌, OnOk, IfErr, length, map};
ghost use Rattle.rt_stamps.specs.Names.{IsName, is_name_length, name_check};
ghost use Rattle.rt_stamps.specs.Outcomes.{first_of, unless};
ghost use Rattle.rt_stamps.specs.Words.{as_words};

use crate::Fault;
use crate::limits::MOST_NAME_BYTES;

/// Whether a name of so many bytes is one that a mark or a tag may have: 1 to `MOST_NAME_BYTES`.
pub fn is_name_length(bytes: usize) -> bool
    ensures { result ≡ is_name_length bytes }
{
    1 <= bytes && bytes <= MOST_NAME_BYTES
}

/// Refuses a word that can't be the name of a mark or a tag. Its only fault is `BadName`.
pub fn check_name(name: &str) -> Result<(), Fault>
    ensures value { result ≡ unless (name_check name.now) tt }
    ensures ok { OnOk result (IsName name.now) }
    ensures err { IfErr result (λ fault. (fault ≡ Fault.BadName) × (IsName name.now → ⊥)) }
{
    if !is_name_length(name.len()) {
        return Err(Fault::BadName);
    }
    Ok(())
}

/// Refuses words of which one can't be a name: `BadName`.
pub fn check_names(names: &[String]) -> Result<(), Fault>
    ensures { result ≡ unless (first_of (map name_check (as_words names.now))) tt }
{
    for name in names {
        check_name(name)?;
    }
    Ok(())
}
