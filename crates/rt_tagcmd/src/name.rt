// Words that may be names.
ghost use Rattle.std.specs.Prelude.{◌≡◌, ◌∷◌, map, option_copied, option_to_list, string_bytes};
ghost use Rattle.rt_stamps.specs.Outcomes.{first_of, unless};
ghost use Rattle.rt_stamps.specs.Names.{name_check};

use rt_stamps::{Fault, check_name};

/// Refuses a word, and perhaps another, that can't be a name.
pub(crate) fn check_both(name: &str, other: Option<&str>) -> Result<(), Fault>
    ensures { result ≡ unless (first_of (map name_check (name.now ∷ option_to_list (option_copied other.entry)))) tt }
{
    check_name(name)?;
    match other {
        Some(other) => check_name(other),
        None => Ok(()),
    }
}
