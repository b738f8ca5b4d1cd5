// Digits.
ghost use Rattle.std.specs.Prelude.{◌≡◌};
ghost use Rattle.std.specs.Char.{is_ascii_digit};
ghost use Rattle.std.specs.List.{list_all};
ghost use Rattle.std.specs.Str.{all_ascii_digits};
ghost use Rattle.rt_requests.specs.MaxUndoWords.{is_number};

/// Whether a text is digits alone.
pub(crate) fn are_digits(text: &[u8]) -> bool
    ensures { result ≡ all_ascii_digits text.now }
{
    are_all_digits(text)
}

/// Whether a text is one digit or more, and nothing else.
pub(crate) fn is_number(text: &[u8]) -> bool
    ensures { result ≡ is_number text.now }
{
    !text.is_empty() && are_digits(text)
}

// What `are_digits` asks, as a test of each byte.
fn are_all_digits(text: &[u8]) -> bool
    ensures { result ≡ list_all (λ c. is_ascii_digit c) text.now }
{
    text.iter().all(|byte| byte.is_ascii_digit())
}
