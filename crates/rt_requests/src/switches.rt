// Words that are switches.
ghost use Rattle.std.specs.Prelude.{◌≡◌, ◌≤◌, length, string_bytes};
ghost use Rattle.std.specs.List.{list_any, prefix_len};
ghost use Rattle.std.specs.Str.{bytes_eq};
ghost use Rattle.rt_stamps.specs.Words.{as_words};
ghost use Rattle.rt_requests.specs.Switches.{has_switch, is_switch};

/// Whether a word is a switch.
pub(crate) fn is_switch(word: &str) -> bool
    ensures { result ≡ is_switch word.now }
{
    word.as_bytes().first() == Some(&b'-')
}

/// How many switches some words begin with.
pub(crate) fn switches_len(words: &[String]) -> usize
    ensures value { result ≡ prefix_len is_switch (as_words words.now) }
    ensures within { result ≤ length words.now }
{
    count_switches(words)
}

// What `switches_len` counts, of the strings themselves.
fn count_switches(words: &[String]) -> usize
    ensures value { result ≡ prefix_len (λ w. is_switch (string_bytes w)) words.now }
    ensures within { result ≤ length words.now }
{
    words.iter().take_while(|word| is_switch(word)).count()
}

/// Whether a switch is given.
pub(crate) fn has(switches: &[String], name: &str) -> bool
    ensures { result ≡ has_switch (as_words switches.now) name.now }
{
    is_among(switches, name)
}

// What `has_switch` asks, of the strings themselves.
fn is_among(switches: &[String], name: &str) -> bool
    ensures { result ≡ list_any (λ w. bytes_eq (string_bytes w) name.now) switches.now }
{
    switches.iter().any(|switch| switch.as_str() == name)
}
