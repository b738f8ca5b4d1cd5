// The paths of a site's widgets.
ghost use Rattle.std.specs.Prelude.{◌≡◌, IfOk, IsOkUnless, string_bytes};
ghost use Rattle.std.specs.List.{position};
ghost use Rattle.std.specs.Str.{bytes_eq};
ghost use Rattle.rt_stamps.specs.Words.{as_words};
ghost use Rattle.rt_peers.specs.PeerStep.{other_paths};
ghost use Rattle.rt_peers.specs.SiteValue.{number_of_path};

use rt_stamps::Fault;
use std::alloc::Global;

// Where the first of some strings stands that equals a text. The first one is looked at without a call: most sites have one
// widget.
#[inline(always)]
fn position_of(strings: &[String], text: &str) -> Option<usize>
    ensures { result ≡ position (λ w. bytes_eq (string_bytes w) text.now) strings.now }
{
    if let Some(first) = strings.first() {
        if first.as_str() == text {
            return Some(0);
        }
    }
    strings.iter().position(|string| string.as_str() == text)
}

/// Which of some paths is this one.
#[inline(always)]
pub(crate) fn number_of(paths: &[String], path: &str) -> Option<usize>
    ensures { result ≡ number_of_path path.now (as_words paths.now) }
{
    position_of(paths, path)
}

/// Copies of the paths but one. Want of memory.
pub(crate) fn other_paths(alloc: Global, paths: &[String], path: &str) -> Result<Vec<String>, Fault>
    ensures ok { IfOk result (λ others. as_words others.items ≡ other_paths path.now (as_words paths.now)) }
    ensures err { IsOkUnless result Fault.NoMemory }
{
    let mut others = Vec::new(alloc);
    for other in paths {
        if other.as_str() != path {
            others.push(String::from_str(alloc, other)?)?;
        }
    }
    Ok(others)
}
