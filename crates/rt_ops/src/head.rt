// The first eight bytes of a file.
ghost use Rattle.std.specs.Prelude.{◌≡◌, ◌≤◌, length, take};
ghost use Rattle.std.specs.Str.{bytes_eq};
ghost use Rattle.rt_ops.specs.File.{magic};
ghost use Rattle.rt_ops.specs.Reading.{head_of};
ghost use Rattle.rt_ops.specs.Versions.{file_name};

use crate::Version;
use rt_stamps::Fault;

/// The bytes of a file before its records.
pub const HEAD_BYTES: usize = 8;

#[tactic(auto, unfolding(crate::specs::Versions::file_name))]
fn begins_name(front: &[u8]) -> bool
    requires { length front.now ≤ 7 }
    ensures { result ≡ bytes_eq front.now (take (length front.now) file_name) }
{
    b"RGATEXT".as_slice().starts_with(front)
}

/// Whether the first seven bytes are the name of a file, as far as there are any.
fn is_named(front: &[u8]) -> bool
    ensures { result ≡ bytes_eq (take 7 front.now) (take (length front.now) file_name) }
{
    let named = front.len().min(7);
    begins_name(&front[..named])
}

/// The eight bytes with which a file of a version begins.
#[tactic(auto, unfolding(crate::specs::File::magic, crate::specs::Versions::file_name))]
pub fn magic(version: Version) -> [u8; HEAD_BYTES]
    ensures { result ≡ magic version }
{
    match version {
        Version::One => *b"RGATEXT1",
        Version::Two => *b"RGATEXT2",
    }
}

fn is_magic(version: Version, front: &[u8]) -> bool
    ensures { result ≡ bytes_eq front.now (magic version) }
{
    front == magic(version).as_slice()
}

/// The version that the first eight bytes of a file tell, or their fault; of all bytes where there are fewer.
pub fn head_of(front: &[u8]) -> Result<Version, Fault>
    ensures { result ≡ head_of front.now }
{
    if !is_named(front) {
        return Err(Fault::BadMagic);
    }
    if front.len() < HEAD_BYTES {
        return Err(Fault::Truncated);
    }
    if is_magic(Version::One, front) {
        return Ok(Version::One);
    }
    if is_magic(Version::Two, front) {
        return Ok(Version::Two);
    }
    Err(Fault::BadVersion)
}
