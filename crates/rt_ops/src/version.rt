// The versions of the operation file.
ghost use Rattle.std.specs.Prelude.{◌≡◌, ◌+◌};
ghost use Rattle.std.specs.Int.{byte_len};
ghost use Rattle.rt_ops.specs.Versions.{fewest, layout, sites};

/// A version of the operation file. An operation is the same in each.
#[derive(Clone, Copy, Debug, PartialEq, Eq)]
pub enum Version {
    /// It begins `RGATEXT1`: a site has 2 bytes, and an Insert lists at most 64 tags.
    One,
    /// It begins `RGATEXT2`: a site has 4 bytes, and an Insert lists at most 255 tags.
    Two,
}

impl Version {
    /// The greatest number of a site that it has room for.
    pub(crate) fn greatest_site(self) -> u32
        ensures { sites self ≡ result + 1 }
    {
        match self {
            Version::One => 0xffff,
            Version::Two => 0xffff_ffff,
        }
    }

    /// The bytes of a span.
    pub(crate) fn span_bytes(self) -> u64
        ensures { result ≡ 16 + byte_len (layout self).site }
    {
        match self {
            Version::One => 18,
            Version::Two => 20,
        }
    }

    /// The least length that a record may have: the bytes that stand before each body.
    pub(crate) fn fewest_record_bytes(self) -> usize
        ensures { result ≡ fewest self }
    {
        match self {
            Version::One => 19,
            Version::Two => 21,
        }
    }

    /// The most tags that an Insert lists.
    pub(crate) fn most_tags(self) -> usize
        ensures { result ≡ (layout self).most_tags }
    {
        match self {
            Version::One => 64,
            Version::Two => 255,
        }
    }
}
