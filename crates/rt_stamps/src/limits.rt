// Each limit once. Definitions cite them from here too.
ghost use Rattle.std.specs.Prelude.{◌≡◌};
ghost use Rattle.rt_stamps.specs.Streams.{FILE_BOUNDS};

/// The greatest count of a stamp, 2^48 - 1.
pub const GREATEST_COUNT: u64 = 0xffff_ffff_ffff;

/// The greatest number of a site.
pub const GREATEST_SITE: u32 = 0xffff_ffff;

/// The most cells of a site, the final newline and tombstones included, 2^31 - 1.
pub const MOST_CELLS: usize = 0x7fff_ffff;

/// The most bytes of the name of a tag or a mark.
pub const MOST_NAME_BYTES: usize = 255;

/// The most characters of an Insert.
pub const MOST_CHARACTERS: usize = 65_535;

/// The most tags that an Insert lists.
pub const MOST_TAGS: usize = 255;

/// The most spans of a Delete or a Tag.
pub const MOST_SPANS: usize = 65_536;

/// The most bytes of a record of a file, its length field not counted.
pub const MOST_RECORD_BYTES: usize = 2_097_152;

/// The most bytes of a line of a script, its newline and a carriage return before that not counted.
pub const MOST_LINE_BYTES: usize = 1_048_576;

/// The most bytes of a script or a file, 2^30.
pub const MOST_BYTES: usize = 0x4000_0000;

/// The most reads of a script or a file, 2^31.
pub const MOST_READS: usize = 0x8000_0000;

/// The most bytes of one read.
pub const PIECE_BYTES: usize = 1024;

/// How much of an input is read at most.
#[derive(Clone, Copy, Debug, PartialEq, Eq)]
pub struct Bounds {
    /// So many bytes; an input of just these is whole.
    pub bytes: usize,
    /// In so many reads, the one that finds the end among them.
    pub reads: usize,
}

impl Bounds {
    /// Those of a script or a file: `MOST_BYTES` and `MOST_READS`.
    pub fn of_file() -> Bounds
        ensures { result ≡ FILE_BOUNDS }
    {
        Bounds {
            bytes: MOST_BYTES,
            reads: MOST_READS,
        }
    }
}
