// What a widget tells.
ghost use Rattle.std.specs.Prelude.{◌≡◌, ◌<◌, ◌≤◌, ◌-◌, min, ◌↔◌, IsTrue, IsSome, length, take, drop, slice_index};
ghost use Rattle.rt_stamps.specs.Places.{newlines, line_of, line_start};

/// A widget as index expressions see it. No call takes memory.
pub trait Ground {
    ghost use Rattle.rt_index.specs.Widget.{IndexedWidget, IsProper, tag_first, tag_last};

    /// Its characters, its marks and the ends of its tags.
    ghost widget: { Self → IndexedWidget };

    /// How many characters there are. The last is a newline.
    fn len(&self) -> usize
        ensures { result ≡ length (widget self.now).text };

    /// How many lines there are.
    fn lines(&self) -> usize
        ensures { result ≡ newlines (widget self.now).text };

    /// The character at a place below `len`.
    fn char_at(&self, place: usize) -> char
        requires { place < length (widget self.now).text }
        ensures { result ≡ slice_index (widget self.now).text place };

    /// Puts the characters from a place on into a buffer, from its front on: all that there are, or as many as it
    /// holds. Answers how many these are; what is behind them in the buffer stays.
    fn characters(&self, place: usize, buffer: &mut [char]) -> usize
        ensures count { result ≡ min (length buffer.old) (length (widget self.now).text - place) }
        ensures characters { take result buffer.new ≡ take result (drop place (widget self.now).text) }
        ensures rest { drop result buffer.new ≡ drop result buffer.old };

    /// The first place of a line, from line 1 to line `lines`.
    fn line_start(&self, line: usize) -> usize
        requires first { 1 ≤ line }
        requires last { line ≤ newlines (widget self.now).text }
        ensures { result ≡ line_start (widget self.now).text line };

    /// The line of a place below `len`, from 1 up.
    fn line_of(&self, place: usize) -> usize
        requires { place < length (widget self.now).text }
        ensures { result ≡ line_of (widget self.now).text place };

    /// The place of a mark.
    fn mark(&self, name: &str) -> Option<usize>
        ensures { result ≡ (widget self.now).marks name.now };

    /// Whether a tag is listed.
    fn has_tag(&self, name: &str) -> bool
        ensures { IsTrue result ↔ IsSome ((widget self.now).tags name.now) };

    /// The first place that has a tag; none where the tag isn't listed or no character has it.
    fn tag_first(&self, name: &str) -> Option<usize>
        ensures { result ≡ tag_first (widget self.now) name.now };

    /// The place after the last one that has a tag; none where the tag isn't listed or no
    /// character has it.
    fn tag_last(&self, name: &str) -> Option<usize>
        ensures { result ≡ tag_last (widget self.now) name.now };

    /// What is so of every widget.
    ghost proper: { (s : Self) → IsProper (widget s) };
}
