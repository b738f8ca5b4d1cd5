// A small editor, as a program has it that embeds a site: what it shows follows the changes that the site tells, of its
// own edits and of received files by one rule. Only where these aren't known it reads the text.
use rt_requests::{
    Kinds, Limit, Path, PeerRequest, Request, Settings, TagRequest, Texts, WidgetSettings, Word,
    Words,
};
use rt_script::{Reply, SiteState, ToldAnswer, ToldChange};
use rt_stamps::limits::{MOST_BYTES, MOST_CELLS};
use rt_stamps::{FINAL, Fault, Position, Site, Stamp};
use rt_tagcmd::{Element, Key, dump, tag_ranges};
use rt_text::ViewRef;
use rt_tree::TreeStore;
use std::alloc::Global;

/// A character as it is drawn.
#[derive(Clone, Copy)]
pub(crate) struct Glyph {
    pub(crate) character: char,
    pub(crate) is_bold: bool,
}

/// What is shown: the glyphs of the whole text, that of the last newline among them.
pub(crate) struct Screen {
    pub(crate) glyphs: Vec<Glyph>,
}

// Written out, so that each way out of a test lets a screen go in one step of its proof.
impl Drop for Screen {
    fn drop(self) {
        let Screen { glyphs: _ } = self;
    }
}

// Whether the tag that is drawn is among some.
fn has_bold(tags: &[String]) -> bool {
    tags.iter().any(|tag| tag.as_str() == "bold")
}

impl Screen {
    // Text comes in before the glyph at a place.
    fn insert(&mut self, at: usize, text: &[char], is_bold: bool) -> Result<(), Fault> {
        let at = at.min(self.glyphs.len());
        let glyphs = text.iter().map(|character| Glyph {
            character: *character,
            is_bold,
        });
        let _none = self.glyphs.splice(at..at, glyphs)?;
        Ok(())
    }

    // The glyphs from one place up to another go.
    fn delete(&mut self, from: usize, to: usize) {
        let to = to.min(self.glyphs.len());
        drop(self.glyphs.drain(from.min(to)..to));
    }

    // They are drawn bold, or plain.
    fn embolden(&mut self, on: bool, from: usize, to: usize) {
        if let Some(run) = self.glyphs.as_mut_slice().get_mut(from..to) {
            for glyph in run {
                glyph.is_bold = on;
            }
        }
    }

    // Makes a change that a site tells. `NoMemory` is its only fault.
    fn make(&mut self, change: &ToldChange) -> Result<(), Fault> {
        match change {
            ToldChange::Inserted { at, text, tags } => {
                self.insert(*at, text.characters(), has_bold(tags))?;
            }
            ToldChange::Deleted { runs } => {
                for run in runs {
                    self.delete(run.from, run.to);
                }
            }
            ToldChange::Tagged { on, name, runs } => {
                if name.as_str() == "bold" {
                    for run in runs {
                        self.embolden(*on, run.from, run.to);
                    }
                }
            }
        }
        Ok(())
    }

    // A piece of text, behind all.
    fn add(&mut self, text: &str, is_bold: bool) -> Result<(), Fault> {
        for character in text.chars() {
            self.glyphs.push(Glyph { character, is_bold })?;
        }
        Ok(())
    }

    // What the elements of a dump tell.
    fn of(alloc: Global, elements: &[Element]) -> Result<Screen, Fault> {
        let mut screen = Screen {
            glyphs: Vec::new(alloc),
        };
        let mut is_bold = false;
        for element in elements {
            match (element.key(), element.value()) {
                (Key::Text, text) => screen.add(text, is_bold)?,
                (Key::TagOn, "bold") => is_bold = true,
                (Key::TagOff, "bold") => is_bold = false,
                _ => {}
            }
        }
        Ok(screen)
    }

    // The glyphs of a line, counted from 0, without its newline.
    pub(crate) fn line(&self, number: usize) -> Option<&[Glyph]> {
        self.glyphs
            .as_slice()
            .split(|glyph| glyph.character == '\n')
            .nth(number)
    }
}

/// A site, and what is shown of its text.
pub(crate) struct Editor {
    pub(crate) alloc: Global,
    site: SiteState,
    /// The number of its widget.
    number: usize,
    pub(crate) screen: Screen,
    /// How often all was drawn.
    pub(crate) draws: usize,
    /// What is shown isn't the text, as memory was wanting for it.
    pub(crate) is_stale: bool,
    /// The other site's cursor stands before this character.
    guest: Stamp,
}

// Written out, so that each way out of a test lets an editor go in one step of its proof.
impl Drop for Editor {
    fn drop(self) {
        let Editor {
            alloc: _,
            site: _,
            number: _,
            screen: _,
            draws: _,
            is_stale: _,
            guest: _,
        } = self;
    }
}

// Undo is turned on.
const UNDO: Request<'static> = Request::Configure {
    settings: WidgetSettings {
        shared: Settings {
            undo: Some(true),
            auto_separators: None,
            max_undo: None,
        },
        start_line: None,
        end_line: None,
    },
};

// The words of two indices.
fn range(alloc: Global, from: &str, to: &str) -> Result<[String; 2], Fault> {
    Ok([String::from_str(alloc, from)?, String::from_str(alloc, to)?])
}

impl Editor {
    // Of a new site of a number from 1 to 4,294,967,295.
    pub(crate) fn new(alloc: Global, number: u32) -> Result<Editor, Fault> {
        let site = Site::new(number).ok_or(Fault::BadStamp)?;
        let site = SiteState::new(alloc, site, MOST_CELLS)?;
        let number = site.number_of(".t").ok_or(Fault::NoWidget)?;
        let mut editor = Editor {
            alloc,
            site,
            number,
            screen: Screen {
                glyphs: Vec::new(alloc),
            },
            draws: 0,
            is_stale: false,
            guest: FINAL,
        };
        editor.draw()?;
        editor.ask(&UNDO)?;
        Ok(editor)
    }

    // What the site's widget shows, to be read.
    fn widget(&self) -> Result<ViewRef<'_, TreeStore>, Fault> {
        self.site.shown_by(self.number).ok_or(Fault::NoWidget)
    }

    // The glyphs of the lines that the site's widget shows: the part of the whole that it tells.
    pub(crate) fn shown(&self) -> Result<&[Glyph], Fault> {
        let lines = self.widget()?.stretch();
        let glyphs = self.screen.glyphs.get(lines.begin..lines.end);
        glyphs.ok_or(Fault::BadIndex)
    }

    // From here on the lines from one up to before another are shown, by a widget of their own.
    pub(crate) fn show_lines(&mut self, from: usize, to: usize) -> Result<(), Fault> {
        let path = Path::of(".u").ok_or(Fault::BadName)?;
        let settings = WidgetSettings {
            shared: Settings {
                undo: None,
                auto_separators: None,
                max_undo: None,
            },
            start_line: Some(Limit::Line(from)),
            end_line: Some(Limit::Line(to)),
        };
        let create = Request::Peer(PeerRequest::Create { path, settings });
        self.site.answer(".t", &create)?;
        self.number = self.site.number_of(".u").ok_or(Fault::NoWidget)?;
        Ok(())
    }

    // Draws all anew, by the widget that shows all lines.
    fn draw(&mut self) -> Result<(), Fault> {
        self.is_stale = true;
        let kinds = Kinds {
            tags: true,
            marks: false,
            text: true,
        };
        let whole = self.site.widget(".t").ok_or(Fault::NoWidget)?;
        let all = dump(self.alloc, &whole, kinds, "1.0", Some("end"))?;
        self.screen = Screen::of(self.alloc, &all)?;
        self.is_stale = false;
        self.draws = self.draws.saturating_add(1);
        Ok(())
    }

    // Makes changes, one after the other. Draws all anew where memory is wanting for one, or was wanting before.
    fn follow(&mut self, changes: &[ToldChange]) -> Result<(), Fault> {
        if self.is_stale {
            return self.draw();
        }
        for change in changes {
            if self.screen.make(change).is_err() {
                return self.draw();
            }
        }
        Ok(())
    }

    // Shows what a request changed, and answers what was replied to it.
    fn show(&mut self, told: ToldAnswer) -> Result<Reply, Fault> {
        match &told.changes {
            Some(changes) => self.follow(changes)?,
            None => self.draw()?,
        }
        told.reply
    }

    // Asks the site's widget something, and shows what that changed.
    fn ask(&mut self, request: &Request<'_>) -> Result<Reply, Fault> {
        let told = self.site.ask_telling(self.number, request);
        self.show(told)
    }

    // Receives a file of operations, and shows what that changed.
    fn receive(&mut self, bytes: &[u8]) -> Result<(), Fault> {
        if bytes.len() > MOST_BYTES {
            return Err(Fault::ReadFault);
        }
        let told = self.site.receive_telling(bytes);
        self.follow(&told.changes)?;
        match told.received.fault {
            Some((fault, _)) => Err(fault),
            None => Ok(()),
        }
    }

    // Gives another editor what it lacks.
    pub(crate) fn send(&self, other: &mut Editor) -> Result<(), Fault> {
        let bytes = self.site.export_since(&other.site.ends()?)?;
        other.receive(&bytes)
    }

    // Puts text before the character at an index.
    pub(crate) fn insert(&mut self, index: &str, text: &str) -> Result<Reply, Fault> {
        let index = Word::new(index);
        let texts = Texts::new(Vec::new(self.alloc), text);
        self.ask(&Request::Insert { index, texts })
    }

    // Takes the characters of a range away.
    pub(crate) fn delete(&mut self, from: &str, to: &str) -> Result<Reply, Fault> {
        let range = range(self.alloc, from, to)?;
        let indices = Words::new(&range).ok_or(Fault::BadCommand)?;
        self.ask(&Request::Delete { indices })
    }

    // Puts text in the place of the characters of a range.
    pub(crate) fn replace(&mut self, from: &str, to: &str, text: &str) -> Result<Reply, Fault> {
        let from = Word::new(from);
        let to = Word::new(to);
        let texts = Texts::new(Vec::new(self.alloc), text);
        self.ask(&Request::Replace { from, to, texts })
    }

    // Makes the characters of a range bold, or takes that off them.
    pub(crate) fn tag(&mut self, on: bool, from: &str, to: &str) -> Result<Reply, Fault> {
        let range = range(self.alloc, from, to)?;
        let indices = Words::new(&range).ok_or(Fault::BadCommand)?;
        let name = Word::new("bold");
        let request = if on {
            TagRequest::Add { name, indices }
        } else {
            TagRequest::Remove { name, indices }
        };
        self.ask(&Request::Tag(request))
    }

    // Undoes the last edits.
    pub(crate) fn undo(&mut self) -> Result<Reply, Fault> {
        let told = self.site.undo(self.number);
        self.show(told)
    }

    // Does again what was undone last.
    pub(crate) fn redo(&mut self) -> Result<Reply, Fault> {
        let told = self.site.redo(self.number);
        self.show(told)
    }

    // The stamp of the character at a place of what is shown.
    fn stamp_at(&self, place: usize) -> Option<Stamp> {
        self.site.shown_by(self.number)?.stamp_at(place)
    }

    // Tells another editor that this one's cursor stands at a place.
    pub(crate) fn point(&self, place: usize, other: &mut Editor) {
        if let Some(stamp) = self.stamp_at(place) {
            other.guest = stamp;
        }
    }

    // Where the other site's cursor stands in what is shown.
    pub(crate) fn guest_place(&self) -> Option<usize> {
        self.site.shown_by(self.number)?.place_of_stamp(self.guest)
    }

    // The text that is shown, as the site has it.
    pub(crate) fn text(&self) -> Result<String, Fault> {
        self.widget()?.get("1.0", "end")
    }

    // Where ranges that are bold begin and end.
    pub(crate) fn ranges(&self) -> Result<Vec<Position>, Fault> {
        tag_ranges(self.alloc, &self.widget()?, "bold")
    }
}
