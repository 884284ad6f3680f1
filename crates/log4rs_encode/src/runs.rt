//! Styled text.
ghost use Rattle.std.specs.Prelude.{◌≡◌, ◌↔◌, ◌∷◌, ◌++◌, [], IsTrue, OnOk, OnErr, IfOk, None, option_map, string_bytes};

use crate::styles::Style;
use log4rs_base::OutOfMemory;
use std::alloc::Global;
use std::marker::Model;
use std::mem;

/// A text, which is not empty, or the style of the texts after it.
#[derive(Clone, Copy)]
pub enum Run<'a> {
    /// A text.
    Text(&'a str),
    /// A style.
    Style(Style),
}

/// A style, and the text before it, which may be empty.
#[derive(Drop)]
pub(crate) struct Styling {
    text: String,
    style: Style,
}

/// Texts, and styles between them. No text is empty, and no two texts are adjacent.
#[derive(Drop)]
pub struct Styled {
    /// The styles in order.
    styles: Vec<Styling>,
    /// The text behind them, which may be empty.
    text: String,
    /// The memory of removed texts, for later ones.
    spare: Vec<String>,
}

impl Model for Styled {
    ghost use Rattle.std.specs.Prelude.{List, string_bytes};
    ghost use Rattle.log4rs_encode.specs.Runs.{Run, runs_in};

    ghost Value = { List Run };

    ghost view = { λ s. runs_in s.styles.items (string_bytes s.text) };
}

impl Styled {
    ghost use Rattle.log4rs_encode.specs.Runs.{text, style, join, plain_bytes, only_text, IsJoined, AreWhole};

    /// Creates an empty styled text.
    pub fn new(alloc: Global) -> Styled
        ensures { result ≡ [] }
    {
        Styled {
            styles: Vec::new(alloc),
            text: String::new(alloc),
            spare: Vec::new(alloc),
        }
    }

    /// Returns whether it has no runs.
    pub fn is_empty(&self) -> bool
        ensures { IsTrue result ↔ (self.now ≡ []) }
    {
        self.text.is_empty() && self.styles.is_empty()
    }

    /// Removes all runs, and keeps their memory for later ones.
    pub fn clear(&mut self)
        ensures { self.new ≡ [] }
    {
        while let Some(styling) = self.styles.pop() {
            keep_room(&mut self.spare, styling.text);
        }
        self.text.clear();
    }

    /// Returns the runs in order.
    pub fn runs(&self) -> Runs<'_>
        ensures runs { result ≡ self.now }
        ensures joined { IsJoined self.now }
        ensures whole { AreWhole self.now }
    {
        Runs {
            styles: self.styles.as_slice(),
            is_past_text: false,
            text: self.text.as_str(),
        }
    }

    /// Returns the text, if there are no styles.
    pub fn as_text(&self) -> Option<&str>
        ensures { option_map (λ text. text.now) result ≡ only_text self.now }
    {
        if self.styles.is_empty() {
            return Some(self.text.as_str());
        }
        None
    }

    /// Allocates room for that many bytes of text behind the last style, unless there is as much.
    /// No clause tells of the room.
    #[inline(always)]
    pub fn reserve(&mut self, additional: usize) -> Result<(), OutOfMemory>
        ensures { self.new ≡ self.old }
    {
        self.text.reserve_exact(additional)?;
        Ok(())
    }

    /// Appends a text.
    pub fn push_text(&mut self, added: &str) -> Result<(), OutOfMemory>
        ensures ok { OnOk result (self.new ≡ join (self.old ++ text added.now ∷ [])) }
        ensures err { OnErr result (self.new ≡ self.old) }
    {
        self.text.push_str(added)?;
        Ok(())
    }

    /// Creates an empty styled text in the memory of a text that is not needed any more.
    pub(crate) fn in_room(room: String) -> Styled
        ensures { result ≡ [] }
    {
        let alloc = *room.allocator();
        let mut text = room;
        text.clear();
        Styled {
            styles: Vec::new(alloc),
            text,
            spare: Vec::new(alloc),
        }
    }

    /// Returns an empty text, in the memory of a removed one if there is one.
    pub fn spare_text(&mut self) -> String
        ensures text { string_bytes result ≡ [] }
        ensures same { self.new ≡ self.old }
    {
        kept_room(*self.styles.allocator(), &mut self.spare)
    }

    /// Keeps the memory of a text that is not needed any more.
    pub fn keep_spare(&mut self, gone: String)
        ensures { self.new ≡ self.old }
    {
        keep_room(&mut self.spare, gone);
    }

    /// Removes the text behind the last style, and returns it.
    #[inline(always)]
    pub(crate) fn take_end(&mut self) -> String
        ensures { join (self.new ++ text (string_bytes result) ∷ []) ≡ self.old }
    {
        mem::replace(&mut self.text, String::new(*self.styles.allocator()))
    }

    /// Appends a text. Moves it if there is none behind the last style.
    #[inline(always)]
    pub fn push_string(&mut self, added: String) -> Result<(), OutOfMemory>
        ensures ok { OnOk result (self.new ≡ join (self.old ++ text (string_bytes added) ∷ [])) }
        ensures err { OnErr result (self.new ≡ self.old) }
    {
        if self.text.is_empty() {
            let gone = mem::replace(&mut self.text, added);
            keep_room(&mut self.spare, gone);
            return Ok(());
        }
        self.text.push_str(&added)?;
        keep_room(&mut self.spare, added);
        Ok(())
    }

    /// Appends another styled text. Allocates everything before anything moves.
    pub fn append(&mut self, other: Styled) -> Result<(), OutOfMemory>
        ensures ok { OnOk result (self.new ≡ join (self.old ++ other)) }
        ensures err { OnErr result (self.new ≡ self.old) }
    {
        let mut added = other.styles;
        if added.is_empty() {
            return self.push_string(other.text);
        }
        self.styles.reserve(added.len())?;
        let first = added.remove(0);
        self.text.push_str(&first.text)?;
        self.styles.push_reserved(Styling {
            text: mem::replace(&mut self.text, other.text),
            style: first.style,
        });
        self.styles.append(&mut added)?;
        Ok(())
    }

    /// Returns the texts without styles, joined. A text without styles is moved.
    pub fn into_text(self) -> Result<String, OutOfMemory>
        ensures text { IfOk result (λ text. string_bytes text ≡ plain_bytes self) }
        // A text without styles is moved, and needs no memory.
        ensures moved { OnErr result (only_text self ≡ None) }
    {
        if self.styles.is_empty() {
            return Ok(self.text);
        }
        self.to_text()
    }

    /// Removes all runs, and returns their texts without styles, joined. A text without styles is
    /// moved.
    #[inline(always)]
    pub fn take_text(&mut self) -> Result<String, OutOfMemory>
        ensures text { IfOk result (λ text. string_bytes text ≡ plain_bytes self.old) }
        ensures empty { OnOk result (self.new ≡ []) }
        ensures err { OnErr result (self.new ≡ self.old) }
        // A text without styles is moved, and needs no memory.
        ensures moved { OnErr result (only_text self.old ≡ None) }
    {
        if self.styles.is_empty() {
            let nothing = String::new(*self.styles.allocator());
            return Ok(mem::replace(&mut self.text, nothing));
        }
        let text = self.to_text()?;
        self.clear();
        Ok(text)
    }

    /// Copies the texts without styles, joined.
    pub fn to_text(&self) -> Result<String, OutOfMemory>
        ensures { IfOk result (λ text. string_bytes text ≡ plain_bytes self.now) }
    {
        let mut text = String::new(*self.styles.allocator());
        for run in self.runs() {
            if let Run::Text(more) = run {
                text.push_str(more)?;
            }
        }
        Ok(text)
    }

    /// Appends a style.
    pub fn set_style(&mut self, added: Style) -> Result<(), OutOfMemory>
        ensures ok { OnOk result (self.new ≡ self.old ++ style added ∷ []) }
        ensures err { OnErr result (self.new ≡ self.old) }
    {
        self.styles.reserve(1)?;
        let room = kept_room(*self.styles.allocator(), &mut self.spare);
        self.styles.push_reserved(Styling {
            text: mem::replace(&mut self.text, room),
            style: added,
        });
        Ok(())
    }
}

/// The number of removed texts whose memory is kept.
const SPARE_TEXTS: usize = 8;

/// Keeps the memory of a text, unless it has none or there is enough.
#[inline(always)]
fn keep_room(spare: &mut Vec<String>, text: String) {
    if text.capacity() == 0 {
        return;
    }
    if spare.len() < spare.capacity() {
        spare.push_reserved(text);
    } else {
        keep_more(spare, text);
    }
}

/// Keeps the memory of one more text, unless there are enough.
#[inline(never)]
fn keep_more(spare: &mut Vec<String>, text: String) {
    if spare.len() < SPARE_TEXTS {
        // Where there is no memory for it, the text goes.
        let _ = spare.push(text);
    }
}

/// Returns an empty text in kept memory.
fn kept_room(alloc: Global, spare: &mut Vec<String>) -> String
    ensures { string_bytes result ≡ [] }
{
    match spare.pop() {
        Some(kept) => {
            let mut room = kept;
            room.clear();
            room
        }
        None => String::new(alloc),
    }
}

/// The runs of styled text, in order.
#[derive(Drop)]
pub struct Runs<'a> {
    styles: &'a [Styling],
    /// Whether the text before the first of the styles was given.
    is_past_text: bool,
    text: &'a str,
}

impl<'a> Model for Runs<'a> {
    ghost use Rattle.std.specs.Prelude.{List};
    ghost use Rattle.log4rs_encode.specs.Runs.{Run, runs_behind};

    ghost Value = { List Run };

    ghost view = { λ it. runs_behind it.is_past_text it.styles.now it.text.now };
}

impl<'a> Iterator for Runs<'a> {
    ghost use Rattle.std.specs.Iterator.{YieldsFirstBy, item_count};
    ghost use Rattle.log4rs_encode.specs.Runs.{run_of};

    type Item = Run<'a>;

    ghost next_gives = { YieldsFirstBy run_of (λ rest. rest) };

    ghost remaining = { item_count (λ rest. rest) };

    fn next(&mut self) -> Option<Run<'a>> {
        let Some((first, others)) = self.styles.split_first() else {
            let last = mem::replace(&mut self.text, "");
            return if last.is_empty() {
                None
            } else {
                Some(Run::Text(last))
            };
        };
        if !self.is_past_text && !first.text.is_empty() {
            self.is_past_text = true;
            return Some(Run::Text(first.text.as_str()));
        }
        self.styles = others;
        self.is_past_text = false;
        Some(Run::Style(first.style))
    }
}
