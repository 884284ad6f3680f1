//! Colors and styles.

ghost use Rattle.std.specs.Prelude.{◌≡◌, None, Some};

/// One of the eight colors of a terminal. An escape code has the number.
#[derive(Clone, Copy, PartialEq, Eq, Hash, Debug)]
pub enum Color {
    /// Number 0.
    Black,
    /// Number 1.
    Red,
    /// Number 2.
    Green,
    /// Number 3.
    Yellow,
    /// Number 4.
    Blue,
    /// Number 5.
    Magenta,
    /// Number 6.
    Cyan,
    /// Number 7.
    White,
}

/// The style of text from here on. What is not set is the terminal's default.
#[derive(Clone, Copy, PartialEq, Eq, Hash, Debug, Default)]
pub struct Style {
    /// The color of the text.
    pub text: Option<Color>,
    /// The color of the background.
    pub background: Option<Color>,
    /// Bold where true, normal where false.
    pub intense: Option<bool>,
}

impl Style {
    /// Returns the style with nothing set.
    pub fn new() -> Style
        ensures { result ≡ record { text = None; background = None; intense = None } }
    {
        Style {
            text: None,
            background: None,
            intense: None,
        }
    }

    /// Sets the color of the text.
    #[must_use]
    pub fn text(self, color: Color) -> Style
        ensures { result ≡ record self { text = Some color } }
    {
        Style {
            text: Some(color),
            ..self
        }
    }

    /// Sets the color of the background.
    #[must_use]
    pub fn background(self, color: Color) -> Style
        ensures { result ≡ record self { background = Some color } }
    {
        Style {
            background: Some(color),
            ..self
        }
    }

    /// Sets the intensity.
    #[must_use]
    pub fn intense(self, intense: bool) -> Style
        ensures { result ≡ record self { intense = Some intense } }
    {
        Style {
            intense: Some(intense),
            ..self
        }
    }
}
