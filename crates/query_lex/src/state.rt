//! The states of reading a token character by character.

/// The quote of a string.
#[derive(Clone, Copy)]
pub(crate) enum Quote {
    Single,
    Double,
}

/// A text in which escapes may stand.
#[derive(Clone, Copy)]
pub(crate) enum Body {
    Iri,
    /// A string in quotes, in which no line ends.
    Short(Quote),
    /// A string in three quotes on each side.
    Long(Quote),
}

/// How many hexadecimal digits of an escape are to come.
#[derive(Clone, Copy)]
pub(crate) enum Digits {
    One,
    Two,
    Three,
    Four,
    Five,
    Six,
    Seven,
    Eight,
}

/// Whether a number has a sign.
#[derive(Clone, Copy)]
pub(crate) enum Sign {
    Absent,
    Present,
}

/// A part of an IRI or a string.
#[derive(Clone, Copy)]
pub(crate) enum Quoted {
    /// Up to somewhere in it.
    Within(Body),
    /// The same, and a backslash.
    Backslash(Body),
    /// The same, and an escape by number up to somewhere in it.
    Escape(Body, Digits),
    /// A quote.
    Opened(Quote),
    /// Two quotes: the empty string, or the beginning of a long one.
    OpenedTwice(Quote),
    /// A long string up to a quote.
    Closed(Quote),
    /// A long string up to two quotes.
    ClosedTwice(Quote),
}

/// A part of a variable or of a label.
#[derive(Clone, Copy)]
pub(crate) enum Named {
    /// `?` or `$`.
    VarMark,
    /// A variable.
    Var,
    /// `_`.
    Underscore,
    /// `_:`.
    LabelMark,
    /// A label.
    Label,
    /// A label and full stops.
    LabelStop,
}

/// A part of a language tag.
#[derive(Clone, Copy)]
pub(crate) enum Tagged {
    /// `@`.
    Mark,
    /// A tag of letters.
    Letters,
    /// A tag and `-`.
    Dash,
    /// A tag with further parts.
    Subtag,
}

/// A part of a number behind its sign.
#[derive(Clone, Copy)]
pub(crate) enum Number {
    Integer,
    /// An integer and a full stop.
    IntegerStop,
    Decimal,
    /// A number, then `e` or `E`.
    Exponent,
    /// The same and a sign.
    ExponentSign,
    Double,
}

/// A word, or a part of a prefixed name.
#[derive(Clone, Copy)]
pub(crate) enum Prefixed {
    /// Letters of ASCII: a word, or the beginning of a prefix.
    Word,
    /// A prefix up to a character that may end it.
    Prefix,
    /// A prefix up to a full stop.
    PrefixStop,
    /// A prefix with its colon.
    Colon,
    /// A whole name.
    Local,
    /// A name and full stops.
    LocalStop,
    /// A name up to a `%`.
    Percent,
    /// The same and a hexadecimal digit.
    PercentDigit,
    /// A name up to a backslash.
    Backslash,
}

/// What was read of a token.
#[derive(Clone, Copy)]
pub(crate) enum State {
    /// Nothing.
    Start,
    Quoted(Quoted),
    /// An IRI.
    IriEnd,
    /// A string.
    StringEnd,
    Named(Named),
    Tagged(Tagged),
    /// `+` or `-`.
    Sign,
    /// A full stop.
    Stop,
    /// A sign and a full stop.
    SignStop,
    Number(Sign, Number),
    Prefixed(Prefixed),
    /// `^`.
    Caret,
    /// A mark.
    MarkEnd,
}
