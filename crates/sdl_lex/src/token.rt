//! Tokens.

/// The kind of a token.
#[derive(Clone, Copy, Debug, PartialEq, Eq)]
pub enum Kind {
    /// A letter, then letters, digits and `_`.
    Word,
    /// A row of decimal digits, and its value.
    Number(i64),
    /// A character string, from quote to quote, in which `''` stands for one quote.
    Text,
    /// One of `:=` `/=` `<=` `>=` `=>` `(` `)` `,` `;` `:` `=` `<` `>` `+` `-` `*` `/`.
    Mark,
}

/// A slice of the text, from the byte at `start` up to the byte before `end`.
#[derive(Clone, Copy, Debug, PartialEq, Eq)]
pub struct Token {
    pub kind: Kind,
    pub start: usize,
    pub end: usize,
}
