//! Tokens.
ghost use Rattle.std.specs.Prelude.{◌≡◌, ◌↔◌, true, take, IsTrue};
ghost use Rattle.oci_types.specs.Reading.{ReadsWord, ReadsWordBy};
ghost use Rattle.oci_types.specs.Token.{IsToken, is_token, is_b64token, is_token_character, place_after, is_end};

use crate::{NameFault, byte};
use std::alloc::Global;
use std::marker::Model;

/// The most bytes of a token.
pub const LONGEST_TOKEN: usize = 200;

/// How many characters the beginning of a token has.
const SHOWN: usize = 4;

/// How far a token has been read.
#[derive(Clone, Copy)]
enum Place {
    Start,
    Character,
    /// After one or more `=`.
    Padding,
    /// What was read begins no token.
    Outside,
}

impl Place {
    fn after(self, byte: u8) -> Place
        ensures { result ≡ place_after self byte }
    {
        match self {
            Place::Start | Place::Character if is_character(byte) => Place::Character,
            Place::Character | Place::Padding if byte == b'=' => Place::Padding,
            _ => Place::Outside,
        }
    }

    fn is_last(self) -> bool
        ensures { result ≡ is_end self }
    {
        matches!(self, Place::Character | Place::Padding)
    }
}

/// `[A-Za-z0-9._~+/-]`
fn is_character(byte: u8) -> bool
    ensures { result ≡ is_token_character byte }
{
    byte::is_letter_or_digit(byte) || matches!(byte, b'.' | b'_' | b'~' | b'+' | b'/' | b'-')
}

fn has_b64token(text: &str) -> bool
    ensures { result ≡ is_b64token text.now }
{
    text.bytes()
        .fold(Place::Start, |place, byte| place.after(byte))
        .is_last()
}

fn is_token_text(text: &str) -> bool
    ensures test { result ≡ is_token text.now }
    ensures grammar { IsTrue result ↔ IsToken text.now }
{
    text.len() <= LONGEST_TOKEN && has_b64token(text)
}

/// A bearer token (RFC 6750, section 2.1, `b64token`) of at most 200 bytes (profile).
#[derive(Clone, Debug)]
pub struct Token {
    text: String,
}

impl Drop for Token {
    fn drop(self) {
        let Token { text: _ } = self;
    }
}

impl Model for Token {
    ghost use Rattle.std.specs.Prelude.{◌≡◌, List, ℕ, true, string_bytes};
    ghost use Rattle.oci_types.specs.Token.{is_token};

    ghost Value = { List ℕ };

    ghost view = { λ token. string_bytes token.text };

    ghost invariant = { λ token. is_token (string_bytes token.text) ≡ true };
}

impl Token {
    /// The token that the text is. `NameFault::Token` where it is none.
    pub fn parse(alloc: Global, text: &str) -> Result<Token, NameFault>
        ensures read { ReadsWord result text.now (is_token text.now) NameFault.Token }
        ensures grammar { ReadsWordBy result (IsToken text.now) NameFault.Token }
    {
        if !is_token_text(text) {
            return Err(NameFault::Token);
        }
        let text = String::from_str(alloc, text)?;
        Ok(Token { text })
    }

    pub fn as_str(&self) -> &str
        ensures text { result.now ≡ self.now }
        ensures valid { is_token result.now ≡ true }
    {
        let text = &self.text;
        text.as_str()
    }

    /// Its first four characters; all of them where it has no more. So a token is shown where it is not to be
    /// told.
    pub fn beginning(&self) -> &str
        ensures { result.now ≡ take 4 self.now }
    {
        let text = self.as_str();
        &text[..SHOWN.min(text.len())]
    }
}
