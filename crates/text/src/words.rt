// Words between single spaces, taken one after another from the bytes of a line.

ghost use Rattle.std.specs.Prelude.{◌≡◌, ◌<◌, ◌≤◌, List, [], ◌∷◌, length, take, drop, MatchOption};
ghost use Rattle.std.specs.Option.{option_map_or};
ghost use Rattle.std.specs.Iterator.{YieldsFirstBy, item_count};
ghost use Rattle.std.specs.Str.{bytes_eq};
ghost use Rattle.text.specs.Text.{Word, up_to, on_from, past, words_of, fields_of};

use std::marker::Model;

// Where the first byte b stands, or the length where there is none.
pub fn find(text: &[u8], b: u8) -> usize
    ensures place { result ≡ length (up_to b text.now) }
    ensures within { result ≤ length text.now }
    ensures front { take result text.now ≡ up_to b text.now }
    ensures back { drop result text.now ≡ on_from b text.now }
{
    text.iter()
        .position(|byte| *byte == b)
        .unwrap_or(text.len())
}

// What stands before the first byte b, and what stands from it on.
pub fn cut_at(text: &[u8], b: u8) -> (&[u8], &[u8])
    ensures front { result.0.now ≡ up_to b text.now }
    ensures back { result.1.now ≡ on_from b text.now }
    ensures len { length result.1.now ≤ length text.now }
{
    text.split_at(find(text, b))
}

// The next word of fields that each begin with a space, and the fields after it; or none where there is no field.
pub fn next_word(fields: &[u8]) -> Option<(&[u8], &[u8])>
    ensures cut { MatchOption result (fields.now ≡ []) (λ p. (0 < length fields.now) × (p.0.now ≡ up_to 32 (past fields.now)) × (p.1.now ≡ on_from 32 (past fields.now))) }
    ensures words { MatchOption result (fields_of fields.now ≡ []) (λ p. fields_of fields.now ≡ p.0.now ∷ fields_of p.1.now) }
    ensures less { MatchOption result (fields.now ≡ []) (λ p. length p.1.now < length fields.now) }
{
    match fields {
        [] => None,
        [_, rest @ ..] => Some(cut_at(rest, b' ')),
    }
}

// Whether a word is this text.
pub fn same(word: &[u8], text: &[u8]) -> bool
    ensures { result ≡ bytes_eq word.now text.now }
{
    word == text
}

// The words of a line, from the front: one more than there are spaces.
#[derive(Drop)]
pub struct Words<'a> {
    // What follows the last space that was passed, or none once the last word is taken.
    left: Option<&'a [u8]>,
}

impl<'a> Model for Words<'a> {
    ghost Value = { List Word };

    ghost view = { λ words. option_map_or (λ text. words_of text.now) words.left [] };
}

impl<'a> Words<'a> {
    pub fn new(line: &'a [u8]) -> Words<'a>
        ensures { result ≡ words_of line.now }
    {
        Words { left: Some(line) }
    }
}

impl<'a> Iterator for Words<'a> {
    type Item = &'a [u8];

    ghost next_gives = { YieldsFirstBy (λ word. word.now) (λ left. left) };

    ghost remaining = { item_count (λ left. left) };

    fn next(&mut self) -> Option<&'a [u8]> {
        let (word, rest) = cut_at(self.left?, b' ');
        self.left = rest.get(1..);
        Some(word)
    }
}
