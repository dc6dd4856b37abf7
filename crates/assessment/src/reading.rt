// A line read as a question: its words, one after another.

ghost use Rattle.std.specs.Prelude.{◌≡◌, ℕ, ◌<◌, ◌≤◌, ◌||◌, take, IfSome, slice_index};
ghost use Rattle.std.specs.Option.{option_map};
ghost use Rattle.arrayvec.specs.ArrayVec.{array_vec_len};
ghost use Rattle.scale.specs.Question.{bit};
ghost use Rattle.text.specs.Text.{words_of};
ghost use Rattle.assessment.specs.Scales.{level_names};
ghost use Rattle.assessment.specs.Reading.{read_member, read_pair, each, is_of, rows_of, read_members, read_question, asked};

use crate::question::{Levels, Question};
use scale::question::MOST_MEMBERS;
use standard::letters::LevelNames;
use standard::words::{Standard, standard};
use text::words::Words;

// The member whose number a digit is.
fn read_member(digit: u8, members: usize) -> Option<usize>
    ensures { result ≡ read_member members digit }
{
    let number = usize::from(digit.checked_sub(b'0')?);
    (number < members).then_some(number)
}

// The two different members that a word names with a dash between them.
fn read_pair(word: &[u8], members: usize) -> Option<(usize, usize)>
    ensures { result ≡ read_pair members word.now }
{
    let [first, b'-', second] = word else {
        return None;
    };
    let i = read_member(*first, members)?;
    let j = read_member(*second, members)?;
    (i != j).then_some((i, j))
}

// Declares two members independent: each one's row gets the other's bit.
fn declare(rows: &mut [u8; MOST_MEMBERS], i: usize, j: usize)
    requires first { i < 8 }
    requires second { j < 8 }
    ensures bits { (k b : ℕ) → k < 8 → b < 8 → bit (slice_index rows.new k) b ≡ (bit (slice_index rows.old k) b || is_of (i, j) k b) }
    ensures bytes { ((k : ℕ) → slice_index rows.old k < 256) → (k : ℕ) → slice_index rows.new k < 256 }
{
    rows[i] |= 1 << j;
    rows[j] |= 1 << i;
}

// The rows of the members, of whom the words declare pairs to be independent.
fn read_pairs(words: Words, members: usize) -> Option<[u8; MOST_MEMBERS]>
    requires { members ≤ 8 }
    ensures { result ≡ option_map (λ pairs. rows_of pairs 8) (each (read_pair members) words.entry) }
{
    let mut rows = [0; MOST_MEMBERS];
    for word in words {
        let (i, j) = read_pair(word, members)?;
        declare(&mut rows, i, j);
    }
    Some(rows)
}

// The levels of one to eight members, up to the slash; the words after it are the caller's.
fn read_members(standard: &Standard, words: &mut Words) -> Option<Levels>
    ensures read { option_map (λ levels. (levels.items, words.new)) result ≡ read_members (level_names standard.now) words.old }
    ensures few { IfSome result (λ levels. array_vec_len levels ≤ 8) }
{
    let mut levels = Levels::new();
    while let Some(word) = words.next() {
        if word == b"/".as_slice() {
            return (!levels.is_empty()).then_some(levels);
        }
        levels.try_push(standard.level(word)?).ok()?;
    }
    None
}

// The question that a line writes, or none.
pub fn read_question(line: &[u8]) -> Option<Question>
    ensures { option_map (λ q. (q.standard, q.required, q.levels.items, take (array_vec_len q.levels) q.rows)) result ≡ option_map asked (read_question (words_of line.now)) }
{
    let mut words = Words::new(line);
    let standard = standard(words.next()?)?;
    let required = standard.level(words.next()?)?;
    let levels = read_members(&standard, &mut words)?;
    let rows = read_pairs(words, levels.len())?;
    Some(Question {
        standard,
        required,
        levels,
        rows,
    })
}
