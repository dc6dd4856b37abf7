// The letters of the levels: a trait of their own above the scales, since a search needs none.

ghost use Rattle.std.specs.Prelude.{◌≡◌, List, map};
ghost use Rattle.std.specs.Option.{option_map};
ghost use Rattle.either.specs.Either.{either};
ghost use Rattle.standard.specs.Letters.{Word, Spelling, printed, read_level, asil_names, dal_names};
ghost use Rattle.standard.specs.Spellings.{asil_spelling, dal_spelling};
ghost use Rattle.std.proofs.Common.{rules};

use asil::groups::Asil;
use dal::options::Dal;
use either::Either;
use scale::question::LEVELS;
use scale::scale::Scale;

pub trait LevelNames: Scale {
    // The names of the levels from 0 up.
    ghost names: { Self → List Word };

    // The names of all five levels, from 0 up.
    fn level_names(&self) -> [&str; LEVELS]
        ensures { map (λ name. name.now) result ≡ names self.now };

    // The name of a level, or none above 4.
    fn name(&self, level: u8) -> Option<&str>
        ensures { option_map (λ x. x.now) result ≡ printed (names self.now) level }
    {
        let [first, second, third, fourth, fifth] = self.level_names();
        match level {
            0 => Some(first),
            1 => Some(second),
            2 => Some(third),
            3 => Some(fourth),
            4 => Some(fifth),
            _ => None,
        }
    }

    // The level that a word names, or none.
    fn level(&self, word: &[u8]) -> Option<u8>
        ensures { result ≡ read_level (names self.now) word.now }
    {
        self.level_names()
            .iter()
            .position(|name| word == name.as_bytes())
            .map(|level| level as u8)
    }

    // Printing and reading are inverse to each other.
    ghost spelling: { (s : Self) → Spelling (names s) };
}

impl LevelNames for Asil {
    ghost names = { λ _. asil_names };

    ghost spelling = { λ s. asil_spelling };

    fn level_names(&self) -> [&str; LEVELS] {
        ["QM", "A", "B", "C", "D"]
    }

    // By its bytes, since `assess` asks for every word, and a search of the table takes twice the time.
    fn level(&self, word: &[u8]) -> Option<u8> {
        match word {
            b"QM" => Some(0),
            b"A" => Some(1),
            b"B" => Some(2),
            b"C" => Some(3),
            b"D" => Some(4),
            _ => None,
        }
    }
}

impl LevelNames for Dal {
    ghost names = { λ _. dal_names };

    ghost spelling = { λ s. dal_spelling };

    fn level_names(&self) -> [&str; LEVELS] {
        ["E", "D", "C", "B", "A"]
    }

    // By its bytes, as that of `Asil`.
    fn level(&self, word: &[u8]) -> Option<u8> {
        match word {
            b"E" => Some(0),
            b"D" => Some(1),
            b"C" => Some(2),
            b"B" => Some(3),
            b"A" => Some(4),
            _ => None,
        }
    }
}

impl<A: LevelNames, B: LevelNames> LevelNames for Either<A, B> {
    ghost names = { either A.LevelNames.names B.LevelNames.names };

    ghost spelling = { Prim.search rules };

    fn level_names(&self) -> [&str; LEVELS] {
        match self {
            Either::Left(a) => a.level_names(),
            Either::Right(b) => b.level_names(),
        }
    }

    fn name(&self, level: u8) -> Option<&str> {
        match self {
            Either::Left(a) => a.name(level),
            Either::Right(b) => b.name(level),
        }
    }

    fn level(&self, word: &[u8]) -> Option<u8> {
        match self {
            Either::Left(a) => a.level(word),
            Either::Right(b) => b.level(word),
        }
    }
}
