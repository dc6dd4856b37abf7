// The scales of the two standards, by the words that name them.

ghost use Rattle.std.specs.Prelude.{◌≡◌};
ghost use Rattle.standard.specs.Standards.{standard_of, standard_word, WordsInverse};

use asil::groups::Asil;
use dal::options::Dal;
use either::Either;

pub type Standard = Either<Asil, Dal>;

// The scale that a word names, or none; a function and no method, since `Either` and the scales are of other crates.
pub fn standard(word: &[u8]) -> Option<Standard>
    ensures value { result ≡ standard_of word.now }
    ensures inverse { WordsInverse }
{
    match word {
        b"asil" => Some(Either::Left(Asil)),
        b"dal" => Some(Either::Right(Dal)),
        _ => None,
    }
}

// The word that names a scale.
pub fn word(standard: &Standard) -> &str
    ensures { result.now ≡ standard_word standard.now }
{
    match standard {
        Either::Left(_) => "asil",
        Either::Right(_) => "dal",
    }
}
