// A value of either of two kinds of scale is a scale, by its own kind's meaning.

ghost use Rattle.std.specs.Prelude.{◌≡◌};
ghost use Rattle.either.specs.Either.{either};
ghost use Rattle.std.proofs.Common.{rules};

use crate::scale::Scale;
use either::Either;

impl<A: Scale, B: Scale> Scale for Either<A, B> {
    ghost means = { either A.Scale.means B.Scale.means };

    ghost laws = { Prim.search rules };

    fn met(&self, required: u8, levels: &[u8], rows: &[u8]) -> bool {
        match self {
            Either::Left(a) => a.met(required, levels, rows),
            Either::Right(b) => b.met(required, levels, rows),
        }
    }
}
