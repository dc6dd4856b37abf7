// Questions worked by hand, put to the scales through their public calls.
#![tactic(auto)]

#[cfg(test)]
mod tests {
    use asil::groups::Asil;
    use dal::options::Dal;
    use either::Either;
    use scale::scale::Scale;
    use standard::letters::LevelNames;
    use standard::words::{Standard, standard, word};
    use std::process::Abort;

    // A required level, the members' levels, their rows, and whether that is met.
    #[derive(Clone, Copy)]
    struct Case<'a>(u8, &'a [u8], &'a [u8], bool);

    fn ask<S: Scale>(rt: &impl Abort, scale: &S, cases: &[Case]) {
        for case in cases {
            let Case(required, levels, rows, met) = case;
            assert_eq!(rt; scale.met(*required, levels, rows), *met);
        }
    }

    #[test]
    fn asil_adds_the_levels_of_a_group(rt: HostRuntime) {
        ask(
            &rt,
            &Asil,
            &[
                Case(4, &[2, 2], &[0b10, 0b01], true),
                Case(4, &[2, 2], &[0, 0], false),
                // declared by one of the two only
                Case(4, &[2, 2], &[0b10, 0], false),
                Case(4, &[2, 2], &[0, 0b01], false),
                // the first is apart from both others, and then all three from one another
                Case(4, &[2, 1, 1], &[0b110, 0b001, 0b001], false),
                Case(4, &[2, 1, 1], &[0b110, 0b101, 0b011], true),
                Case(3, &[3], &[0], true),
                Case(3, &[2, 0], &[0b10, 0b01], false),
                // the last two of eight
                Case(
                    4,
                    &[0, 0, 0, 0, 0, 0, 2, 2],
                    &[0, 0, 0, 0, 0, 0, 0x80, 0x40],
                    true,
                ),
            ],
        );
    }

    #[test]
    fn dal_asks_for_an_option(rt: HostRuntime) {
        ask(
            &rt,
            &Dal,
            &[
                Case(4, &[3, 3], &[0b10, 0b01], true),
                Case(4, &[3, 3], &[0, 0], false),
                Case(4, &[4, 1], &[0b10, 0b01], false),
                Case(4, &[4, 2], &[0, 0], true),
                // there is no pair option at the lowest level
                Case(1, &[0, 0], &[0b10, 0b01], false),
                Case(1, &[0, 1], &[0, 0], true),
                Case(2, &[1, 1, 0], &[0b010, 0b001, 0], true),
                Case(3, &[2, 2, 0], &[0b010, 0b001, 0], false),
                Case(3, &[2, 2, 1], &[0b010, 0b001, 0], true),
            ],
        );
    }

    #[test]
    fn a_question_that_is_not_well_formed_is_not_met(rt: HostRuntime) {
        let cases = [
            Case(0, &[], &[], false),
            Case(1, &[1, 1], &[0], false),
            Case(1, &[5], &[0], false),
            Case(5, &[4, 4], &[0b10, 0b01], false),
            Case(1, &[1; 8], &[0; 8], true),
            Case(1, &[1; 9], &[0; 9], false),
            Case(0, &[0], &[0], true),
        ];
        ask(&rt, &Asil, &cases);
        ask(&rt, &Dal, &cases);
    }

    #[test]
    fn a_scale_of_either_kind_answers_by_its_own(rt: HostRuntime) {
        let automotive: Standard = Either::Left(Asil);
        let avionics: Standard = Either::Right(Dal);
        ask(&rt, &automotive, &[Case(4, &[4, 1], &[0, 0], true)]);
        ask(&rt, &avionics, &[Case(4, &[4, 1], &[0, 0], false)]);
    }

    #[test]
    fn each_scale_has_its_letters(rt: HostRuntime) {
        let automotive: Standard = Either::Left(Asil);
        let avionics: Standard = Either::Right(Dal);
        assert_eq!(rt; automotive.name(0), Some("QM"));
        assert_eq!(rt; avionics.name(4), Some("A"));
        assert_eq!(rt; automotive.name(5), None);
        assert_eq!(rt; automotive.level(b"D"), Some(4));
        assert_eq!(rt; avionics.level(b"D"), Some(1));
        assert_eq!(rt; avionics.level(b"QM"), None);
    }

    #[test]
    fn each_scale_has_its_word(rt: HostRuntime) {
        assert_eq!(rt; standard(b"asil"), Some(Either::Left(Asil)));
        assert_eq!(rt; standard(b"DAL"), None);
        assert_eq!(rt; word(&Either::Right(Dal)), "dal");
    }
}
