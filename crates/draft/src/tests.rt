// A draft worked by hand through its public calls; memory for it is found, which no contract says.

use crate::draft::Draft;
use cost::quote::Quote;
use std::test::Fail;
use theory::refusal::Refusal;

const QUOTES: [Quote; 5] = [
    Quote { price: 0, weeks: 0 },
    Quote {
        price: 10,
        weeks: 1,
    },
    Quote {
        price: 20,
        weeks: 2,
    },
    Quote {
        price: 40,
        weeks: 4,
    },
    Quote {
        price: 80,
        weeks: 8,
    },
];

#[test]
fn parts_and_pairs(rt: HostRuntime) -> Result<(), Fail> {
    let mut draft = Draft::new(rt.alloc())?;
    assert_eq!(rt; draft.part(0, 4, QUOTES), Ok(0));
    assert_eq!(rt; draft.part(1, 3, QUOTES), Ok(1));
    assert_eq!(rt; draft.part(3, 1, QUOTES), Err(Refusal::NoRange));
    assert_eq!(rt; draft.range(1, 2, 2), Ok(()));
    assert_eq!(rt; draft.range(2, 0, 4), Err(Refusal::NoSuchPart));
    assert_eq!(rt; draft.apart(1, 0, true), Ok(()));
    assert_eq!(rt; draft.apart(1, 1, true), Err(Refusal::SamePart));
    assert_eq!(rt; draft.are_apart(0, 1), Some(true));
    assert_eq!(rt; draft.are_apart(0, 2), None);
    assert_eq!(rt; draft.part_at(1).map(|part| part.ceiling), Some(2));
    assert_eq!(rt; draft.part_count(), 2);
    draft.close();
    Ok(())
}

#[test]
fn sets_and_clearing(rt: HostRuntime) -> Result<(), Fail> {
    let mut draft = Draft::new(rt.alloc())?;
    assert_eq!(rt; draft.part(0, 4, QUOTES), Ok(0));
    assert_eq!(rt; draft.part(0, 4, QUOTES), Ok(1));
    assert_eq!(rt; draft.cut(4, &[0, 1]), Ok(0));
    assert_eq!(rt; draft.cut(2, &[1]), Ok(1));
    assert_eq!(rt; draft.cut(4, &[1, 0]), Err(Refusal::NotAscending));
    assert_eq!(rt; draft.cut(4, &[7, 0]), Err(Refusal::NoSuchPart));
    let kept = draft.set_at(0).copied();
    assert_eq!(rt; draft.drop_set(0), Ok(()));
    assert_eq!(rt; kept.map(|set| set.required()), Some(4));
    assert_eq!(rt; draft.drop_set(1), Err(Refusal::NoSuchSet));
    assert_eq!(rt; draft.set_count(), 1);
    assert_eq!(rt; draft.set_at(0).map(|set| set.required()), Some(2));
    draft.clear();
    assert_eq!(rt; draft.part_count(), 0);
    assert_eq!(rt; draft.set_count(), 0);
    draft.close();
    Ok(())
}
