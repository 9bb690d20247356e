// Combinations of words by `plan::some_combination`, as another crate calls it. The confounded effects of a plan are the combinations of its block
// words, and AMCP 706-112, Table 12-3, prints them.
use plan::some_combination;

// Five factors (iii), the block words AD, BE and ABC, the lowest bit for A, and all that the table prints for the plan.
const BLOCK_WORDS: [u16; 3] = [0b1001, 0b10010, 0b111];
// AD, BE, ABC, BCD, CDE, ACE, ABDE
const CONFOUNDED: [u16; 7] = [0b1001, 0b10010, 0b111, 0b1110, 0b11100, 0b10101, 0b11011];

#[test]
fn finds_what_the_table_prints(rt: HostRuntime) {
    for effect in 0..32 {
        let printed = CONFOUNDED.contains(&effect);
        assert_eq!(rt;
            some_combination(&BLOCK_WORDS, |word| word == effect),
            printed,
            "the effect {effect}"
        );
    }
}

// More words than a plan has: the seven make each other, and the mean as well, since AD, ABC and BCD together have each letter twice.
#[test]
fn finds_those_of_seven(rt: HostRuntime) {
    for effect in 0..32 {
        let made = effect == 0 || CONFOUNDED.contains(&effect);
        assert_eq!(rt;
            some_combination(&CONFOUNDED, |word| word == effect),
            made,
            "the effect {effect}"
        );
    }
    // ABCDE is made of the five letters by all five words alone.
    assert!(rt; some_combination(&[1, 2, 4, 8, 16], |word| word == 31));
}

// No word makes nothing; fifteen are tried, and sixteen are not.
#[test]
fn finds_none_of_none_or_sixteen(rt: HostRuntime) {
    assert!(rt; !some_combination(&[], |word| word < 1024));
    assert!(rt; some_combination(&[1; 15], |word| word == 1));
    assert!(rt; !some_combination(&[1; 16], |word| word == 1));
}
