// What a caller of `at_most` gets, beside what was counted by hand.

use crate::at_most;

// The words 9 2 9 0 9 2 9, and 7 past them.
fn given(k: usize) -> u64 {
    [9, 2, 9, 0, 9, 2, 9].get(k).copied().unwrap_or(7)
}

// What is wanted, where it is not so.
fn wanted(what: &'static str, so: bool) -> Result<(), &'static str> {
    if so { Ok(()) } else { Err(what) }
}

#[test]
fn asks_the_words_a_step_apart() -> Result<(), &'static str> {
    wanted("2 0 2: none above 2", at_most(given, 1, 3, 2, 2))?;
    wanted(
        "2 0 2: the first and the last above 1",
        !at_most(given, 1, 3, 2, 1),
    )?;
    wanted("2 0: the first above 1", !at_most(given, 1, 2, 2, 1))?;
    wanted("0 2: the last above 1", !at_most(given, 3, 2, 2, 1))?;
    wanted("0 alone: not above 0", at_most(given, 3, 1, 2, 0))?;
    wanted("no word: none above 0", at_most(given, 0, 0, 1, 0))?;
    wanted(
        "7 7, past the words: none above 7",
        at_most(given, 7, 2, 5, 7),
    )?;
    wanted(
        "100 200 300 400: none above 400",
        at_most(|k| k as u64, 100, 4, 100, 400),
    )?;
    wanted(
        "100 200 300 400: the last above 399",
        !at_most(|k| k as u64, 100, 4, 100, 399),
    )
}
