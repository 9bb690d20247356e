// Prints the blocks of the plans of AMCP 706-112, Table 12-3, the runs and aliases of those of its Table 12-4, and the blocks of those of
// Yates's Table 43, by the run and alias calls. `reference/published/amcp.py` and `reference/published/yates.py` have the figures that the
// tables print, and make of them the text that this program must write.
#![tactic(auto)]

mod blocked;
#[cfg(test)]
mod combined;
mod fractional;
mod grouped;
mod text;

use blocked::print_blocked;
use fractional::print_fractional;
use grouped::print_group;
use std::io;
use std::io::Stdout;

// The plans of Table 12-3: factors, the plan's number among those of as many factors, and its block words, the lowest bit for A.
fn blocked_to_five(out: Stdout) -> io::Result<()> {
    // ABC
    print_blocked(out, 3, "i", &[0b111])?;
    // ABCD
    print_blocked(out, 4, "i", &[0b1111])?;
    // AD, ABC
    print_blocked(out, 4, "ii", &[0b1001, 0b111])?;
    // ABCDE
    print_blocked(out, 5, "i", &[0b11111])?;
    // BCE, ADE
    print_blocked(out, 5, "ii", &[0b10110, 0b11001])?;
    // AD, BE, ABC
    print_blocked(out, 5, "iii", &[0b1001, 0b10010, 0b111])
}

fn blocked_to_seven(out: Stdout) -> io::Result<()> {
    // ABCDEF
    print_blocked(out, 6, "i", &[0b111111])?;
    // ABCD, BCEF
    print_blocked(out, 6, "ii", &[0b1111, 0b110110])?;
    // ADE, BCE, ACF
    print_blocked(out, 6, "iii", &[0b11001, 0b10110, 0b100101])?;
    // AD, BE, CF, ABC
    print_blocked(out, 6, "iv", &[0b1001, 0b10010, 0b100100, 0b111])?;
    // ABCDEFG
    print_blocked(out, 7, "i", &[0b1111111])?;
    // ABCD, ABEFG
    print_blocked(out, 7, "ii", &[0b1111, 0b1110011])?;
    // ABCD, BCEF, ACFG
    print_blocked(out, 7, "iii", &[0b1111, 0b110110, 0b1100101])?;
    // ACF, ADE, BCE, CDG
    print_blocked(out, 7, "iv", &[0b100101, 0b11001, 0b10110, 0b1001100])
}

// The plans of Table 12-4: the plan's number, base factors, and the words of the added factors.
fn fractional_to_eight(out: Stdout) -> io::Result<()> {
    // C = AB
    print_fractional(out, 1, 2, &[0b11])?;
    // D = ABC
    print_fractional(out, 2, 3, &[0b111])?;
    // E = ABCD
    print_fractional(out, 3, 4, &[0b1111])?;
    // D = ABC, E = BC
    print_fractional(out, 4, 3, &[0b111, 0b110])?;
    // E = ABC, F = BCD
    print_fractional(out, 5, 4, &[0b111, 0b1110])?;
    // D = ABC, E = BC, F = AC
    print_fractional(out, 6, 3, &[0b111, 0b110, 0b101])?;
    // E = ABC, F = BCD, G = ABD
    print_fractional(out, 7, 4, &[0b111, 0b1110, 0b1011])?;
    // E = ABC, F = BCD, G = ABD, H = ACD
    print_fractional(out, 8, 4, &[0b111, 0b1110, 0b1011, 0b1101])
}

// The groups of Table 43: the name, and the word.
fn groups_of_three_levels(out: Stdout) -> io::Result<()> {
    // A, B squared, C squared
    print_group(out, "W", 25)?;
    // A, B squared, C
    print_group(out, "X", 16)?;
    // A, B, C squared
    print_group(out, "Y", 22)?;
    // A, B, C
    print_group(out, "Z", 13)
}

fn main(rt: HostRuntime) -> io::Result<()> {
    let out = rt.stdout();
    blocked_to_five(out)?;
    blocked_to_seven(out)?;
    fractional_to_eight(out)?;
    groups_of_three_levels(out)
}
