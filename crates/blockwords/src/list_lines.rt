// The line of a list of block words, in a lent buffer: the words, a colon, and the effects that they confound.
ghost use Rattle.std.specs.Prelude.{◌≡◌, cond, [], ◌∷◌, length};
ghost use Rattle.plan.specs.Plan.{confounded_in};
ghost use Rattle.text.specs.Text.{Wrote, Writes};
ghost use Rattle.blockings.specs.Blockings.{blocked_plan};
ghost use Rattle.blockwords.specs.Listed.{confounded_of, list_line};
ghost use Rattle.blockwords.specs.Inner.Ready.{Blocked};
ghost use Rattle.blockwords.specs.Inner.Written.{space_after, space_before};

use blockings::blocked_plan;
use plan::confounded;
use text::Text;

// Room for every line: none has more than 614 bytes.
pub const LINE: usize = 1024;

// The letters of each word, and a space after each.
fn words_text(text: &mut Text<'_>, list: &[u16])
    ensures { Writes text.old (space_after list.now) text.new }
{
    for word in list {
        text.letters(*word);
        text.put(b' ');
    }
}

// Whether an effect is confounded where the list has the block words of a plan of k factors at two levels, with no added factor.
fn is_confounded(k: u8, list: &[u16], word: u16) -> bool
    requires { Blocked k list.now }
    ensures { result ≡ confounded_in (blocked_plan k list.now) word }
{
    confounded(blocked_plan(k, list), word)
}

// The letters of an effect after a space, if it is confounded.
fn next_effect(text: &mut Text<'_>, word: u16, lost: bool)
    ensures { Writes text.old (space_before (cond lost (word ∷ []) [])) text.new }
{
    if lost {
        text.put(b' ');
        text.letters(word);
    }
}

// The confounded effects, a space before each.
fn effects_text(text: &mut Text<'_>, k: u8, list: &[u16])
    requires { Blocked k list.now }
    ensures { Writes text.old (space_before (confounded_of k list.now)) text.new }
{
    for word in 0..1u16 << k {
        next_effect(text, word, is_confounded(k, list, word));
    }
}

// The line.
fn line_text(text: &mut Text<'_>, k: u8, list: &[u16])
    requires { Blocked k list.now }
    ensures { Writes text.old (list_line k list.now) text.new }
{
    words_text(text, list);
    text.put(b':');
    effects_text(text, k, list);
    text.put(b'\n');
}

// The line, whole: there is room for it.
pub fn list_line(text: &mut [u8; LINE], k: u8, list: &[u16]) -> usize
    requires { Blocked k list.now }
    ensures wrote { Wrote text.old 0 (list_line k list.now) text.new result }
    ensures value { result ≡ length (list_line k list.now) }
{
    let mut line = Text::new(text);
    line_text(&mut line, k, list);
    line.len()
}
