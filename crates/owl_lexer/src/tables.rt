//! Automata as tables: what they answer for a character and a state.

ghost use Rattle.std.specs.Prelude.{◌≡◌, IsTrue};
ghost use Rattle.owl_lexer.specs.Tables.{are_ascending, are_classes, class_in, kind_in, step_in};

/// What stands in a row where a class leads nowhere.
pub const NO_STATE: u8 = 255;

/// What stands for the kind of a state where no lexeme is whole.
pub const NO_KIND: u8 = 0;

/// The class of a character. The intervals stand in order, each as its last
/// character and the class of its characters; the others are behind the last.
#[inline(never)]
pub fn class_of(intervals: &[(u32, u8)], others: u8, c: char) -> u8
    requires { IsTrue (are_ascending intervals.now) }
    ensures { result ≡ class_in intervals.now others c }
{
    let place = intervals.partition_point(|interval| interval.0 < c as u32);
    match intervals.get(place) {
        Some((_, class)) => *class,
        None => others,
    }
}

/// The class of a character, as `class_of` tells it, where those of the ASCII
/// characters stand in a table of their own.
#[inline(always)]
pub fn class_by_ascii(ascii: &[u8; 128], intervals: &[(u32, u8)], others: u8, c: char) -> u8
    requires ascending { IsTrue (are_ascending intervals.now) }
    requires classes { IsTrue (are_classes intervals.now others ascii.now) }
    ensures { result ≡ class_in intervals.now others c }
{
    match ascii.get(c as usize) {
        Some(class) => *class,
        None => class_of(intervals, others, c),
    }
}

/// The state to which a class leads from a state, if it leads on.
#[inline(always)]
pub fn step_in<const W: usize>(rows: &[[u8; W]], state: u8, class: u8) -> Option<u8>
    ensures { result ≡ step_in rows.now state class }
{
    let next = *rows.get(state as usize)?.get(class as usize)?;
    if next == NO_STATE { None } else { Some(next) }
}

/// The kind of lexeme that is whole at a state, if one is.
#[inline(always)]
pub fn kind_in(kinds: &[u8], state: u8) -> Option<u8>
    ensures { result ≡ kind_in kinds.now state }
{
    let kind = *kinds.get(state as usize)?;
    if kind == NO_KIND { None } else { Some(kind) }
}
