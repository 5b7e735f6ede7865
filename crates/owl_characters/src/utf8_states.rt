//! The bytes of a character that is begun, and what one more byte makes of them.

ghost use Rattle.std.specs.Prelude.{◌≡◌, ◌≤◌, ◌∷◌, [], ◌++◌};
ghost use Rattle.owl_characters.specs.Feeding.{IsBegun, IsLead, Judges, held_of, last_second, least_second};

/// The bytes of a character that is begun.
#[derive(Clone, Copy, Debug, PartialEq, Eq)]
pub enum Partial {
    Nothing,
    One(u8),
    Two(u8, u8),
    Three(u8, u8, u8),
}

/// What the bytes so far are.
#[derive(Clone, Copy, Debug, PartialEq, Eq)]
pub enum Judged {
    /// A character that is begun.
    Goes(Partial),
    /// This character.
    Whole(char),
    /// No character.
    Wrong,
}

/// What the bytes are with one more.
pub fn judge(begun: Partial, byte: u8) -> Judged
    requires { IsBegun (held_of begun) }
    ensures { Judges (held_of begun ++ byte ∷ []) result }
{
    match begun {
        Partial::Nothing => judge_first(byte),
        Partial::One(a) => judge_second(a, byte),
        Partial::Two(a, b) => judge_third(a, b, byte),
        Partial::Three(a, b, c) => judge_fourth(a, b, c, byte),
    }
}

#[tactic(auto, using(crate::proofs::Utf8Bytes::begun_unfinished))]
fn judge_first(a: u8) -> Judged
    ensures { Judges (a ∷ []) result }
{
    if a < 128 {
        Judged::Whole(char::from(a))
    } else if a < 194 || 244 < a {
        Judged::Wrong
    } else {
        Judged::Goes(Partial::One(a))
    }
}

fn least_second(a: u8) -> u8
    ensures { result ≡ least_second a }
{
    if a == 224 {
        160
    } else if a == 240 {
        144
    } else {
        128
    }
}

fn last_second(a: u8) -> u8
    ensures { result ≡ last_second a }
{
    if a == 237 {
        159
    } else if a == 244 {
        143
    } else {
        191
    }
}

#[tactic(auto, using(crate::proofs::Utf8Bytes::begun_unfinished))]
fn judge_second(a: u8, b: u8) -> Judged
    requires { IsBegun (a ∷ []) }
    ensures { Judges (a ∷ b ∷ []) result }
{
    let (least, last) = (least_second(a), last_second(a));
    if b < least || last < b {
        Judged::Wrong
    } else if a < 224 {
        match char::from_u32((u32::from(a) - 192) * 64 + (u32::from(b) - 128)) {
            Some(c) => Judged::Whole(c),
            None => Judged::Wrong,
        }
    } else {
        Judged::Goes(Partial::Two(a, b))
    }
}

#[tactic(auto, using(crate::proofs::Utf8Bytes::begun_unfinished))]
fn judge_third(a: u8, b: u8, c: u8) -> Judged
    requires { IsLead a b }
    ensures { Judges (a ∷ b ∷ c ∷ []) result }
{
    if c < 128 || 191 < c {
        Judged::Wrong
    } else if a < 240 {
        let high = (u32::from(a) - 224) * 64 + (u32::from(b) - 128);
        match char::from_u32(high * 64 + (u32::from(c) - 128)) {
            Some(c) => Judged::Whole(c),
            None => Judged::Wrong,
        }
    } else {
        Judged::Goes(Partial::Three(a, b, c))
    }
}

fn judge_fourth(a: u8, b: u8, c: u8, d: u8) -> Judged
    requires { IsBegun (a ∷ b ∷ c ∷ []) }
    ensures { Judges (a ∷ b ∷ c ∷ d ∷ []) result }
{
    if d < 128 || 191 < d {
        Judged::Wrong
    } else {
        let high = (u32::from(a) - 240) * 64 + (u32::from(b) - 128);
        let low = (u32::from(c) - 128) * 64 + (u32::from(d) - 128);
        match char::from_u32(high * 4096 + low) {
            Some(c) => Judged::Whole(c),
            None => Judged::Wrong,
        }
    }
}
