// The words of the acts, for the reader and the writer.
ghost use Rattle.std.specs.Prelude.{◌≡◌, [], ◌∷◌, get_or};
ghost use Rattle.model.specs.Texts.{words};

// [3.40] How many acts there are.
pub const COUNT: u64 = 10;

// [6.70] The word of an act; past the last act there is none.
pub(crate) fn word(action: u64) -> &'static [u8]
    ensures { result.now ≡ get_or words action [] }
{
    match action {
        0 => b"wait",
        1 => b"try",
        2 => b"test",
        3 => b"set",
        4 => b"check",
        5 => b"crit",
        6 => b"exit",
        7 => b"reset",
        8 => b"rem",
        9 => b"withdraw",
        _ => b"",
    }
}
