// Numbers of constraints as calls name them: any number of sixteen bits, while a board takes those of eight.
ghost use Rattle.std.specs.Prelude.{◌≡◌, min};

// The number as a board takes it. A board gives no number above 127, so a larger one may stand for any other that was never given.
pub(crate) fn board_number(number: u16) -> u8
    ensures { result ≡ min number 255 }
{
    u8::try_from(number).unwrap_or(u8::MAX)
}
