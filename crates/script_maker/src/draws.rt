//! The sequence of numbers that a script is made from.
ghost use Rattle.std.specs.Prelude.{◌≡◌, ◌<◌, ◌^◌};
ghost use Rattle.script_maker.specs.Draws.{next_number};

/// The number that follows this one in the sequence.
pub fn next_number(number: u32) -> u32
    requires { number < 2 ^ 31 }
    ensures next { result ≡ next_number number }
    ensures range { result < 2 ^ 31 }
{
    ((u64::from(number) * 1_103_515_245 + 12_345) % (1 << 31)) as u32
}
