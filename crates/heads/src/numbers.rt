// Numbers of 32 bits; where one would be more, it is the greatest.
ghost use Rattle.std.specs.Prelude.{◌≡◌};
ghost use Rattle.sheets.specs.Sheets.{cap};

pub fn clamp(number: usize) -> u32
    ensures { result ≡ cap number }
{
    number.min(4294967295) as u32
}
