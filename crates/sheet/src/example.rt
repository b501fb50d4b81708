//! The worked example of a sheet.
ghost use Rattle.std.specs.Prelude.{◌≡◌, length};
ghost use Rattle.sheet.specs.Example.{gate, Opens, Refuses};

/// How many bytes the worked example has. The contract says what they open to, and what is refused where a byte is changed, added or left out.
pub fn example_length() -> usize
    ensures value { result ≡ length gate }
    ensures opens { Opens }
    ensures refuses { Refuses }
{
    104
}
