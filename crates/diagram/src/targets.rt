// Targets as numbers.
ghost use Rattle.std.specs.Prelude.{◌≡◌};
ghost use Rattle.diagram.specs.Records.{target_number};

use crate::edges::Target;

impl Target {
    // The number of the target: 0 and 1 for the terminals, 2 + k for diamond k. `u32::from` would not say which number.
    pub fn number(self) -> u32
        ensures { result ≡ target_number self }
    {
        match self {
            Target::Zero => 0,
            Target::One => 1,
            Target::Diamond(k) => 2 + k as u32,
        }
    }
}
